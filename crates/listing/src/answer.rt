// A search's answer as text.
ghost use Rattle.std.specs.Prelude.{◌≡◌, ◌++◌, ◌+◌, ◌*◌, ◌≤◌, length};
ghost use Rattle.text.specs.Text.{in_turn};
ghost use Rattle.search_tree.specs.Found.{found_of};
ghost use Rattle.listing.specs.Output.{yard_line, counts_line, listed_line, answer_text};

use search_tree::Found;
use text::Text;

// Puts a line for a yard and its distance.
#[tactic(auto, unfolding(crate::specs::Output::yard_line))]
fn line<const N: usize>(out: &mut Text<N>, yard: u32, seconds: u32)
    requires { length out.old + 42 ≤ N }
    ensures added { out.new ≡ out.old ++ yard_line yard seconds }
    ensures short { length out.new ≤ length out.old + 42 }
{
    out.put_number(yard as u64, b" ");
    out.put_number(seconds as u64, b"\n");
}

// Puts a line for each yard listed.
#[tactic(auto, using(text::proofs::Appending::turns))]
fn lines<const N: usize>(out: &mut Text<N>, results: &[u32], listed: usize)
    requires { (2 * listed ≤ length results.now) × (length out.old + 42 * listed ≤ N) }
    ensures added { out.new ≡ out.old ++ in_turn (listed_line results.now) listed }
    ensures short { length out.new ≤ length out.old + 42 * listed }
{
    for i in 0..listed {
        line(out, results[2 * i], results[2 * i + 1]);
    }
}

// Puts how many yards were measured and how many steps were taken.
#[tactic(auto, unfolding(crate::specs::Output::counts_line))]
fn counts<const N: usize>(out: &mut Text<N>, found: Found)
    requires { length out.old + 57 ≤ N }
    ensures added { out.new ≡ out.old ++ counts_line found.measured found.taken }
    ensures short { length out.new ≤ length out.old + 57 }
{
    out.put(b"measured ");
    out.put_number(found.measured as u64, b" taken ");
    out.put_number(found.taken as u64, b"\n");
}

// Puts what a search's answer and its result words lead to.
#[tactic(auto, using(crate::proofs::Printing::answers))]
pub fn put<const N: usize>(found: Found, results: &[u32], out: &mut Text<N>)
    requires { (2 * found.listed ≤ length results.now) × (length results.now ≤ 512)
        × (length out.old + 65536 ≤ N) }
    ensures text { out.new ≡ out.old ++ answer_text (found_of found) results.now }
    ensures fits { length out.new ≤ length out.old + 65536 }
{
    if found.refusal != 0 {
        out.put_refused(found.refusal);
        return;
    }
    if found.settled == 0 {
        out.put(b"spent ");
        counts(out, found);
        return;
    }
    out.put(b"yard seconds\n");
    lines(out, results, found.listed as usize);
    counts(out, found);
}
