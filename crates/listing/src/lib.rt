#![tactic(auto)]
// What the programs that list yards share: books taken from the input, the search by them, and its answer as text.
mod answer; // answer.rt: a search's answer as text
mod books; // books.rt: the books of the input, and the search by them
mod calls; // calls.rt: the call that a goal asks for

ghost use Rattle.std.specs.Prelude.{◌≡◌, ◌++◌, ◌+◌, ◌≤◌, length, take};
ghost use Rattle.search_tree.specs.Found.{drive_of};
ghost use Rattle.listing.specs.Output.{books_text};

use search_tree::Goal;
use text::Text;

// Searches by the books of some bytes for what a goal asks, and appends the text that the answer leads to.
#[tactic(auto, using(crate::proofs::Printing::printed))]
pub fn append<const N: usize>(input: &[u8], goal: Goal, results: &mut [u32], out: &mut Text<N>)
    requires { (length results.old ≤ 512) × (length out.old + 65536 ≤ N) }
    ensures text { out.new ≡ out.old ++ books_text input.now (drive_of goal) results.old }
    ensures fits { length out.new ≤ length out.old + 65536 }
{
    let found = books::find(input, goal, results);
    answer::put(found, results, out);
}

// Searches by the books of some bytes for what a goal asks, makes the text that the answer leads to at the start of an
// array, and answers its length.
pub fn put(input: &[u8], goal: Goal, results: &mut [u32], out: &mut [u8]) -> usize
    requires { (length results.old ≤ 512) × (65536 ≤ length out.old) }
    ensures text { take result out.new
        ≡ books_text input.now (drive_of goal) results.old }
    ensures fits { result ≤ 65536 }
{
    let mut whole: Text<65536> = Text::new();
    append(input, goal, results, &mut whole);
    text::put(out, 0, whole.as_bytes())
}
