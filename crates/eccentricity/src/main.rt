#![tactic(auto)]
// Reads a road book from standard input, and writes for each junction its greatest distance to any junction and the sum
// of its distances to all. The whole text is made first, and then written.
ghost use Rattle.std.specs.Prelude.{◌≡◌, List, ◌++◌, ℕ, ◌+◌, ◌≤◌, ◌<◌, length};
ghost use Rattle.text.specs.Text.{in_turn};
ghost use Rattle.road_layout.specs.Road.{junctions};
ghost use Rattle.adjacency.specs.Adjacency.{count_in, Adjacency, IsAdjacency};
ghost use Rattle.eccentricity.specs.Rows.{furthest_of, row_total};
ghost use Rattle.eccentricity.specs.Output.{heading, row_text, eccentricity_text};

use book::Junction;
use text::Text;

// The greatest of the first n distances.
fn furthest(ds: &[u32], n: usize) -> u64
    requires { n ≤ length ds.now }
    ensures { result ≡ furthest_of ds.now n }
{
    let mut most: u64 = 0;
    for d in &ds[..n] {
        most = most.max(u64::from(*d));
    }
    most
}

// The sum of the first n distances.
fn total(ds: &[u32], n: usize) -> u64
    requires { (n ≤ length ds.now) × (n ≤ 1024) }
    ensures { result ≡ row_total ds.now n }
{
    let mut sum: u64 = 0;
    for d in &ds[..n] {
        sum += u64::from(*d);
    }
    sum
}

// Puts junction u's row.
fn row<const N: usize>(out: &mut Text<N>, adj: &[u16], u: u16)
    requires { IsAdjacency adj.now × (u < count_in adj.now) × (length out.old + 63 ≤ N) }
    ensures added { (b : List ℕ) → Adjacency b adj.now → out.new ≡ out.old ++ row_text b u }
    ensures short { length out.new ≤ length out.old + 63 }
{
    let mut ds = [0u32; 1024];
    road::walk::distances(adj, &mut ds, Junction { number: u });
    let n = adjacency::junctions(adj) as usize;
    out.put_number(u as u64, b" ");
    out.put_number(furthest(&ds, n), b" ");
    out.put_number(total(&ds, n), b"\n");
}

// Puts a line of names, and a row for each junction, in order.
#[tactic(auto, using(text::proofs::Appending::turns))]
fn rows<const N: usize>(out: &mut Text<N>, adj: &[u16])
    requires { IsAdjacency adj.now × (length out.old + 65536 ≤ N) }
    ensures text { (b : List ℕ) → Adjacency b adj.now
        → out.new ≡ out.old ++ (heading ++ in_turn (row_text b) (junctions b)) }
    ensures fits { length out.new ≤ length out.old + 65536 }
{
    out.put(b"junction furthest total\n");
    for u in 0..adjacency::junctions(adj) {
        row(out, adj, u);
    }
}

// Puts the text that a road book's bytes lead to.
fn report<const N: usize>(b: &[u8], out: &mut Text<N>)
    requires { length out.old + 65536 ≤ N }
    ensures text { out.new ≡ out.old ++ eccentricity_text b.now }
    ensures fits { length out.new ≤ length out.old + 65536 }
{
    let mut adj = [0u16; adjacency::WORDS];
    match road::read(b, &mut adj) {
        Ok(_) => rows(out, &adj),
        Err(why) => out.put_refused(why.number() as u32),
    }
}

fn main(rt: HostRuntime) {
    let mut input = streams::buffer();
    let Some(n) = streams::read_input(&rt, &mut rt.stdin(), &mut input) else {
        return;
    };
    let mut out: Text<65536> = Text::new();
    report(&input[..n], &mut out);
    streams::write_output(&rt, &mut rt.stdout(), out.as_bytes());
}
