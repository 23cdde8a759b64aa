#![tactic(auto)]
// The paper's examples that are not starred, executed: a line for each, with what a search by its books answers. The
// starred ones are proved, as the rows of one result (specs/Starred.antt).
ghost use Rattle.std.specs.Prelude.{◌≡◌, ◌∷◌, [], ◌++◌, ◌+◌, ◌*◌, ◌≤◌, ◌<◌, length};
ghost use Rattle.std.proofs.Math.Option.{none};
ghost use Rattle.search_call.specs.Call.{want_any, search_refusal};
ghost use Rattle.examples.specs.Books.{road_n, tree_n, asking};
ghost use Rattle.examples.specs.Output.{example_line};

use search_tree::{Goal, Want};
use text::Text;

// Net N's road book.
fn road_n() -> [u8; 33]
    ensures { result ≡ road_n }
{
    *b"\0\0\0\x1d\x01\0\x05\0\x04\0\0\0\x01\0\x02\0\x01\0\x02\0\x03\0\x02\0\x03\0\x04\0\x03\0\x04\0\x01"
}

// Its tree book.
fn tree_n() -> [u8; 39]
    ensures { result ≡ tree_n }
{
    *b"\0\0\0\x23\x01\0\x05\0\x01\0\x03\x01\0\0\0\x05\0\0\x03\0\0\0\0\0\x02\0\x01\0\0\0\x09\0\x03\0\0\0\x0a\0\x04"
}

// The listing's query, with limit 6.
fn query_n() -> [u8; 16]
    ensures { result ≡ asking 0 2 6 (0 ∷ 2 ∷ []) }
{
    *b"\0\0\0\x0c\x01\0\x02\0\0\0\x06\x02\0\0\0\x02"
}

// The number by which a search by an example's books is refused, or 0.
fn refusal(road: &[u8], tree: &[u8], query: &[u8]) -> u32
    ensures { result ≡ search_refusal road.now tree.now query.now (want_any none) 16384
        128 }
{
    let mut work = [0u32; work_area::WORDS];
    let mut results = [0u32; 128];
    let goal = Goal::Nearest;
    let want = Want {
        kinds: kinds::ANY,
        goal,
    };
    let found = search_tree::search(road, tree, query, want, &mut work, &mut results);
    found.refusal
}

// Net N with its first road of so many seconds.
fn seconds(s: u16) -> u32 {
    let mut road = road_n();
    book::put_u16(&mut road, 13, s);
    let tree = tree_n();
    let query = query_n();
    refusal(&road, &tree, &query)
}

// A road book of n junctions and no road.
fn no_road(n: u16) -> u32 {
    let mut road = *b"\0\0\0\x05\x01\0\0\0\0";
    book::put_u16(&mut road, 5, n);
    let tree = tree_n();
    let query = query_n();
    refusal(&road, &tree, &query)
}

// Puts road number i of a chain, from junction i to the next, into a road book.
fn put_road(b: &mut [u8], i: u16, s: u16)
    requires { (i < 1024) × (15 + 6 * i ≤ length b.old) }
{
    let at = 9 + 6 * (i as usize);
    book::put_u16(b, at, i);
    book::put_u16(b, at + 2, i + 1);
    book::put_u16(b, at + 4, s);
}

// Puts a chain's roads into a road book: net N's seconds, then 1 for each further road.
fn put_roads(b: &mut [u8], roads: u16)
    requires { (roads ≤ 1024) × (6153 ≤ length b.old) }
{
    for i in 0..roads {
        put_road(b, i, 1);
    }
    put_road(b, 0, 2);
    put_road(b, 1, 3);
    put_road(b, 2, 4);
}

// Net N's chain drawn out to n junctions; its tree with so many junctions, which is still a true one.
fn junctions(n: u16) -> u32
    requires { (5 ≤ n) × (n ≤ 1025) }
{
    let roads = n - 1;
    let size = 5 + 6 * (roads as usize);
    let mut road = [0u8; 6153];
    road[4] = 1;
    book::put_u32(&mut road, 0, size as u32);
    book::put_u16(&mut road, 5, n);
    book::put_u16(&mut road, 7, roads);
    put_roads(&mut road, roads);
    let mut tree = tree_n();
    book::put_u16(&mut tree, 5, n);
    book::put_u16(&mut tree, 14, n);
    let query = query_n();
    let end = 4 + size;
    refusal(&road[..end], &tree, &query)
}

// Net N and the listing's query with n crews, all at junction 0.
fn crews(n: u16) -> u32
    requires { n ≤ 17 }
{
    let road = road_n();
    let tree = tree_n();
    let mut query = [0u8; 46];
    query[3] = 8 + 2 * (n as u8);
    query[4] = 1;
    query[6] = 2;
    query[10] = 6;
    query[11] = n as u8;
    let end = 12 + 2 * (n as usize);
    refusal(&road, &tree, &query[..end])
}

// Puts an example's line: a name, the number that was tried, and what the search answers.
#[tactic(auto, using(crate::proofs::Printing::lines))]
fn line<const N: usize>(out: &mut Text<N>, name: &[u8], n: u16, then: &[u8], why: u32)
    requires { (length name.now ≤ 20) × (length then.now ≤ 20) × (length out.old + 100 ≤ N) }
    ensures added { out.new ≡ out.old ++ example_line name.now n then.now why }
    ensures short { length out.new ≤ length out.old + 100 }
{
    out.put(name);
    out.put_number(n as u64, then);
    if why == 0 {
        out.put(b"accepted\n");
    } else {
        out.put_refused(why);
    }
}

// Puts the line of an example, which has the number that it tries.
fn put_tried<const N: usize, F: Fn(u16) -> u32>(
    out: &mut Text<N>,
    name: &[u8],
    n: u16,
    then: &[u8],
    tried: F,
)
    requires { F.pre tried n × (length name.now ≤ 20) × (length then.now ≤ 20)
        × (length out.old + 100 ≤ N) }
    ensures { length out.new ≤ length out.old + 100 }
{
    line(out, name, n, then, tried(n));
}

fn main(rt: HostRuntime) {
    let mut out: Text<4096> = Text::new();
    put_tried(&mut out, b"seconds ", 0, b": ", seconds);
    put_tried(&mut out, b"seconds ", 65535, b": ", seconds);
    put_tried(&mut out, b"junctions ", 1024, b": ", junctions);
    put_tried(&mut out, b"junctions ", 0, b", no road: ", no_road);
    put_tried(&mut out, b"junctions ", 1025, b": ", junctions);
    put_tried(&mut out, b"junctions ", 2, b", no road: ", no_road);
    put_tried(&mut out, b"crews ", 16, b": ", crews);
    put_tried(&mut out, b"crews ", 17, b": ", crews);
    streams::write_output(&rt, &mut rt.stdout(), out.as_bytes());
}
