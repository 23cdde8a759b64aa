#![tactic(auto)]
// A road book's adjacency in one array of words: its junction count, and for each junction its arcs, newest first.
ghost use Rattle.std.specs.Prelude.{◌≡◌, ◌+◌, ◌*◌, ◌≤◌, ◌<◌, length};
ghost use Rattle.road_layout.specs.Road.{road_at};
ghost use Rattle.road_layout.specs.Layout.{road_layout_refusal};
ghost use Rattle.adjacency.specs.Adjacency.{adjacency_words, count_in, head_at, next_at, to_at, cost_at};
ghost use Rattle.adjacency.specs.Adjacency.{push_arc, push_road, Bare, Adjacency};

use book::Junction;

// How many words there are.
pub const WORDS: usize = 25601;

// Where the words of the junctions begin, and three words before those of arc 1.
const HEADS: usize = 1;

const ARCS: usize = 1022;

// How many junctions there are.
pub fn junctions(adj: &[u16]) -> u16
    requires { length adj.now ≡ adjacency_words }
    ensures { result ≡ count_in adj.now }
{
    adj[0]
}

// The newest arc of junction u, 0 if it has none.
pub fn head(adj: &[u16], u: Junction) -> u16
    requires { (length adj.now ≡ adjacency_words) × (u.number < 1024) }
    ensures { result ≡ head_at adj.now u.number }
{
    adj[HEADS + u.number as usize]
}

// The arc of the same junction before arc a, 0 if there is none.
pub fn next(adj: &[u16], a: u16) -> u16
    requires { (length adj.now ≡ adjacency_words) × (1 ≤ a) × (a ≤ 8192) }
    ensures { result ≡ next_at adj.now a }
{
    adj[ARCS + 3 * a as usize]
}

// The junction that arc a leads to.
pub fn to(adj: &[u16], a: u16) -> Junction
    requires { (length adj.now ≡ adjacency_words) × (1 ≤ a) × (a ≤ 8192) }
    ensures { result.number ≡ to_at adj.now a }
{
    Junction {
        number: adj[ARCS + 3 * a as usize + 1],
    }
}

// The seconds of arc a.
pub fn cost(adj: &[u16], a: u16) -> u16
    requires { (length adj.now ≡ adjacency_words) × (1 ≤ a) × (a ≤ 8192) }
    ensures { result ≡ cost_at adj.now a }
{
    adj[ARCS + 3 * a as usize + 2]
}

// Puts arc a, from u to v in s seconds, before the arcs of u.
fn push_arc(adj: &mut [u16], a: u16, u: Junction, v: Junction, s: u16)
    requires { (length adj.old ≡ adjacency_words) × (1 ≤ a) × (a ≤ 8192) × (u.number < 1024) }
    ensures { adj.new ≡ push_arc adj.old a u.number v.number s }
{
    let i = ARCS + 3 * a as usize;
    let j = HEADS + u.number as usize;
    adj[i] = adj[j];
    adj[i + 1] = v.number;
    adj[i + 2] = s;
    adj[j] = a;
}

// Puts both arcs of road k: 2 k + 1 from low to high, and 2 k + 2 back.
fn push_road(b: &[u8], k: usize, adj: &mut [u16])
    requires { (9 + 6 * k + 6 ≤ length b.now) × (k < 4096)
        × ((road_at b.now k).low < 1024) × ((road_at b.now k).high < 1024) × (length adj.old ≡ adjacency_words) }
    ensures { adj.new ≡ push_road adj.old (road_at b.now k) k }
{
    let road = road_layout::road_at(b, k);
    let a = (2 * k + 1) as u16;
    push_arc(adj, a, road.low, road.high, road.seconds);
    push_arc(adj, a + 1, road.high, road.low, road.seconds);
}

// Makes it n junctions, none of which has an arc.
fn clear(adj: &mut [u16], n: u16)
    requires { length adj.old ≡ adjacency_words }
    ensures { Bare n adj.new }
{
    adj[0] = n;
    adj[HEADS..HEADS + 1024].fill(0);
}

// Makes the array the adjacency of a road book of sound layout.
pub fn fill(b: &[u8], adj: &mut [u16])
    requires { (road_layout_refusal b.now ≡ 0) × (length adj.old ≡ adjacency_words) }
    ensures { Adjacency b.now adj.new }
{
    clear(adj, road_layout::junction_count(b));
    let count = road_layout::road_count(b) as usize;
    for k in 0..count {
        push_road(b, k, adj);
    }
}
