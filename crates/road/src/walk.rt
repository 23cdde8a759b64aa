// Least distances from a source, by Dijkstra's rounds: state, step and run.
ghost use Rattle.std.specs.Prelude.{◌≡◌, true, false, List, ℕ, ◌+◌, ◌/◌, ◌≤◌, ◌<◌, length, replicate, set, IfSome};
ghost use Rattle.tournament.specs.code.Tournament.{queue_words, put_leaf, top};
ghost use Rattle.adjacency.specs.Arcs.{net};
ghost use Rattle.adjacency.specs.Adjacency.{count_in, Adjacency, IsAdjacency};
ghost use Rattle.road.specs.Dijkstra.{far, at};
ghost use Rattle.road.specs.Facts.{Passing, LeastFrom};
ghost use Rattle.road.specs.code.Queue.{absent, reach, Above, shorten_both, relax_both};
ghost use Rattle.road.specs.code.Queue.{Walking, WalkingIn, IsWalking, Roomy};
ghost use Rattle.road.specs.code.Rows.{RowFrom};

use book::Junction;

// The distance of a junction that is not reached, above every other, and the word of one that is not queued.
pub const FAR: u32 = 4294967295;

const ABSENT: u64 = 4398046510080;

// The distance of junction v, FAR where the list has none.
#[tactic(auto, unfolding(crate::specs::Dijkstra::at))]
pub fn distance_to(ds: &[u32], v: Junction) -> u32
    ensures { result ≡ at ds.now v.number }
{
    ds.get(v.number as usize).copied().unwrap_or(FAR)
}

// Makes x junction v's distance and queues it, if x is shorter.
fn shorten(row: &mut [u32], queue: &mut [u64], v: Junction, x: u32)
    requires { (length row.old ≡ 1024) × (length queue.old ≡ queue_words) × (v.number < 1024)
        × Above row.old queue.old }
    ensures { reach row.new queue.new
        ≡ shorten_both (reach row.old queue.old) v.number x }
{
    let i = v.number as usize;
    if x < row[i] {
        row[i] = x;
        tournament::lower(queue, i, x as u64 * 1024 + v.number as u64);
    }
}

// Relaxes the arcs of junction u at distance d.
fn relax(adj: &[u16], row: &mut [u32], queue: &mut [u64], u: u16, d: u32)
    requires { IsAdjacency adj.now × (length row.old ≡ 1024) × (length queue.old ≡ queue_words)
        × (u < 1024) × (d ≤ 67042305) × Above row.old queue.old }
    ensures { (b : List ℕ) → Adjacency b adj.now → reach row.new queue.new
        ≡ relax_both u d (net b) (reach row.old queue.old) }
{
    let mut a = adjacency::head(adj, Junction { number: u });
    while a != 0 {
        let v = adjacency::to(adj, a);
        let s = adjacency::cost(adj, a);
        a = adjacency::next(adj, a);
        shorten(row, queue, v, d + s as u32);
    }
}

// Walks on from junction u at distance d: marks it, takes it off the queue, and relaxes its arcs.
fn walk_on(adj: &[u16], row: &mut [u32], done: &mut [bool], queue: &mut [u64], u: u16, d: u32)
    requires { IsAdjacency adj.now × Roomy row.old done.old queue.old
        × (u < 1024) × (d ≤ 67042305) × Above row.old (put_leaf queue.old u absent) }
    ensures { ((b : List ℕ) → Adjacency b adj.now → reach row.new queue.new
        ≡ relax_both u d (net b) (reach row.old (put_leaf queue.old u absent)))
        × (done.new ≡ set done.old u true) }
{
    let i = u as usize;
    done[i] = true;
    tournament::put(queue, i, ABSENT);
    relax(adj, row, queue, u, d);
}

// The next round of a walk: walks on from the nearest junction that is reached and not yet walked on from.
fn round(adj: &[u16], row: &mut [u32], done: &mut [bool], queue: &mut [u64])
    requires { IsAdjacency adj.now × IsWalking adj.now row.old done.old queue.old }
    ensures { (source k : ℕ) → source < count_in adj.now
        → WalkingIn adj.now source k row.old done.old queue.old
        → WalkingIn adj.now source (k + 1) row.new done.new queue.new }
{
    let t = tournament::least(queue);
    if t < ABSENT {
        walk_on(adj, row, done, queue, (t % 1024) as u16, (t / 1024) as u32);
    }
}

// Makes no junction reached or walked on from.
fn reset(row: &mut [u32], done: &mut [bool])
    requires { (length row.old ≡ 1024) × (length done.old ≡ 1024) }
    ensures { (row.new ≡ replicate 1024 far) × (done.new ≡ replicate 1024 false) }
{
    row.fill(FAR);
    done.fill(false);
}

// Starts a walk from a source: only the source is reached, at 0.
fn start(row: &mut [u32], done: &mut [bool], queue: &mut [u64], source: Junction)
    requires { Roomy row.old done.old queue.old × (source.number < 1024) }
    ensures { (b : List ℕ)
        → Walking b source.number 0 row.new done.new queue.new }
{
    reset(row, done);
    tournament::clear(queue, ABSENT);
    let s = source.number as usize;
    row[s] = 0;
    tournament::put(queue, s, source.number as u64);
}

// Writes the distances from a source, FAR where there is no walk: in a road book that passes, the least total of any
// walk to each junction.
pub fn distances(adj: &[u16], row: &mut [u32], source: Junction)
    requires { IsAdjacency adj.now × (length row.old ≡ 1024) × (source.number < count_in adj.now) }
    ensures row { RowFrom adj.now row.new source.number }
    ensures least { (b : List ℕ) → Passing b → Adjacency b adj.now
        → LeastFrom b source.number row.new }
{
    let mut done = [false; 1024];
    let mut queue = [0u64; tournament::WORDS];
    start(row, &mut done, &mut queue, source);
    for _ in 0..adjacency::junctions(adj) {
        round(adj, row, &mut done, &mut queue);
    }
}

// Makes row the distances from a place, without a walk if it has them: it has those from `last`, if that is a junction.
pub fn walk_from(adj: &[u16], row: &mut [u32], last: Option<Junction>, place: Junction)
    requires { IsAdjacency adj.now × (length row.old ≡ 1024) × (place.number < count_in adj.now)
        × IfSome last (λ l. l.number < count_in adj.now → RowFrom adj.now row.old l.number) }
    ensures { RowFrom adj.now row.new place.number }
{
    if last.is_some_and(|l| l.number == place.number) {
        return;
    }
    distances(adj, row, place);
}
