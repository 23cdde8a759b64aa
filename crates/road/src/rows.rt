// Rows of distances: an array with 1,024 words to a row, and a row for each of some sources.
ghost use Rattle.std.specs.Prelude.{◌≡◌, List, ℕ, ◌+◌, ◌*◌, ◌≤◌, ◌<◌, length};
ghost use Rattle.adjacency.specs.Adjacency.{count_in, Adjacency, IsAdjacency};
ghost use Rattle.road.specs.code.Rows.{cell, Within, Rowed};

use crate::walk;
use book::Junction;

// Row r's word for junction v.
pub fn cell(rows: &[u32], r: usize, v: Junction) -> u32
    requires { (r * 1024 + 1024 ≤ length rows.now) × (v.number < 1024) }
    ensures { result ≡ cell rows.now r v.number }
{
    rows[r * 1024 + v.number as usize]
}

// Fills in a row for each source: its distances to every junction.
pub fn fill(adj: &[u16], sources: &[u16], rows: &mut [u32])
    requires { IsAdjacency adj.now × Within (count_in adj.now) sources.now
        × (1024 * length sources.now ≤ length rows.old) }
    ensures { (road : List ℕ) → Adjacency road adj.now
        → Rowed road sources.now rows.new }
{
    for (r, source) in sources.iter().enumerate() {
        let at = r * 1024;
        walk::distances(adj, &mut rows[at..at + 1024], Junction { number: *source });
    }
}
