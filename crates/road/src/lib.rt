#![tactic(auto)]

pub mod rows; // rows.rt: a row of distances for each of some sources
pub mod walk; // walk.rt: least distances from a source, by Dijkstra's rounds

ghost use Rattle.std.specs.Prelude.{◌≡◌, List, ℕ, ◌≤◌, length};
ghost use Rattle.road_layout.specs.Road.{junctions, road_count};
ghost use Rattle.road_layout.specs.Layout.{told, road_answer};
ghost use Rattle.adjacency.specs.Arcs.{net};
ghost use Rattle.adjacency.specs.Adjacency.{adjacency_words, Adjacency, IsAdjacency};
ghost use Rattle.road.specs.Dijkstra.{distances};
ghost use Rattle.road.specs.Refusal.{all_reached, road_refusal};

use book::Junction;
use book::refusal::Refusal;
use road_layout::Counts;

// Whether each of the first n distances is one, and not FAR.
fn all_reached(ds: &[u32], n: usize) -> bool
    requires { n ≤ length ds.now }
    ensures { result ≡ all_reached ds.now n }
{
    ds[..n].iter().all(|d| *d < walk::FAR)
}

// Whether every junction can be reached from junction 0.
fn connected(adj: &[u16]) -> bool
    requires { IsAdjacency adj.now }
    ensures { (b : List ℕ) → Adjacency b adj.now
        → result ≡ all_reached (distances (net b) (junctions b) 0) (junctions b) }
{
    let mut row = [0u32; 1024];
    walk::distances(adj, &mut row, Junction { number: 0 });
    all_reached(&row, adjacency::junctions(adj) as usize)
}

// Reads a road book through tests 1 to 6, and keeps its adjacency.
pub fn read(b: &[u8], adj: &mut [u16]) -> Result<Counts, Refusal>
    requires { length adj.old ≡ adjacency_words }
    ensures answer { road_answer result
        ≡ told (road_refusal b.now) (junctions b.now) (road_count b.now) }
    ensures adjacency { road_refusal b.now ≡ 0 → Adjacency b.now adj.new }
{
    let counts = road_layout::read(b)?;
    adjacency::fill(b, adj);
    if !connected(adj) {
        return Err(Refusal::Unreached);
    }
    Ok(counts)
}
