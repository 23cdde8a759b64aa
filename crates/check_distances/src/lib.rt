#![tactic(auto)]
// Test 9: whether a tree book's distances, leasts and greatests are the true ones, by one walk for each landmark.
mod lists; // lists.rt: a leaf's landmarks
mod spans; // spans.rt: an inner region's landmarks

ghost use Rattle.std.specs.Prelude.{◌≡◌, List, ℕ, ◌+◌, ◌<◌, length};
ghost use Rattle.book.specs.Bytes.{u16_at};
ghost use Rattle.adjacency.specs.Adjacency.{Adjacency};
ghost use Rattle.road.specs.Dijkstra.{dist};
ghost use Rattle.yard.specs.Yards.{yards_of, yard_refusal};
ghost use Rattle.tree_layout.specs.Decode.{decode, read_region, landmark_count};
ghost use Rattle.check_rules.specs.Truth.{within, true_beside_region, true_beside};
ghost use Rattle.check_distances.specs.code.Beside.{Marked, Beside};

use tree_layout::{every, records};

// Whether the numbers of the region whose record is at a place are true. It has m landmarks.
fn region_true(adj: &[u16], yard: &[u8], tree: &[u8], m: usize, at: usize) -> bool
    requires { Marked adj.now tree.now at × (yard_refusal yard.now ≡ 0)
        × (0 < length (within (u16_at tree.now at) (u16_at tree.now (at + 2)) (yards_of yard.now)))
        × (m ≡ landmark_count tree.now) }
    ensures { (road : List ℕ) → Adjacency road adj.now
        → result ≡ true_beside_region (dist road) (yards_of yard.now) (read_region tree.now m at) }
{
    let f = records::fields(tree, at);
    if f.children == 0 {
        return lists::lists_true(adj, tree, f, m);
    }
    spans::spans_true(adj, yard, tree, f, m)
}

// Whether every number of a tree book is the true one, beside a road book's adjacency and a yard book.
pub fn numbers_true(adj: &[u16], yard: &[u8], tree: &[u8]) -> bool
    requires { Beside adj.now yard.now tree.now }
    ensures { (road : List ℕ) → Adjacency road adj.now
        → result ≡ true_beside (dist road) (yards_of yard.now) (decode tree.now) }
{
    let m = records::header(tree).landmarks as usize;
    every::every_region(tree, |at| region_true(adj, yard, tree, m, at))
}
