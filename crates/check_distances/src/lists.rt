// A leaf's landmarks: "a stored distance .. isn't the true one".
ghost use Rattle.std.specs.Prelude.{◌≡◌, List, ℕ, ◌≤◌, length};
ghost use Rattle.adjacency.specs.Adjacency.{Adjacency};
ghost use Rattle.road.specs.Dijkstra.{dist};
ghost use Rattle.tree_layout.specs.Sizes.{list_size};
ghost use Rattle.tree_layout.specs.Decode.{read_list, landmark_count};
ghost use Rattle.tree_layout.specs.code.Accessors.{fields_at};
ghost use Rattle.tree_layout.specs.code.Marks.{marks_at};
ghost use Rattle.tree_layout.specs.Refusal.{all};
ghost use Rattle.check_rules.specs.Truth.{true_list};
ghost use Rattle.check_distances.specs.code.Row.{list_in};
ghost use Rattle.check_distances.specs.code.Beside.{Marked};

use tree_layout::{Fields, every, landmarks, records};

// Whether each of n elements has the distance that ds has for its yard.
fn list_true(p: &[u8], v: u8, n: usize, ds: &[u32]) -> bool
    requires { (n ≤ 65535) × (list_size v n ≤ length p.now) }
    ensures { result ≡ list_in ds.now (read_list v p.now n 0) }
{
    every::every_element(
        p,
        v,
        n,
        |e| e.distance == road::walk::distance_to(ds, e.yard),
    )
}

// Whether the lists of a leaf's m landmarks are true, by the fields of its record.
pub fn lists_true(adj: &[u16], tree: &[u8], f: Fields, m: usize) -> bool
    requires { Marked adj.now tree.now f.at × (f ≡ fields_at tree.now f.at) × (f.children ≡ 0)
        × (m ≡ landmark_count tree.now) }
    ensures { (road : List ℕ) → Adjacency road adj.now
        → result ≡ all (true_list (dist road)) (marks_at tree.now f.at) }
{
    let v = book::version(tree);
    let yards = f.yards as usize;
    let mut ds = [0u32; 1024];
    let mut last = None;
    for j in 0..m {
        let at = landmarks::mark_place(tree, f.at, j);
        let place = records::junction(tree, at);
        road::walk::walk_from(adj, &mut ds, last, place);
        let list = records::list(tree, at, yards);
        if !list_true(list, v, yards, &ds) {
            return false;
        }
        last = Some(place);
    }
    true
}
