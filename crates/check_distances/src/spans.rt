// An inner region's landmarks: "a stored .. least or greatest isn't the true one".
ghost use Rattle.std.specs.Prelude.{◌≡◌, List, ℕ, ◌<◌, length};
ghost use Rattle.adjacency.specs.Adjacency.{Adjacency};
ghost use Rattle.road.specs.Dijkstra.{dist};
ghost use Rattle.yard.specs.Yards.{yards_of, yard_refusal};
ghost use Rattle.tree_layout.specs.Decode.{landmark_count};
ghost use Rattle.tree_layout.specs.code.Marks.{marks_at};
ghost use Rattle.tree_layout.specs.Refusal.{all};
ghost use Rattle.check_rules.specs.Truth.{true_span, within};
ghost use Rattle.check_distances.specs.code.Row.{span_in};
ghost use Rattle.check_distances.specs.code.Beside.{Marked};

use tree_layout::{Fields, Landmark, landmarks};

// Whether a landmark's least and greatest are those of the distances in ds to the yards in the region's range.
fn span_true(ds: &[u32], yard: &[u8], f: Fields, l: Landmark) -> bool
    requires { yard_refusal yard.now ≡ 0 }
    ensures { result ≡ span_in ds.now (within f.first.number f.after (yards_of yard.now))
        l.least l.greatest }
{
    let mut low = road::walk::FAR;
    let mut high: u32 = 0;
    for k in 0..yard::count(yard) as usize {
        let y = yard::yard_at(yard, k);
        if (f.first.number..f.after).contains(&y.number) {
            let d = road::walk::distance_to(ds, y);
            low = low.min(d);
            high = high.max(d);
        }
    }
    l.least == low && l.greatest == high
}

// Whether the least and greatest of each of an inner region's m landmarks are true, by the fields of its record.
pub fn spans_true(adj: &[u16], yard: &[u8], tree: &[u8], f: Fields, m: usize) -> bool
    requires { Marked adj.now tree.now f.at × (yard_refusal yard.now ≡ 0)
        × (0 < length (within f.first.number f.after (yards_of yard.now))) × (m ≡ landmark_count tree.now) }
    ensures { (road : List ℕ) → Adjacency road adj.now
        → result ≡ all (true_span (dist road) (within f.first.number f.after (yards_of yard.now)))
        (marks_at tree.now f.at) }
{
    let mut ds = [0u32; 1024];
    let mut last = None;
    for j in 0..m {
        let l = landmarks::landmark(tree, f.at, j);
        road::walk::walk_from(adj, &mut ds, last, l.place);
        if !span_true(&ds, yard, f, l) {
            return false;
        }
        last = Some(l.place);
    }
    true
}
