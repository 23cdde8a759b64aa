// The arrays that reach a region in constant time: where its record stands, and the region after its subtree.
ghost use Rattle.std.specs.Prelude.{◌≡◌, ℕ, ◌+◌, ◌≤◌, ◌<◌, length, get_or};
ghost use Rattle.tree_layout.specs.Decode.{region_count, place_of, decode};
ghost use Rattle.tree_layout.specs.Facts.{TreeLayout};
ghost use Rattle.tree.specs.Shape.{tree_refusal};
ghost use Rattle.tree.specs.Yards.{end_of, hops};
ghost use Rattle.tree.specs.Arrays.{overwrite, Laid};

use crate::regions;
use tree_layout::{Region, records};

// Fills in where each region's record stands.
pub fn fill_places(b: &[u8], places: &mut [usize])
    requires { TreeLayout b.now × (region_count b.now ≤ length places.old) }
    ensures { places.new ≡ overwrite (place_of b.now)
        (region_count b.now) places.old }
{
    let h = records::header(b);
    let n = h.regions as usize;
    let m = h.landmarks as usize;
    let mut at = records::FIRST_RECORD;
    for i in 0..n {
        places[i] = at;
        at += tree_layout::size_at(b, m, at);
    }
}

// The number after the subtrees of n siblings of which the first has number `start`.
fn after_siblings(ends: &[usize], n: u8, start: usize) -> usize
    requires { (k : ℕ) → k < n → hops (λ j. get_or ends.now j 0) k start < length ends.now }
    ensures { result ≡ hops (λ j. get_or ends.now j 0) n start }
{
    let mut j = start;
    for _ in 0..n {
        j = ends[j];
    }
    j
}

// Fills in the region after each region's subtree, the last region first.
pub fn fill_ends(b: &[u8], places: &[usize], ends: &mut [usize])
    requires { (tree_refusal b.now ≡ 0) × Laid b.now places.now × (length places.now ≤ length ends.old) }
    ensures { ends.new ≡ overwrite (end_of (decode b.now).regions)
        (region_count b.now) ends.old }
{
    for i in (0..places.len()).rev() {
        let f = regions::fields(b, places, Region { number: i as u16 });
        ends[i] = after_siblings(ends, f.children, i + 1);
    }
}
