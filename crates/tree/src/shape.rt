// The shape test: a descent of the regions in preorder, remaining levels falling.
ghost use Rattle.std.specs.Prelude.{◌≡◌};
ghost use Rattle.tree_layout.specs.Decode.{decode};
ghost use Rattle.tree.specs.Shape.{child_fits, siblings, subtree, shaped};
ghost use Rattle.tree.specs.Arrays.{Laid};

use crate::regions;
use tree_layout::{Fields, Region, records};

// Whether a child's range lies from low up to high, and it has no more yards than are left.
fn child_fits(c: Fields, low: u16, high: u16, left: u16) -> bool
    ensures { result ≡ child_fits low high left c.first.number c.after c.yards }
{
    if c.first.number < low {
        return false;
    }
    if high < c.after {
        return false;
    }
    c.yards <= left
}

// The end of r's subtree, with so many levels left.
#[cycle(siblings_end_subtree_end)]
pub fn subtree_end(b: &[u8], places: &[usize], levels: usize, r: Region) -> Option<Region>
    requires { Laid b.now places.now }
    ensures { result ≡ subtree (decode b.now).regions levels r.number }
{
    if levels == 0 {
        return None;
    }
    if places.len() <= r.number as usize {
        return None;
    }
    let f = regions::fields(b, places, r);
    let next = Region {
        number: r.number + 1,
    };
    if f.children != 0 {
        return siblings_end(
            b,
            places,
            levels - 1,
            f.children,
            next,
            f.first.number,
            f.after,
            f.yards,
        );
    }
    if !tree_leaf::leaf_ok(b, f.at) {
        return None;
    }
    Some(next)
}

// The end of the last subtree of n siblings from r on, in a range, with the yards that are left.
#[cycle(siblings_end_subtree_end)]
fn siblings_end(
    b: &[u8],
    places: &[usize],
    levels: usize,
    n: u8,
    r: Region,
    low: u16,
    high: u16,
    left: u16,
) -> Option<Region>
    requires { Laid b.now places.now }
    ensures { result ≡ siblings (decode b.now).regions
        (subtree (decode b.now).regions levels) n r.number low high left }
{
    if n == 0 {
        if left != 0 {
            return None;
        }
        return Some(r);
    }
    if places.len() <= r.number as usize {
        return None;
    }
    let f = regions::fields(b, places, r);
    if !child_fits(f, low, high, left) {
        return None;
    }
    let next = subtree_end(b, places, levels, r)?;
    siblings_end(
        b,
        places,
        levels,
        n - 1,
        next,
        f.after,
        high,
        left - f.yards,
    )
}

// Test 7: whether the descent from the root takes all regions, over at most 8 levels, and the root holds all yards.
pub fn keeps_shape(b: &[u8], places: &[usize]) -> bool
    requires { Laid b.now places.now }
    ensures { result ≡ shaped (decode b.now) }
{
    let root = Region { number: 0 };
    let Some(next) = subtree_end(b, places, 8, root) else {
        return false;
    };
    if next.number as usize != places.len() {
        return false;
    }
    let f = regions::fields(b, places, root);
    let h = records::header(b);
    f.yards == h.yards
}
