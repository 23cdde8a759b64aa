// A region's fields, reached by the place of its record, and its level.
ghost use Rattle.std.specs.Prelude.{◌≡◌, ℕ, ◌<◌, length, get_or, ltb};
ghost use Rattle.book.specs.Choose.{choose};
ghost use Rattle.tree.specs.Yards.{level_by};
ghost use Rattle.tree.specs.Arrays.{Laid, fields_of};

use tree_layout::{Fields, Region, records};

// The fields of region r.
pub fn fields(b: &[u8], places: &[usize], r: Region) -> Fields
    requires { Laid b.now places.now × (r.number < length places.now) }
    ensures { result ≡ fields_of b.now r.number }
{
    let at = places[r.number as usize];
    records::fields(b, at)
}

// The level of region r, the root's being 1, by the ends of subtrees: how many regions up to r have it in theirs.
pub fn level(ends: &[usize], r: Region) -> usize
    requires { r.number < length ends.now }
    ensures { result ≡ level_by (λ j. get_or ends.now j 0) r.number }
{
    let i = r.number as usize;
    ends[..=i].iter().filter(|end| i < **end).count()
}
