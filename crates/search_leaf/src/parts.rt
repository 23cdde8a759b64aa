// Where a search's words stand, and the values of its yards.
ghost use Rattle.std.specs.Prelude.{◌≡◌, ◌+◌};
ghost use Rattle.search_state.specs.code.State.{yard_keys_at, firsts_at, picks_at, gone_at, bounds_at};

use book::Junction;
use tree_layout::{Header, Region};

// Yard y's key.
pub fn key_at(h: Header, y: Junction) -> usize
    ensures { result ≡ yard_keys_at h.regions h.junctions + y.number }
{
    h.regions as usize + y.number as usize
}

// Region r's first key.
pub fn first_at(h: Header, r: Region) -> usize
    ensures { result ≡ firsts_at h.regions h.junctions + r.number }
{
    h.regions as usize + h.junctions as usize + r.number as usize
}

// The landmark that leaf r picked.
pub fn pick_at(h: Header, r: Region) -> usize
    ensures { result ≡ picks_at h.regions h.junctions + r.number }
{
    2 * (h.regions as usize) + h.junctions as usize + r.number as usize
}

// Whether yard y has left.
pub fn gone_at(h: Header, y: Junction) -> usize
    ensures { result ≡ gone_at h.regions h.junctions + y.number }
{
    3 * (h.regions as usize) + h.junctions as usize + y.number as usize
}

// Yard y's f, among the values.
pub fn f_at(y: Junction) -> usize
    ensures { result ≡ y.number }
{
    y.number as usize
}

// Yard y's bound, among the values.
pub fn bound_at(y: Junction) -> usize
    ensures { result ≡ bounds_at + y.number }
{
    1024 + y.number as usize
}
