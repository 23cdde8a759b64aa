// What is computed of a yard by its leaf's landmark: f, and its bound.
ghost use Rattle.std.specs.Prelude.{◌≡◌, ℕ, ◌≤◌, ◌<◌, length};
ghost use mathlib.Core.List.{List, Memᴰ as Mem};
ghost use Rattle.road_layout.specs.Road.{junctions};
ghost use Rattle.search_bounds.specs.code.Rows.{Rows, rows_lower};
ghost use Rattle.search_bounds.specs.code.Bounds.{Crews};
ghost use Rattle.search_bounds.specs.code.Measures.{longest, Short, Driven, IsDriven, to_crews};
ghost use Rattle.search_bounds.specs.code.Measures.{f_by, crew_abs_diff, yard_bound_by};

use crate::{numbers, rows};
use book::Junction;

// "f, the aggregate of |d(l, q) − d(l, p)|": of landmark l's distances to the crews and of an element's distance.
pub fn f_of(out: &[u32], code: u8, distance: u32) -> u32
    requires { (length out.now ≤ 16) × Short out.now × (distance ≤ longest) }
    ensures { result ≡ f_by code out.now distance }
{
    let mut total: u32 = 0;
    for d in out {
        total = numbers::combine(code, total, d.abs_diff(distance));
    }
    total
}

// Landmark l's distances to the crews, from the crews' rows: "A road runs both ways".
pub fn to_crews(drives: &[u32], crews: &[u16], l: Junction, out: &mut [u32])
    requires { IsDriven crews.now drives.now l.number × (length out.old ≡ length crews.now) }
    ensures { (road : List ℕ) → Driven road crews.now drives.now
        → l.number < junctions road
        → out.new ≡ to_crews road l.number crews.now }
{
    for (j, d) in out.iter_mut().enumerate() {
        *d = road::rows::cell(drives, j, l);
    }
}

// Crew number j's greatest difference: of the landmark table's rows for the yard and the crew, and of landmark l's
// distances.
fn crew_abs_diff(
    table: &[u32],
    rows: usize,
    crews: &[u16],
    out: &[u32],
    yard: Junction,
    distance: u32,
    j: usize,
) -> u32
    requires { Rows table.now rows × Crews crews.now × (length out.now ≡ length crews.now)
        × (yard.number < 1024) × (j < length crews.now) }
    ensures { result ≡ crew_abs_diff table.now rows crews.now out.now yard.number
        distance j }
{
    let q = Junction { number: crews[j] };
    let lb = rows::lower(table, rows, yard, q);
    lb.max(out[j].abs_diff(distance))
}

// "A yard's bound takes per crew the greatest of these differences over the landmark table's landmarks and l .., then
// aggregates."
pub fn yard_bound(
    table: &[u32],
    rows: usize,
    crews: &[u16],
    out: &[u32],
    code: u8,
    yard: Junction,
    distance: u32,
) -> u32
    requires { Rows table.now rows × Crews crews.now × (length out.now ≡ length crews.now)
        × (yard.number < 1024) × Short out.now × (distance ≤ longest)
        × ((q : ℕ) → Mem q crews.now → rows_lower table.now rows yard.number q ≤ longest) }
    ensures { result ≡ yard_bound_by code table.now rows crews.now out.now
        yard.number distance (length crews.now) }
{
    let mut total: u32 = 0;
    for j in 0..crews.len() {
        let x = crew_abs_diff(table, rows, crews, out, yard, distance, j);
        total = numbers::combine(code, total, x);
    }
    total
}
