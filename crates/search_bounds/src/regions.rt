// A region's bound.
ghost use Rattle.std.specs.Prelude.{◌≡◌, ◌<◌, length};
ghost use Rattle.tree_layout.specs.Values.{region_at};
ghost use Rattle.tree_layout.specs.Decode.{decode};
ghost use Rattle.tree.specs.Arrays.{Laid};
ghost use Rattle.search_rules.specs.Bounds.{crew_bound};
ghost use Rattle.search_bounds.specs.code.Rows.{rows_lower, rows_upper, Rows};
ghost use Rattle.tree_layout.specs.code.Marks.{marks_at, RecordAt};
ghost use Rattle.search_bounds.specs.code.Bounds.{rows_crew, rows_bound, Crews};

use crate::{numbers, rows};
use book::Junction;
use tree_layout::{Landmark, Region, landmarks, records};

// "the crew's bound": of crew q for a landmark.
fn mark_bound(table: &[u32], rows: usize, k: Landmark, q: Junction) -> u32
    requires { Rows table.now rows × (k.place.number < 1024) × (q.number < 1024) }
    ensures { result ≡ crew_bound (rows_lower table.now rows k.place.number q.number)
        (rows_upper table.now rows k.place.number q.number) k.least k.greatest }
{
    let lb = rows::lower(table, rows, k.place, q);
    let ub = rows::upper(table, rows, k.place, q);
    rows::crew_bound(lb, ub, k.least, k.greatest)
}

// "The greatest over the region's landmarks is taken": for crew q, of the record at a place.
fn crew_region(tree: &[u8], at: usize, table: &[u32], rows: usize, q: Junction) -> u32
    requires { RecordAt tree.now at × Rows table.now rows × (q.number < 1024) }
    ensures { result ≡ rows_crew table.now rows (marks_at tree.now at) q.number }
{
    let h = records::header(tree);
    let mut x: u32 = 0;
    for j in 0..h.landmarks as usize {
        let k = landmarks::landmark(tree, at, j);
        x = x.max(mark_bound(table, rows, k, q));
    }
    x
}

// "then the aggregate over crews": of the record at a place.
fn record_bound(tree: &[u8], at: usize, table: &[u32], rows: usize, code: u8, crews: &[u16]) -> u64
    requires { RecordAt tree.now at × Rows table.now rows × Crews crews.now }
    ensures { result ≡ rows_bound table.now rows code crews.now (marks_at tree.now at) }
{
    let mut x: u64 = 0;
    for q in crews {
        let q = Junction { number: *q };
        let w = u64::from(crew_region(tree, at, table, rows, q));
        x = numbers::combine64(code, x, w);
    }
    x
}

// Region r's bound.
pub fn region_bound(
    tree: &[u8],
    places: &[usize],
    table: &[u32],
    rows: usize,
    code: u8,
    crews: &[u16],
    r: Region,
) -> u64
    requires { Laid tree.now places.now × (r.number < length places.now) × Rows table.now rows
        × Crews crews.now }
    ensures { result ≡ rows_bound table.now rows code crews.now
        (region_at (decode tree.now).regions r.number).marks }
{
    let at = places[r.number as usize];
    record_bound(tree, at, table, rows, code, crews)
}
