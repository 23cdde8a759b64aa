// The landmark that a leaf picks.
ghost use Rattle.std.specs.Prelude.{◌≡◌, ◌<◌, length};
ghost use Rattle.tree_layout.specs.Values.{region_at};
ghost use Rattle.tree_layout.specs.Decode.{decode, landmark_count};
ghost use Rattle.tree.specs.Arrays.{Laid};
ghost use Rattle.search_bounds.specs.code.Rows.{Rows};
ghost use Rattle.tree_layout.specs.code.Marks.{marks_at, RecordAt};
ghost use Rattle.search_bounds.specs.code.Bounds.{rows_weight, mark_weight, rows_chosen, Crews};

use crate::rows;
use book::Junction;
use tree_layout::{Region, landmarks, records};

// The "sum of LB over crews" of a landmark at junction l.
fn weight(table: &[u32], rows: usize, crews: &[u16], l: Junction) -> u64
    requires { Rows table.now rows × Crews crews.now × (l.number < 1024) }
    ensures { result ≡ rows_weight table.now rows crews.now l.number }
{
    let mut x: u64 = 0;
    for q in crews {
        let q = Junction { number: *q };
        x += u64::from(rows::lower(table, rows, l, q));
    }
    x
}

// The same of landmark j of the record at a place.
fn mark_weight(tree: &[u8], at: usize, j: usize, table: &[u32], rows: usize, crews: &[u16]) -> u64
    requires { RecordAt tree.now at × (j < landmark_count tree.now) × Rows table.now rows × Crews crews.now }
    ensures { result
        ≡ mark_weight table.now rows crews.now (marks_at tree.now at) j }
{
    let k = landmarks::landmark(tree, at, j);
    weight(table, rows, crews, k.place)
}

// The number of the landmark that is picked, of the record at a place: "ties to the first".
fn pick_at(tree: &[u8], at: usize, table: &[u32], rows: usize, crews: &[u16]) -> usize
    requires { RecordAt tree.now at × Rows table.now rows × Crews crews.now }
    ensures { result ≡ rows_chosen table.now rows crews.now (marks_at tree.now at) }
{
    let h = records::header(tree);
    let mut best = mark_weight(tree, at, 0, table, rows, crews);
    let mut p: usize = 0;
    for j in 1..h.landmarks as usize {
        let w = mark_weight(tree, at, j, table, rows, crews);
        if best < w {
            best = w;
            p = j;
        }
    }
    p
}

// The number of the landmark that region r picks: "its landmark with greatest sum of LB over crews, ties to the first".
pub fn choose_mark(
    tree: &[u8],
    places: &[usize],
    table: &[u32],
    rows: usize,
    crews: &[u16],
    r: Region,
) -> usize
    requires { Laid tree.now places.now × (r.number < length places.now) × Rows table.now rows
        × Crews crews.now }
    ensures { result ≡ rows_chosen table.now rows crews.now
        (region_at (decode tree.now).regions r.number).marks }
{
    let at = places[r.number as usize];
    pick_at(tree, at, table, rows, crews)
}
