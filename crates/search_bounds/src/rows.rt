// LB and UB by the landmark table's rows, and a crew's bound.
ghost use Rattle.std.specs.Prelude.{◌≡◌, ◌+◌, ◌-◌, ◌<◌, length};
ghost use Rattle.road.specs.code.Rows.{cell};
ghost use Rattle.search_rules.specs.Bounds.{abs_diff, crew_bound};
ghost use Rattle.search_bounds.specs.code.Rows.{rows_lower, rows_upper, Rows};

use book::Junction;
use road::rows::cell;

// The difference of row r's words for junctions l and q.
fn row_abs_diff(table: &[u32], r: usize, l: Junction, q: Junction) -> u32
    requires { (length table.now ≡ 4096) × (r < 4) × (l.number < 1024) × (q.number < 1024) }
    ensures { result
        ≡ abs_diff (cell table.now r l.number) (cell table.now r q.number) }
{
    cell(table, r, l).abs_diff(cell(table, r, q))
}

// The sum of row r's words for junctions l and q.
fn row_sum(table: &[u32], r: usize, l: Junction, q: Junction) -> u64
    requires { (length table.now ≡ 4096) × (r < 4) × (l.number < 1024) × (q.number < 1024) }
    ensures { result ≡ cell table.now r l.number + cell table.now r q.number }
{
    u64::from(cell(table, r, l)) + u64::from(cell(table, r, q))
}

// "LB(l, q) is the greatest difference .. of sheet values at l and q."
pub fn lower(table: &[u32], rows: usize, l: Junction, q: Junction) -> u32
    requires { Rows table.now rows × (l.number < 1024) × (q.number < 1024) }
    ensures { result ≡ rows_lower table.now rows l.number q.number }
{
    let mut x: u32 = 0;
    for r in 0..rows {
        x = x.max(row_abs_diff(table, r, l, q));
    }
    x
}

// "UB(l, q) the least sum, of sheet values at l and q": of at least one row.
pub fn upper(table: &[u32], rows: usize, l: Junction, q: Junction) -> u64
    requires { Rows table.now rows × (l.number < 1024) × (q.number < 1024) }
    ensures { result ≡ rows_upper table.now rows l.number q.number }
{
    let mut x = row_sum(table, 0, l, q);
    for r in 1..rows {
        x = x.min(row_sum(table, r, l, q));
    }
    x
}

// How far a is beyond ub: 0 where it isn't.
fn beyond(a: u32, ub: u64) -> u32
    ensures { result ≡ a - ub }
{
    u64::from(a).saturating_sub(ub) as u32
}

// "the crew's bound is LB − B if LB ≥ B, A − UB if UB ≤ A, else 0."
pub fn crew_bound(lb: u32, ub: u64, a: u32, b: u32) -> u32
    ensures { result ≡ crew_bound lb ub a b }
{
    if b <= lb {
        return lb - b;
    }
    beyond(a, ub)
}
