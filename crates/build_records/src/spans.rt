// An inner region's least and greatest, from the distances of its landmark and the yards of a yard book.
ghost use Rattle.std.specs.Prelude.{◌≡◌, ◌-◌, ◌<◌, length};
ghost use Rattle.yard.specs.Yards.{yards_from};
ghost use Rattle.check_rules.specs.Truth.{least, greatest};
ghost use Rattle.build_records.specs.code.Lists.{distance_in};
ghost use Rattle.build_records.specs.code.Parts.{YardsUpTo};

use tree_layout::Span;

// The least and the greatest distance to the yards of number `from` up to `to`.
pub fn measure(row: &[u32], yb: &[u8], from: usize, to: usize) -> Span
    requires { YardsUpTo yb.now from to × (from < to) × (length row.now ≡ 1024) }
    ensures { (result.least ≡ least (distance_in row.now) (yards_from yb.now (to - from) from))
        × (result.greatest ≡ greatest (distance_in row.now) (yards_from yb.now (to - from) from)) }
{
    let first = yard::yard_at(yb, from).number as usize;
    let mut low = row[first];
    let mut high = low;
    for k in from + 1..to {
        let y = yard::yard_at(yb, k).number as usize;
        let d = row[y];
        low = low.min(d);
        high = high.max(d);
    }
    Span {
        least: low,
        greatest: high,
    }
}
