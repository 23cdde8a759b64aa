// Where the yards of a range stand among all yards, and the parts that it is cut into.
ghost use Rattle.std.specs.Prelude.{◌≡◌, ◌+◌, ◌≤◌, ◌<◌};
ghost use Rattle.yard.specs.Yards.{yards_of, yard_refusal};
ghost use Rattle.check_rules.specs.Truth.{within};
ghost use Rattle.build_rules.specs.Cut.{cut_at, part_count};
ghost use Rattle.build_rules.specs.code.Facts.{count_below};
ghost use Rattle.build_cuts.specs.code.Cutting.{Numbered};

use book::Junction;
use build_records::Part;

// A range is cut into so many parts.
pub const PARTS: usize = 4;

// How many yards of a book that is read are below junction x: the number of the first that is not.
fn below(yb: &[u8], x: usize) -> usize
    requires { yard_refusal yb.now ≡ 0 }
    ensures { result ≡ count_below x (yards_of yb.now) }
{
    let count = yard::count(yb) as usize;
    for n in 0..count {
        let y = yard::yard_at(yb, n).number as usize;
        if x <= y {
            return n;
        }
    }
    count
}

// The range from a with s junctions.
pub fn range(yb: &[u8], a: Junction, s: usize) -> Part
    requires { (yard_refusal yb.now ≡ 0) × (a.number + s ≤ 1024) }
    ensures { (result.start.number ≡ a.number) × (result.size ≡ s) × Numbered yb.now result }
{
    let low = a.number as usize;
    let from = below(yb, low);
    let end = below(yb, low + s);
    Part {
        start: a,
        size: s,
        from: from,
        end: end,
    }
}

// Where the range from a with s junctions is cut before part i.
fn cut_at(a: usize, s: usize, i: usize) -> usize
    requires { (a + s ≤ 1024) × (i ≤ 4) }
    ensures { result ≡ cut_at a s i }
{
    a + i * s / PARTS
}

// Part i of a range.
pub fn part(yb: &[u8], p: Part, i: usize) -> Part
    requires { (yard_refusal yb.now ≡ 0) × (p.start.number + p.size ≤ 1024) × (i < 4) }
    ensures { (result.start.number ≡ cut_at p.start.number p.size i)
        × (result.start.number + result.size ≡ cut_at p.start.number p.size (i + 1)) × Numbered yb.now result }
{
    let a = p.start.number as usize;
    let low = cut_at(a, p.size, i);
    let high = cut_at(a, p.size, i + 1);
    let number = low as u16;
    range(yb, Junction { number }, high - low)
}

// How many of the parts of the range from a with s junctions have yards.
pub fn part_count(yb: &[u8], a: Junction, s: usize) -> u8
    requires { (yard_refusal yb.now ≡ 0) × (a.number + s ≤ 1024) }
    ensures { result ≡ part_count a.number s
        (within a.number (a.number + s) (yards_of yb.now)) 4 0 }
{
    let first = a.number as usize;
    let mut count: u8 = 0;
    let mut low = below(yb, first);
    for i in 0..PARTS {
        let high = below(yb, cut_at(first, s, i + 1));
        if low < high {
            count += 1;
        }
        low = high;
    }
    count
}
