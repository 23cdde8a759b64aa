// A landmark of a region's record: its junction, and a leaf's list or an inner region's least and greatest.
ghost use Rattle.std.specs.Prelude.{◌≡◌, List, ℕ, ◌+◌, ◌-◌, ◌≤◌, ◌<◌, length};
ghost use Rattle.book.specs.Writing.{write};
ghost use Rattle.book.specs.Open.{version};
ghost use Rattle.road.specs.code.Rows.{distances_from};
ghost use Rattle.tree_layout.specs.Sizes.{leaf_mark_size, inner_mark_size};
ghost use Rattle.tree_layout.specs.Decode.{mark_size};
ghost use Rattle.build_records.specs.Given.{given};
ghost use Rattle.build_records.specs.code.Marks.{leaf_bytes, inner_bytes, mark_bytes};
ghost use Rattle.build_records.specs.code.Parts.{YardsUpTo};

use crate::Part;
use book::Junction;
use tree_layout::Listed;

// Writes landmark l of a leaf over a range: its junction and its list.
fn put_leaf_mark(row: &[u32], yb: &[u8], p: Part, l: Junction, tree: &mut [u8], at: usize)
    requires { YardsUpTo yb.now p.from p.end × (length row.now ≡ 1024)
        × (at + leaf_mark_size (version yb.now) (p.end - p.from) ≤ length tree.old) }
    ensures { (road : List ℕ) → row.now ≡ distances_from road l.number
        → (m limit : ℕ) → tree.new ≡ write tree.old at
        (leaf_bytes (given road yb.now m limit) yb.now p.from p.end l.number) }
{
    let yard = Junction { number: 0 };
    let mut area = [Listed {
        distance: 0,
        yard,
        kinds: 0,
    }; 256];
    let list = crate::lists::rank(row, yb, p.from, p.end, &mut area);
    tree_encode::put_leaf_mark_junction(tree, at, l);
    let start = at + tree_layout::records::JUNCTION_SIZE;
    crate::lists::put_list(tree, book::version(yb), start, list);
}

// Writes landmark l of an inner region over a range: its junction, the least and the greatest distance.
fn put_inner_mark(row: &[u32], yb: &[u8], p: Part, l: Junction, tree: &mut [u8], at: usize)
    requires { YardsUpTo yb.now p.from p.end × (p.from < p.end) × (length row.now ≡ 1024)
        × (at + inner_mark_size ≤ length tree.old) }
    ensures { (road : List ℕ) → row.now ≡ distances_from road l.number
        → (m limit : ℕ) → tree.new ≡ write tree.old at
        (inner_bytes (given road yb.now m limit) yb.now p.from p.end l.number) }
{
    let span = crate::spans::measure(row, yb, p.from, p.end);
    tree_encode::put_span(tree, at, l, span);
}

// Writes landmark l of a region with so many children over a range, from the row of its distances.
pub fn put_mark(
    row: &[u32],
    yb: &[u8],
    p: Part,
    children: u8,
    l: Junction,
    tree: &mut [u8],
    at: usize,
)
    requires { YardsUpTo yb.now p.from p.end × (0 < children → p.from < p.end) × (length row.now ≡ 1024)
        × (at + mark_size (version yb.now) children (p.end - p.from) ≤ length tree.old) }
    ensures { (road : List ℕ) → row.now ≡ distances_from road l.number
        → (m limit : ℕ) → tree.new ≡ write tree.old at
        (mark_bytes (given road yb.now m limit) yb.now p.from p.end children
        l.number) }
{
    if children == 0 {
        put_leaf_mark(row, yb, p, l, tree, at);
    } else {
        put_inner_mark(row, yb, p, l, tree, at);
    }
}
