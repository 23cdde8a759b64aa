#![tactic(auto)]
// A region's record: its fields, then its landmarks, each with a leaf's list or an inner region's least and greatest.
pub mod borders; // borders.rt: a range's border junctions and landmarks
pub mod lists; // lists.rt: a leaf's list
pub mod marks; // marks.rt: one landmark
pub mod spans; // spans.rt: an inner region's least and greatest

ghost use Rattle.std.specs.Prelude.{◌≡◌, List, ℕ, ◌+◌, ◌-◌, ◌≤◌, length};
ghost use Rattle.book.specs.Writing.{write};
ghost use Rattle.book.specs.Open.{version};
ghost use Rattle.kinds.specs.Kinds.{together};
ghost use Rattle.road_layout.specs.Road.{roads};
ghost use Rattle.adjacency.specs.Adjacency.{Adjacency};
ghost use Rattle.yard.specs.Yards.{yards_from, kind_of};
ghost use Rattle.tree_layout.specs.Decode.{mark_size};
ghost use Rattle.tree_encode.specs.Encode.{encode_region};
ghost use Rattle.build_rules.specs.Cut.{borders};
ghost use Rattle.build_records.specs.code.Parts.{YardsUpTo, RecordReady, size_in, marks_size, region_in, marks_in};

use book::Junction;
use tree_layout::Fields;

// A range: its first junction, how many junctions it has, and the numbers of its yards, `from` up to `end`.
#[derive(Clone, Copy)]
pub struct Part {
    pub start: Junction,
    pub size: usize,
    pub from: usize,
    pub end: usize,
}

// A region to be written: its range, how many landmarks it has, and how many children, 0 in a leaf.
#[derive(Clone, Copy)]
pub struct Record {
    pub part: Part,
    pub landmarks: usize,
    pub children: u8,
}

// The bytes of one landmark of a region with so many children and yards, in a version v book.
fn mark_size(v: u8, children: u8, yards: usize) -> usize
    requires { yards ≤ 65535 }
    ensures { result ≡ mark_size v children yards }
{
    if children == 0 {
        tree_layout::records::leaf_mark(v, yards)
    } else {
        tree_layout::records::INNER_MARK
    }
}

// The kinds of the yards of number `from` up to `end` together.
fn kinds_of(yb: &[u8], from: usize, end: usize) -> u8
    requires { YardsUpTo yb.now from end }
    ensures { result ≡ together (kind_of yb.now) (yards_from yb.now (end - from) from) }
{
    let mut x: u8 = 0;
    for k in from..end {
        x = kinds::join(x, yard::kinds_at(yb, k));
    }
    x
}

// Writes a region's landmarks, from its range's border junctions, and returns the place after them.
fn put_marks(
    adj: &[u16],
    yb: &[u8],
    list: &[u16],
    r: Record,
    tree: &mut [u8],
    start: usize,
) -> usize
    requires { RecordReady adj.now yb.now r
        × ((road : List ℕ) → Adjacency road adj.now → list.now ≡ borders (roads road) r.part.start.number r.part.size)
        × (length list.now ≤ 1024) × (start + marks_size yb.now r ≤ length tree.old) }
    ensures place { result ≡ start + marks_size yb.now r }
    ensures tree { (road : List ℕ) (limit : ℕ) → Adjacency road adj.now
        → tree.new ≡ write tree.old start (marks_in road yb.now limit r) }
{
    let p = r.part;
    let size = mark_size(book::version(yb), r.children, p.end - p.from);
    let mut row = [0u32; 1024];
    let mut last = None;
    for j in 0..r.landmarks {
        let l = borders::landmark_of(list, r.landmarks, p.start, p.size, j);
        road::walk::walk_from(adj, &mut row, last, l);
        marks::put_mark(&row, yb, p, r.children, l, tree, start + j * size);
        last = Some(l);
    }
    start + r.landmarks * size
}

// Writes the record of a region at a place, and returns its end.
pub fn put_record(adj: &[u16], yb: &[u8], r: Record, tree: &mut [u8], at: usize) -> usize
    requires { RecordReady adj.now yb.now r × (at + size_in yb.now r ≤ length tree.old) }
    ensures place { result ≡ at + size_in yb.now r }
    ensures tree { (road : List ℕ) (limit : ℕ) → Adjacency road adj.now
        → tree.new ≡ write tree.old at (encode_region (version yb.now) (region_in road yb.now limit r)) }
{
    let p = r.part;
    let mut area = [0u16; 1024];
    let list = borders::borders_in(adj, p.start, p.size, &mut area);
    let first = p.start;
    let v = book::version(yb);
    tree_encode::put_fields(
        tree,
        v,
        Fields {
            at: at,
            first,
            after: (p.start.number as usize + p.size) as u16,
            children: r.children,
            yards: (p.end - p.from) as u16,
            kinds: kinds_of(yb, p.from, p.end),
        },
    );
    let start = tree_layout::records::marks_at(v, at);
    put_marks(adj, yb, list, r, tree, start)
}
