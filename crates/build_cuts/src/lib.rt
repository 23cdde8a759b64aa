#![tactic(auto)]
// Cutting a range into regions, each record written where the one before it ends: the cuts that are left fall.
pub mod ranges; // ranges.rt: a range's yards, and the parts that it is cut into

ghost use Rattle.std.specs.Prelude.{◌≡◌, List, ◌||◌, ℕ, ◌+◌, ◌≤◌, ◌<◌, length, eqb, leb};
ghost use Rattle.book.specs.Open.{version};
ghost use Rattle.adjacency.specs.Adjacency.{Adjacency};
ghost use Rattle.build_records.specs.code.Parts.{RecordReady, size_in};
ghost use Rattle.build_cuts.specs.code.Writing.{own_in, WrittenRegions};
ghost use Rattle.build_cuts.specs.code.Cutting.{Range, Room, regions_of};

use build_records::{Part, Record};

// What building is asked for: how many landmarks a region has, and how many yards a leaf has at most.
#[derive(Clone, Copy)]
pub struct Plan {
    pub landmarks: usize,
    pub limit: usize,
}

// The place after what was written, and how many regions were.
#[derive(Clone, Copy)]
pub struct Put {
    pub at: usize,
    pub regions: usize,
}

// Whether a range with so many yards is not cut: no cut is left, or it has no more yards than the limit.
fn stays(levels: usize, count: usize, limit: usize) -> bool
    ensures { result ≡ (eqb levels 0 || leb count limit) }
{
    levels == 0 || count <= limit
}

// Writes the record of a region itself: with one child it has none.
fn put_own(adj: &[u16], yb: &[u8], r: Record, tree: &mut [u8], at: usize) -> Put
    requires { RecordReady adj.now yb.now r
        × ((r.children ≡ 1 → ⊥) → at + size_in yb.now r ≤ length tree.old) }
    ensures { (road : List ℕ) (limit : ℕ) → Adjacency road adj.now
        → WrittenRegions (version yb.now) tree.old at (own_in road yb.now limit r)
        tree.new result.at result.regions }
{
    if r.children == 1 {
        return Put { at: at, regions: 0 };
    }
    let end = build_records::put_record(adj, yb, r, tree, at);
    Put {
        at: end,
        regions: 1,
    }
}

// Writes the regions of a range, in preorder, with so many cuts left. Each part that has yards is cut with one less.
pub fn cut(
    levels: usize,
    p: Part,
    plan: Plan,
    adj: &[u16],
    yb: &[u8],
    tree: &mut [u8],
    at: usize,
) -> Put
    requires { Range adj.now yb.now p × (0 < p.size) × (plan.landmarks ≤ 4)
        × Room (version yb.now) adj.now (regions_of yb.now plan levels p) at (length tree.old) }
    ensures { (road : List ℕ) → Adjacency road adj.now
        → WrittenRegions (version yb.now) tree.old at
        (regions_of yb.now plan levels p road) tree.new result.at result.regions }
{
    let leaf = Record {
        part: p,
        landmarks: plan.landmarks,
        children: 0,
    };
    if stays(levels, p.end - p.from, plan.limit) {
        return put_own(adj, yb, leaf, tree, at);
    }
    let children = ranges::part_count(yb, p.start, p.size);
    let mut put = put_own(adj, yb, Record { children, ..leaf }, tree, at);
    for i in 0..ranges::PARTS {
        let q = ranges::part(yb, p, i);
        if q.from != q.end {
            let more = cut(levels - 1, q, plan, adj, yb, tree, put.at);
            put = Put {
                at: more.at,
                regions: put.regions + more.regions,
            };
        }
    }
    put
}
