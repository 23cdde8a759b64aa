#![tactic(auto)]
// Build: the tree that is cut from a road book and a yard book, written into a lent area.
ghost use Rattle.std.specs.Prelude.{◌≡◌, List, ℕ, length};
ghost use Rattle.book.specs.Writing.{write};
ghost use Rattle.book.specs.Refusals.{answer_number};
ghost use Rattle.work_area.specs.Work.{work_words, work_after};
ghost use Rattle.adjacency.specs.Adjacency.{adjacency_words, Adjacency};
ghost use Rattle.road.specs.Refusal.{road_refusal};
ghost use Rattle.tree_encode.specs.Encode.{encode, tree_room};
ghost use Rattle.build_tree.specs.Build.{range_refusal, build_answer, built_tree, built_length, answer_length, tree_after};
ghost use Rattle.build_tree.specs.Facts.{AcceptedBy};

use book::Junction;
use book::refusal::Refusal;
use build_cuts::Plan;
use tree_layout::Header;
use tree_layout::records::FIRST_RECORD;

// The bytes of the longest built tree of version 1, and of version 2.
pub const TREE_BYTES: usize = 21981;

pub const TREE_BYTES_2: usize = 23516;

// The most landmarks that a region has, and the most yards that a leaf may be limited to.
const MOST_LANDMARKS: u32 = 4;

const MOST_YARDS: u32 = 256;

// Five cuts bring 1,024 junctions to one.
const CUTS: usize = 5;

// The bytes of a book's count of the bytes after it.
const COUNT_SIZE: usize = 4;

// Test 11: m and the leaf limit.
fn range_refusal(m: u32, limit: u32) -> Result<(), Refusal>
    ensures { answer_number result ≡ range_refusal m limit }
{
    if m < 1 {
        return Err(Refusal::Number);
    }
    if MOST_LANDMARKS < m {
        return Err(Refusal::Number);
    }
    if limit < 1 {
        return Err(Refusal::Number);
    }
    if MOST_YARDS < limit {
        return Err(Refusal::Number);
    }
    Ok(())
}

// The bytes that the area of a built tree of a version must have.
fn tree_room(version: u8) -> usize
    ensures { result ≡ tree_room version }
{
    if version == 1 {
        return TREE_BYTES;
    }
    TREE_BYTES_2
}

// The first test that turns a build back, with so many work words and so much room for the tree, if one does; the road
// book's adjacency is kept.
fn refusal(
    road: &[u8],
    yard: &[u8],
    m: u32,
    limit: u32,
    words: usize,
    room: usize,
    adj: &mut [u16],
) -> Result<(), Refusal>
    requires { length adj.old ≡ adjacency_words }
    ensures answer { answer_number result ≡ build_answer road.now yard.now m limit words room }
    ensures adjacency { road_refusal road.now ≡ 0
        → Adjacency road.now adj.new }
{
    let counts = road::read(road, adj)?;
    yard::read_in(yard, counts.junctions)?;
    range_refusal(m, limit)?;
    if words < work_area::WORDS {
        return Err(Refusal::Area);
    }
    if room < tree_room(book::version(yard)) {
        return Err(Refusal::Area);
    }
    Ok(())
}

// Writes the tree of an accepted call, the regions first and then the header, and returns its length.
fn put_tree(adj: &[u16], yard: &[u8], plan: Plan, tree: &mut [u8]) -> usize
    requires { AcceptedBy adj.now yard.now plan.landmarks plan.limit work_words (length tree.old) }
    ensures answer { (road : List ℕ) → Adjacency road adj.now
        → result ≡ length (encode (built_tree road yard.now plan.landmarks plan.limit)) }
    ensures tree { (road : List ℕ) → Adjacency road adj.now
        → tree.new ≡ write tree.old 0
        (encode (built_tree road yard.now plan.landmarks plan.limit)) }
{
    let n = adjacency::junctions(adj);
    let all = build_cuts::ranges::range(yard, Junction { number: 0 }, n as usize);
    let put = build_cuts::cut(CUTS, all, plan, adj, yard, tree, FIRST_RECORD);
    let end = put.at;
    let v = book::version(yard);
    let header = Header {
        version: v,
        junctions: n,
        regions: put.regions as u16,
        yards: yard::count(yard),
        landmarks: plan.landmarks as u8,
    };
    tree_encode::put_book_header(tree, (end - COUNT_SIZE) as u32, header);
    end
}

// Builds a tree into a lent area. An accepted call returns its length and zeroes the first 16,384 work words;
// one that is turned back changes nothing.
pub fn build(
    road: &[u8],
    yard: &[u8],
    m: u32,
    limit: u32,
    work: &mut [u32],
    tree: &mut [u8],
) -> Result<u32, Refusal>
    ensures refusal { answer_number result ≡ build_answer road.now yard.now m limit
        (length work.old) (length tree.old) }
    ensures length { answer_length result ≡ built_length road.now yard.now m limit
        (length work.old) (length tree.old) }
    ensures work { work.new ≡ work_after (build_answer road.now yard.now m limit
        (length work.old) (length tree.old)) work.old }
    ensures tree { tree.new ≡ tree_after road.now yard.now m limit
        (length work.old) tree.old }
{
    let mut adj = [0u16; adjacency::WORDS];
    refusal(road, yard, m, limit, work.len(), tree.len(), &mut adj)?;
    let plan = Plan {
        landmarks: m as usize,
        limit: limit as usize,
    };
    let end = put_tree(&adj, yard, plan, tree);
    work_area::zero_words(work);
    Ok(end as u32)
}
