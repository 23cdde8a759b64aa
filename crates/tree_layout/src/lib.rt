#![tactic(auto)]
// The tree book's layout: tests 1 to 5 and the header.
pub mod every; // every.rt: a test of each of a tree book's parts
pub mod landmarks; // landmarks.rt: a region's landmarks
pub mod records; // records.rt: where a tree book's fields stand

ghost use Rattle.std.specs.Prelude.{◌≡◌, true, ℕ, ◌+◌, ◌*◌, ◌≤◌, length};
ghost use Rattle.book.specs.Bytes.{u16_at, u32_at};
ghost use Rattle.book.specs.Open.{version};
ghost use Rattle.book.specs.Refusals.{answer_number};
ghost use Rattle.tree_layout.specs.Sizes.{header_size, fields_size, list_size};
ghost use Rattle.tree_layout.specs.Decode.{read_list, mark_size, read_region, read_regions, size_at};
ghost use Rattle.tree_layout.specs.code.Accessors.{fields_ok};
ghost use Rattle.tree_layout.specs.code.Marks.{mark_at};
ghost use Rattle.tree_layout.specs.Refusal.{between, all, records_ok, element_ok, comes, list_ok};
ghost use Rattle.tree_layout.specs.Refusal.{mark_ok, children_ok, region_ok, tree_layout_refusal};
ghost use Rattle.tree_layout.specs.Reading.{element, bounded, header_of, tree_book, layout_answer};

use book::Junction;
use book::refusal::Refusal;

// The latest version of a tree book.
pub const LATEST: u8 = 2;

// A tree region's number: a node of the tree, counted from 0 in preorder. Never a junction's number.
#[derive(Clone, Copy)]
pub struct Region {
    pub number: u16,
}

// A tree book's version, and what its header counts.
#[derive(Clone, Copy)]
pub struct Header {
    pub version: u8,
    pub junctions: u16,
    pub regions: u16,
    pub yards: u16,
    pub landmarks: u8,
}

// A region's fields, and the place of its record in the book. A range may end at the junction count, so that `after` is
// a bound and no junction.
#[derive(Clone, Copy)]
pub struct Fields {
    pub at: usize,
    pub first: Junction,
    pub after: u16,
    pub children: u8,
    pub yards: u16,
    pub kinds: u8,
}

// The least and the greatest distance from a landmark to its region's yards.
#[derive(Clone, Copy)]
pub struct Span {
    pub least: u32,
    pub greatest: u32,
}

// An element of a leaf's list: a yard, its distance from the landmark, and its kinds.
#[derive(Clone, Copy)]
pub struct Listed {
    pub distance: u32,
    pub yard: Junction,
    pub kinds: u8,
}

// A region's landmark: its junction, and the least and the greatest distance from it to the region's yards.
#[derive(Clone, Copy)]
pub struct Landmark {
    pub place: Junction,
    pub least: u32,
    pub greatest: u32,
}

// Whether low ≤ x ≤ high.
#[tactic(auto, unfolding(crate::specs::Refusal::between))]
fn within(low: u16, high: u16, x: u16) -> bool
    ensures { result ≡ between low high x }
{
    (low..=high).contains(&x)
}

// The bytes of the record at a place, by its own fields.
pub fn size_at(b: &[u8], m: usize, at: usize) -> usize
    requires { (m ≤ 4) × (header_size ≤ length b.now) × (at + fields_size (version b.now) ≤ length b.now) }
    ensures { result ≡ size_at b.now m at }
{
    records::fields_size(book::version(b)) + m * landmarks::mark_size(b, at)
}

// Test 4: whether n records of m landmarks each, from byte 12 on, take up the book to its end.
fn records_ok(b: &[u8], m: usize, n: usize) -> bool
    requires { (m ≤ 4) × (header_size ≤ length b.now) }
    ensures { result ≡ records_ok b.now m n header_size }
{
    let len = b.len();
    let fields = records::fields_size(book::version(b));
    let mut at = records::FIRST_RECORD;
    for _ in 0..n {
        if len - at < fields {
            return false;
        }
        let size = size_at(b, m, at);
        if len - at < size {
            return false;
        }
        at += size;
    }
    at == len
}

// Whether element e comes before element g: by distance, and then by yard.
#[tactic(auto, unfolding(crate::specs::Refusal::comes))]
fn comes(e: Listed, g: Listed) -> bool
    ensures { result ≡ comes (element e.distance e.yard.number e.kinds)
        (element g.distance g.yard.number g.kinds) }
{
    (e.distance, e.yard.number) < (g.distance, g.yard.number)
}

// Whether an element's distance is within its limit, and its yard has a kind.
#[tactic(auto, unfolding(crate::specs::Refusal::element_ok))]
fn element_ok(e: Listed) -> bool
    ensures { result ≡ element_ok (element e.distance e.yard.number e.kinds) }
{
    e.distance <= 67042305 && 1 <= e.kinds
}

// Whether the values of n elements are in their ranges, and the elements rise.
fn list_ok(p: &[u8], v: u8, n: usize) -> bool
    requires { (1 ≤ n) × (n ≤ 65535) × (list_size v n ≤ length p.now) }
    ensures { result ≡ list_ok (read_list v p.now n 0) }
{
    let mut last = records::element(p, v, 0);
    if !element_ok(last) {
        return false;
    }
    for k in 1..n {
        let e = records::element(p, v, k);
        if !element_ok(e) || !comes(last, e) {
            return false;
        }
        last = e;
    }
    true
}

// Whether the landmark at a place is good for a region with these fields: it lies in their range, and a leaf's list is
// good, or an inner region's least is not above its greatest.
fn mark_ok(b: &[u8], at: usize, f: Fields) -> bool
    requires { (1 ≤ f.yards) × (header_size ≤ length b.now)
        × (at + mark_size (version b.now) f.children f.yards ≤ length b.now) }
    ensures { result ≡ mark_ok (bounded f.first.number f.after f.children)
        (mark_at b.now f.children f.yards at) }
{
    if !(f.first.number..f.after).contains(&book::u16_at(b, at)) {
        return false;
    }
    if f.children == 0 {
        let yards = f.yards as usize;
        return list_ok(records::list(b, at, yards), book::version(b), yards);
    }
    book::u32_at(b, at + 2) <= book::u32_at(b, at + 6)
}

// Whether a children count is 0 for a leaf, else 2 to 4.
#[tactic(auto, unfolding(crate::specs::Refusal::between, crate::specs::Refusal::children_ok))]
fn children_ok(children: u8) -> bool
    ensures { result ≡ children_ok children }
{
    matches!(children, 0 | 2..=4)
}

// Whether a record's fields are in their ranges.
fn fields_ok(f: Fields, junctions: u16) -> bool
    ensures { result ≡ fields_ok junctions f }
{
    f.first.number < f.after
        && f.after <= junctions
        && children_ok(f.children)
        && 1 <= f.yards
        && 1 <= f.kinds
}

// Whether the values of the record at a place are in their ranges and order.
fn region_ok(b: &[u8], m: usize, at: usize, junctions: u16) -> bool
    requires { (header_size ≤ length b.now) × (at + size_at b.now m at ≤ length b.now) }
    ensures { result ≡ region_ok junctions (read_region b.now m at) }
{
    let f = records::fields(b, at);
    fields_ok(f, junctions) && every::every_mark(b, at, m, |place| mark_ok(b, place, f))
}

// Test 5: whether the values of n records from byte 12 on are in their ranges and order.
fn values_ok(b: &[u8], m: usize, n: usize, junctions: u16) -> bool
    requires { (m ≤ 4) × (header_size ≤ length b.now) × (records_ok b.now m n header_size ≡ true) }
    ensures { result ≡ all (region_ok junctions) (read_regions b.now m n header_size) }
{
    every::every_record(b, m, n, |at| region_ok(b, m, at, junctions))
}

// The first of tests 1 to 5 that turns the book back, if one does; test 4 goes over all the book before test 5.
pub fn layout(b: &[u8]) -> Result<(), Refusal>
    ensures { answer_number result ≡ tree_layout_refusal b.now }
{
    book::open(b, LATEST, 7)?;
    let junctions = book::u16_at(b, 5);
    let regions = book::u16_at(b, 7);
    let landmarks = book::u8_at(b, 11) as u16;
    if !within(1, 1024, junctions) {
        return Err(Refusal::Header);
    }
    if !within(1, 511, regions) {
        return Err(Refusal::Header);
    }
    if !within(1, 256, book::u16_at(b, 9)) {
        return Err(Refusal::Header);
    }
    if !within(1, 4, landmarks) {
        return Err(Refusal::Header);
    }
    let m = landmarks as usize;
    let n = regions as usize;
    if !records_ok(b, m, n) {
        return Err(Refusal::Records);
    }
    if !values_ok(b, m, n, junctions) {
        return Err(Refusal::Value);
    }
    Ok(())
}

// Reads a tree book's layout: its header, if none of tests 1 to 5 turns it back.
pub fn read(b: &[u8]) -> Result<Header, Refusal>
    ensures { layout_answer result ≡ tree_book (tree_layout_refusal b.now) (header_of b.now) }
{
    layout(b)?;
    Ok(records::header(b))
}
