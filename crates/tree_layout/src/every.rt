// Whether a test holds of each of a tree book's parts: the elements of a list, the landmarks of a record,
// the records of a tree book.
ghost use Rattle.std.specs.Prelude.{◌≡◌, Bool, true, ℕ, ◌+◌, ◌≤◌, ◌<◌, length};
ghost use Rattle.tree_layout.specs.Values.{Element, Mark, Region};
ghost use Rattle.tree_layout.specs.Sizes.{header_size, list_size};
ghost use Rattle.tree_layout.specs.Decode.{read_list, read_region, read_regions, size_at, place_from};
ghost use Rattle.tree_layout.specs.Decode.{region_count, place_of, decode};
ghost use Rattle.tree_layout.specs.Refusal.{all, records_ok, tree_layout_refusal};
ghost use Rattle.tree_layout.specs.code.Marks.{mark_place};
ghost use Rattle.tree_layout.specs.code.Every.{TestsElement, TestsMark, TestsRecord, TestsRegion};

use crate::{Listed, landmarks, records};

// Whether a test holds of each of n elements of a list.
pub fn every_element<F: Fn(Listed) -> bool>(p: &[u8], v: u8, n: usize, test: F) -> bool
    requires { (n ≤ 65535) × (list_size v n ≤ length p.now) × F.IsAlwaysCallable test }
    ensures { (ok : Element → Bool) → TestsElement (F.post test) ok
        → result ≡ all ok (read_list v p.now n 0) }
{
    for k in 0..n {
        if !test(records::element(p, v, k)) {
            return false;
        }
    }
    true
}

// Whether a test holds of each of the m landmarks of the record at a place. It is given the landmark's place.
pub fn every_mark<F: Fn(usize) -> bool>(b: &[u8], at: usize, m: usize, test: F) -> bool
    requires { (header_size ≤ length b.now) × (at + size_at b.now m at ≤ length b.now)
        × ((j : ℕ) → j < m → F.pre test (mark_place b.now at j)) }
    ensures { (ok : Mark → Bool) → TestsMark b.now at m (F.post test) ok
        → result ≡ all ok (read_region b.now m at).marks }
{
    let start = records::marks_at(book::version(b), at);
    let size = landmarks::mark_size(b, at);
    for j in 0..m {
        if !test(start + j * size) {
            return false;
        }
    }
    true
}

// Whether a test holds of each of n records of m landmarks, which take up the book to its end. It is given the record's
// place.
pub fn every_record<F: Fn(usize) -> bool>(b: &[u8], m: usize, n: usize, test: F) -> bool
    requires { (m ≤ 4) × (header_size ≤ length b.now) × (records_ok b.now m n header_size ≡ true)
        × ((k : ℕ) → k < n → F.pre test (place_from b.now m k header_size)) }
    ensures { (ok : Region → Bool) → TestsRecord b.now m n (F.post test) ok
        → result ≡ all ok (read_regions b.now m n header_size) }
{
    let mut at = records::FIRST_RECORD;
    for _ in 0..n {
        if !test(at) {
            return false;
        }
        at += crate::size_at(b, m, at);
    }
    true
}

// Whether a test holds of each region of a tree book of sound layout. It is given the place of the region's record.
pub fn every_region<F: Fn(usize) -> bool>(b: &[u8], test: F) -> bool
    requires { (tree_layout_refusal b.now ≡ 0) × ((k : ℕ) → k < region_count b.now → F.pre test (place_of b.now k)) }
    ensures { (ok : Region → Bool) → TestsRegion b.now (F.post test) ok
        → result ≡ all ok (decode b.now).regions }
{
    let h = records::header(b);
    every_record(b, h.landmarks as usize, h.regions as usize, test)
}
