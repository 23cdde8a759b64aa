// Where a tree book's fields stand. No other crate knows.
ghost use Rattle.std.specs.Prelude.{◌≡◌, ◌+◌, ◌≤◌, length};
ghost use Rattle.book.specs.Bytes.{u16_at};
ghost use Rattle.book.specs.Open.{version};
ghost use Rattle.tree_layout.specs.Sizes.{header_size, fields_size, junction_size, element_size, list_size};
ghost use Rattle.tree_layout.specs.Sizes.{leaf_mark_size};
ghost use Rattle.tree_layout.specs.Decode.{list_part};
ghost use Rattle.tree_layout.specs.code.Accessors.{fields_at, listed_at};
ghost use Rattle.tree_layout.specs.Reading.{header_of};

use crate::{Fields, Header, Listed};
use book::Junction;

// Where the first region's record stands, after the header.
pub const FIRST_RECORD: usize = 12;

// The bytes of a landmark's junction. A leaf's list stands after it.
pub const JUNCTION_SIZE: usize = 2;

// The bytes of a landmark of an inner region.
pub const INNER_MARK: usize = 10;

// The bytes of a region's fields, by the book's version.
pub fn fields_size(v: u8) -> usize
    ensures { result ≡ fields_size v }
{
    7 + kinds::size(v)
}

// The bytes of n elements of a list.
pub fn list_size(v: u8, n: usize) -> usize
    requires { n ≤ 65535 }
    ensures { result ≡ list_size v n }
{
    n * (6 + kinds::size(v))
}

// The bytes of a landmark of a leaf with so many yards.
pub fn leaf_mark(v: u8, yards: usize) -> usize
    requires { yards ≤ 65535 }
    ensures { result ≡ leaf_mark_size v yards }
{
    JUNCTION_SIZE + list_size(v, yards)
}

// Where the landmarks of the record at a place stand.
pub fn marks_at(v: u8, at: usize) -> usize
    requires { at + fields_size v ≤ 18446744073709551615 }
    ensures { result ≡ at + fields_size v }
{
    at + fields_size(v)
}

// The header's counts.
pub fn header(b: &[u8]) -> Header
    requires { header_size ≤ length b.now }
    ensures { result ≡ header_of b.now }
{
    Header {
        version: book::version(b),
        junctions: book::u16_at(b, 5),
        regions: book::u16_at(b, 7),
        yards: book::u16_at(b, 9),
        landmarks: book::u8_at(b, 11),
    }
}

// The fields of the region whose record is at a place.
pub fn fields(b: &[u8], at: usize) -> Fields
    requires { (header_size ≤ length b.now) × (at + fields_size (version b.now) ≤ length b.now) }
    ensures { result ≡ fields_at b.now at }
{
    Fields {
        at,
        first: junction(b, at),
        after: book::u16_at(b, at + 2),
        children: book::u8_at(b, at + 4),
        yards: book::u16_at(b, at + 5),
        kinds: kinds::at(book::version(b), b, at + 7),
    }
}

// The junction of the landmark at a place.
pub fn junction(b: &[u8], at: usize) -> Junction
    requires { at + junction_size ≤ length b.now }
    ensures { result.number ≡ u16_at b.now at }
{
    Junction {
        number: book::u16_at(b, at),
    }
}

// The list of a leaf's landmark at a place: the part of the book that starts where its record puts it.
pub fn list(b: &[u8], at: usize, yards: usize) -> &[u8]
    requires { (header_size ≤ length b.now) × (yards ≤ 65535)
        × (at + leaf_mark_size (version b.now) yards ≤ length b.now) }
    ensures { result.now ≡ list_part (version b.now) b.now yards (at + junction_size) }
{
    let start = at + JUNCTION_SIZE;
    let end = start + list_size(book::version(b), yards);
    &b[start..end]
}

// Element number k of a list of a version v book.
pub fn element(p: &[u8], v: u8, k: usize) -> Listed
    requires { (k ≤ 65535) × (list_size v k + element_size v ≤ length p.now) }
    ensures { result ≡ listed_at v p.now k }
{
    let at = list_size(v, k);
    let distance = book::u32_at(p, at);
    let yard = Junction {
        number: book::u16_at(p, at + 4),
    };
    let kinds = kinds::at(v, p, at + 6);
    Listed {
        distance,
        yard,
        kinds,
    }
}
