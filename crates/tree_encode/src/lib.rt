#![tactic(auto)]
// Writers of a tree book's parts. What a whole tree's bytes are, and that they read back, is in specs/ and proofs/.
ghost use Rattle.std.specs.Prelude.{◌≡◌, ◌+◌, ◌≤◌, length};
ghost use Rattle.book.specs.Writing.{u16_bytes, write};
ghost use Rattle.kinds.specs.Kinds.{kind_size};
ghost use Rattle.tree_layout.specs.Values.{inner_mark};
ghost use Rattle.tree_layout.specs.Reading.{element};
ghost use Rattle.tree_layout.specs.Sizes.{header_size, fields_size, junction_size, inner_mark_size, element_size};
ghost use Rattle.tree_encode.specs.Encode.{kind_bytes, encode_element, encode_inner_mark};
ghost use Rattle.tree_encode.specs.code.Parts.{tree_header, encode_fields};

use book::Junction;
use tree_layout::{Fields, Header, Listed, Span};

// Writes a tree book's header: the count of the bytes after it, the version, and the header's counts.
pub fn put_book_header(tree: &mut [u8], count: u32, h: Header)
    requires { header_size ≤ length tree.old }
    ensures { tree.new ≡ write tree.old 0
        (tree_header count h.version h.junctions h.regions h.yards h.landmarks) }
{
    book::put_u32(tree, 0, count);
    tree[4] = h.version;
    book::put_u16(tree, 5, h.junctions);
    book::put_u16(tree, 7, h.regions);
    book::put_u16(tree, 9, h.yards);
    tree[11] = h.landmarks;
}

// Writes a kind byte at a place, which a version 1 book does not have.
fn put_kinds(tree: &mut [u8], v: u8, at: usize, kinds: u8)
    requires { at + kind_size v ≤ length tree.old }
    ensures { tree.new ≡ write tree.old at (kind_bytes v kinds) }
{
    if v != 1 {
        tree[at] = kinds;
    }
}

// Writes a region's fields in a version v book, at their place.
pub fn put_fields(tree: &mut [u8], v: u8, f: Fields)
    requires { f.at + fields_size v ≤ length tree.old }
    ensures { tree.new ≡ write tree.old f.at
        (encode_fields v f.first.number f.after f.children f.yards f.kinds) }
{
    let at = f.at;
    book::put_u16(tree, at, f.first.number);
    book::put_u16(tree, at + 2, f.after);
    tree[at + 4] = f.children;
    book::put_u16(tree, at + 5, f.yards);
    put_kinds(tree, v, at + 7, f.kinds);
}

// Writes the junction of a leaf's landmark at a place. Its list comes after it.
pub fn put_leaf_mark_junction(tree: &mut [u8], at: usize, l: Junction)
    requires { at + junction_size ≤ length tree.old }
    ensures { tree.new ≡ write tree.old at (u16_bytes l.number) }
{
    book::put_u16(tree, at, l.number);
}

// Writes an inner region's landmark at a place: its junction, and the least and the greatest distance to its yards.
pub fn put_span(tree: &mut [u8], at: usize, l: Junction, s: Span)
    requires { at + inner_mark_size ≤ length tree.old }
    ensures { tree.new ≡ write tree.old at
        (encode_inner_mark (inner_mark l.number s.least s.greatest)) }
{
    book::put_u16(tree, at, l.number);
    book::put_u32(tree, at + 2, s.least);
    book::put_u32(tree, at + 6, s.greatest);
}

// Writes an element of a leaf's list in a version v book at a place: its distance, its yard and its kinds.
pub fn put_element(tree: &mut [u8], v: u8, at: usize, e: Listed)
    requires { at + element_size v ≤ length tree.old }
    ensures { tree.new
        ≡ write tree.old at (encode_element v (element e.distance e.yard.number e.kinds)) }
{
    book::put_u32(tree, at, e.distance);
    book::put_u16(tree, at + 4, e.yard.number);
    put_kinds(tree, v, at + 6, e.kinds);
}
