// A region's landmarks, read from the tree book.
ghost use Rattle.std.specs.Prelude.{◌≡◌, ◌+◌, ◌≤◌, ◌<◌, length, get_or};
ghost use Rattle.book.specs.Bytes.{u8_at, u16_at, u32_at};
ghost use Rattle.book.specs.Open.{version};
ghost use Rattle.tree_layout.specs.Sizes.{header_size, fields_size, list_size, inner_mark_size};
ghost use Rattle.tree_layout.specs.Values.{no_mark, leaf_mark, inner_mark};
ghost use Rattle.tree_layout.specs.Decode.{read_list, mark_size, landmark_count};
ghost use Rattle.tree_layout.specs.code.Marks.{mark_place, marks_at, landmark_of, RecordAt};

use crate::{Landmark, records};
use book::Junction;

// The bytes of one landmark of the record at a place.
pub fn mark_size(tree: &[u8], at: usize) -> usize
    requires { (header_size ≤ length tree.now) × (at + fields_size (version tree.now) ≤ length tree.now) }
    ensures { result ≡ mark_size (version tree.now) (u8_at tree.now (at + 4))
        (u16_at tree.now (at + 5)) }
{
    if book::u8_at(tree, at + 4) != 0 {
        return records::INNER_MARK;
    }
    records::leaf_mark(book::version(tree), book::u16_at(tree, at + 5) as usize)
}

// Where landmark j of the record at a place stands.
pub fn mark_place(tree: &[u8], at: usize, j: usize) -> usize
    requires { RecordAt tree.now at × (j < landmark_count tree.now) }
    ensures { result ≡ mark_place tree.now at j }
{
    let size = mark_size(tree, at);
    records::marks_at(book::version(tree), at) + j * size
}

// A leaf's landmark: "in a leaf, its list's first and last".
fn of_list(place: Junction, p: &[u8], v: u8, n: usize) -> Landmark
    requires { (1 ≤ n) × (n ≤ 65535) × (list_size v n ≤ length p.now) }
    ensures { result ≡ landmark_of (leaf_mark place.number (read_list v p.now n 0)) }
{
    Landmark {
        place,
        least: book::u32_at(p, 0),
        greatest: book::u32_at(p, records::list_size(v, n - 1)),
    }
}

// An inner region's landmark: "least and greatest distance to its yards".
fn of_span(tree: &[u8], at: usize) -> Landmark
    requires { at + inner_mark_size ≤ length tree.now }
    ensures { result ≡ landmark_of (inner_mark (u16_at tree.now at)
        (u32_at tree.now (at + 2)) (u32_at tree.now (at + 6))) }
{
    let place = Junction {
        number: book::u16_at(tree, at),
    };
    Landmark {
        place,
        least: book::u32_at(tree, at + 2),
        greatest: book::u32_at(tree, at + 6),
    }
}

// Landmark j of the record at a place.
pub fn landmark(tree: &[u8], at: usize, j: usize) -> Landmark
    requires { RecordAt tree.now at × (j < landmark_count tree.now) }
    ensures { result ≡ landmark_of (get_or (marks_at tree.now at) j no_mark) }
{
    let p = mark_place(tree, at, j);
    if book::u8_at(tree, at + 4) != 0 {
        return of_span(tree, p);
    }
    let yards = book::u16_at(tree, at + 5) as usize;
    let place = records::junction(tree, p);
    of_list(
        place,
        records::list(tree, p, yards),
        book::version(tree),
        yards,
    )
}
