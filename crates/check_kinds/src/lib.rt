#![tactic(auto)]
// Test 9, of kinds: whether every kind byte of a tree book is the yard book's, and each region's byte that of its
// yards.
ghost use Rattle.std.specs.Prelude.{◌≡◌, ◌∷◌, [], ◌≤◌, ◌<◌, length, get_or};
ghost use Rattle.kinds.specs.Kinds.{together_from, together};
ghost use Rattle.yard.specs.Yards.{yard_count, yard_at, yards_of, kind_table, kind_of, yard_refusal};
ghost use Rattle.tree_layout.specs.Sizes.{list_size};
ghost use Rattle.tree_layout.specs.Decode.{read_list, read_region, decode, landmark_count};
ghost use Rattle.tree_layout.specs.code.Accessors.{fields_at};
ghost use Rattle.tree_layout.specs.code.Marks.{marks_at, RecordAt};
ghost use Rattle.tree_layout.specs.Refusal.{all, tree_layout_refusal};
ghost use Rattle.check_rules.specs.Truth.{within, kinds_element, kinds_list, kinds_beside_region, kinds_beside};

use book::Junction;
use tree_layout::{Fields, every, records};

// A table of kinds has a place for each of 1,024 junctions.
const JUNCTIONS: usize = 1024;

// The kinds of the yard at a junction, by a table; 0 past its end.
fn kinds_of(table: &[u8], y: Junction) -> u8
    ensures { result ≡ get_or table.now y.number 0 }
{
    table.get(y.number as usize).copied().unwrap_or(0)
}

// Whether each of n elements has its yard's kinds, by a table.
fn list_true(p: &[u8], v: u8, n: usize, table: &[u8]) -> bool
    requires { (n ≤ 65535) × (list_size v n ≤ length p.now) }
    ensures { result ≡ all (kinds_element (λ y. get_or table.now y 0)) (read_list v p.now n 0) }
{
    every::every_element(p, v, n, |e| e.kinds == kinds_of(table, e.yard))
}

// Whether the lists of a leaf's m landmarks have their yards' kinds, by the fields of its record.
fn lists_true(tree: &[u8], f: Fields, m: usize, table: &[u8]) -> bool
    requires { RecordAt tree.now f.at × (f ≡ fields_at tree.now f.at) × (f.children ≡ 0)
        × (m ≡ landmark_count tree.now) }
    ensures { result ≡ all (kinds_list (λ y. get_or table.now y 0)) (marks_at tree.now f.at) }
{
    let v = book::version(tree);
    let yards = f.yards as usize;
    every::every_mark(tree, f.at, m, |at| {
        list_true(records::list(tree, at, yards), v, yards, table)
    })
}

// x with the bits of yard number i, if the yard lies in the region's range; else x.
fn joined(yard: &[u8], i: usize, f: Fields, x: u8) -> u8
    requires { (yard_refusal yard.now ≡ 0) × (i < yard_count yard.now) }
    ensures { result ≡ together_from (kind_of yard.now) x
        (within f.first.number f.after (yard_at yard.now i ∷ [])) }
{
    let y = yard::yard_at(yard, i).number;
    if !(f.first.number..f.after).contains(&y) {
        return x;
    }
    kinds::join(x, yard::kinds_at(yard, i))
}

// The bits of the yards in a region's range together.
fn together(yard: &[u8], f: Fields) -> u8
    requires { yard_refusal yard.now ≡ 0 }
    ensures { result ≡ together (kind_of yard.now)
        (within f.first.number f.after (yards_of yard.now)) }
{
    let mut x: u8 = 0;
    for i in 0..yard::count(yard) as usize {
        x = joined(yard, i, f, x);
    }
    x
}

// Whether the kind bytes of the region whose record is at a place are true. It has m landmarks.
fn region_true(yard: &[u8], tree: &[u8], m: usize, at: usize, table: &[u8]) -> bool
    requires { (yard_refusal yard.now ≡ 0) × RecordAt tree.now at × (m ≡ landmark_count tree.now)
        × (table.now ≡ kind_table yard.now) }
    ensures { result ≡ kinds_beside_region (kind_of yard.now) (yards_of yard.now)
        (read_region tree.now m at) }
{
    let f = records::fields(tree, at);
    if f.kinds != together(yard, f) {
        return false;
    }
    if f.children != 0 {
        return true;
    }
    lists_true(tree, f, m, table)
}

// Whether every kind byte of a tree book is true, beside a yard book.
pub fn kinds_true(yard: &[u8], tree: &[u8]) -> bool
    requires { (yard_refusal yard.now ≡ 0) × (tree_layout_refusal tree.now ≡ 0) }
    ensures { result ≡ kinds_beside (kind_of yard.now) (yards_of yard.now)
        (decode tree.now) }
{
    let mut table = [0u8; JUNCTIONS];
    yard::kind_table(yard, &mut table);
    let m = records::header(tree).landmarks as usize;
    every::every_region(tree, |at| region_true(yard, tree, m, at, &table))
}
