// Whether a tree's yards are the yard book's: "Junction counts or yards disagree between books".
ghost use Rattle.std.specs.Prelude.{◌≡◌, ◌≤◌, length};
ghost use Rattle.yard.specs.Yards.{yards_of, yard_refusal};
ghost use Rattle.tree_layout.specs.Sizes.{list_size};
ghost use Rattle.tree_layout.specs.Decode.{read_list, read_region, decode, landmark_count};
ghost use Rattle.tree_layout.specs.code.Marks.{RecordAt};
ghost use Rattle.tree_layout.specs.Refusal.{tree_layout_refusal};
ghost use Rattle.check_tree.specs.Check.{has};
ghost use Rattle.check_tree.specs.code.Known.{known_list, known_region, known_tree};

use book::Junction;
use tree_layout::{every, landmarks, records};

// Whether a yard book has yard y.
fn has_yard(yard: &[u8], y: Junction) -> bool
    requires { yard_refusal yard.now ≡ 0 }
    ensures { result ≡ has (yards_of yard.now) y.number }
{
    for k in 0..yard::count(yard) as usize {
        if yard::yard_at(yard, k).number == y.number {
            return true;
        }
    }
    false
}

// Whether a yard book has each yard that n elements name.
fn list_known(yard: &[u8], p: &[u8], v: u8, n: usize) -> bool
    requires { (yard_refusal yard.now ≡ 0) × (n ≤ 65535) × (list_size v n ≤ length p.now) }
    ensures { result ≡ known_list (yards_of yard.now) (read_list v p.now n 0) }
{
    every::every_element(p, v, n, |e| has_yard(yard, e.yard))
}

// Whether a yard book has each yard of the region whose record is at a place: a leaf's, which its first list names.
fn region_known(yard: &[u8], tree: &[u8], at: usize) -> bool
    requires { (yard_refusal yard.now ≡ 0) × RecordAt tree.now at }
    ensures { result ≡ known_region (yards_of yard.now)
        (read_region tree.now (landmark_count tree.now) at) }
{
    let f = records::fields(tree, at);
    if f.children != 0 {
        return true;
    }
    let yards = f.yards as usize;
    let first = landmarks::mark_place(tree, at, 0);
    let list = records::list(tree, first, yards);
    list_known(yard, list, book::version(tree), yards)
}

// Whether a yard book has each yard of a tree's leaves.
pub fn yards_known(yard: &[u8], tree: &[u8]) -> bool
    requires { (yard_refusal yard.now ≡ 0) × (tree_layout_refusal tree.now ≡ 0) }
    ensures { result ≡ known_tree (yards_of yard.now) (decode tree.now) }
{
    every::every_region(tree, |at| region_known(yard, tree, at))
}
