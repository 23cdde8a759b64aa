#![tactic(auto)]
// "all of a leaf's lists name the same yards, each yard once, inside its range": the yards of a list as a set by
// junction.
ghost use Rattle.std.specs.Prelude.{◌≡◌, true, ◌+◌, ◌*◌, ◌≤◌, length};
ghost use Rattle.book.specs.Open.{version};
ghost use Rattle.tree_layout.specs.Sizes.{header_size, junction_size, list_size, leaf_mark_size};
ghost use Rattle.tree_layout.specs.Decode.{read_list, list_part, read_lists, size_at, read_region, landmark_count};
ghost use Rattle.tree_layout.specs.code.Accessors.{fields_at};
ghost use Rattle.tree_layout.specs.Refusal.{all};
ghost use Rattle.tree_leaf.specs.Leaf.{first_list, same_yards, agreeing, leaf_ok};
ghost use Rattle.tree_leaf.specs.code.Members.{members_of, is_member, fits};

use tree_layout::{Fields, every, records};

// Whether a leaf's list names each yard once, inside the leaf's range; the set then has these yards.
fn fill_members(p: &[u8], v: u8, f: Fields, members: &mut [bool]) -> bool
    requires { (list_size v f.yards ≤ length p.now) × (f.after ≤ 1024) × (length members.old ≡ 1024) }
    ensures { (result ≡ fits f.first.number f.after (read_list v p.now f.yards 0))
        × (result ≡ true → members.new ≡ members_of (read_list v p.now f.yards 0)) }
{
    members.fill(false);
    for k in (0..f.yards as usize).rev() {
        let y = records::element(p, v, k).yard.number;
        if !(f.first.number..f.after).contains(&y) {
            return false;
        }
        let i = y as usize;
        if members[i] {
            return false;
        }
        members[i] = true;
    }
    true
}

// Whether a set has each yard that a list of n elements names.
fn all_in(p: &[u8], v: u8, n: usize, members: &[bool]) -> bool
    requires { (n ≤ 65535) × (list_size v n ≤ length p.now) }
    ensures { result ≡ all (is_member members.now) (read_list v p.now n 0) }
{
    every::every_element(
        p,
        v,
        n,
        |e| members
            .get(e.yard.number as usize)
            .copied()
            .unwrap_or(false),
    )
}

// Whether a leaf's list names the first one's yards, each once, inside its range; `named` has the first one's yards.
fn same_yards(
    first: &[u8],
    p: &[u8],
    v: u8,
    f: Fields,
    named: &[bool],
    members: &mut [bool],
) -> bool
    requires { (list_size v f.yards ≤ length first.now) × (list_size v f.yards ≤ length p.now)
        × (f.after ≤ 1024) × (length members.old ≡ 1024)
        × (fits f.first.number f.after (read_list v first.now f.yards 0) ≡ true)
        × (named.now ≡ members_of (read_list v first.now f.yards 0)) }
    ensures { result ≡ same_yards f.first.number f.after (read_list v first.now f.yards 0)
        (read_list v p.now f.yards 0) }
{
    let n = f.yards as usize;
    fill_members(p, v, f, members) && all_in(p, v, n, named) && all_in(first, v, n, members)
}

// Whether the lists of m landmarks from a place on all do, beside the first of them.
fn all_agree(
    b: &[u8],
    start: usize,
    m: usize,
    f: Fields,
    named: &[bool],
    members: &mut [bool],
) -> bool
    requires { (header_size ≤ length b.now)
        × (start + m * leaf_mark_size (version b.now) f.yards ≤ length b.now) × (1 ≤ m) × (f.after ≤ 1024)
        × (length members.old ≡ 1024)
        × (fits f.first.number f.after
        (read_list (version b.now) (list_part (version b.now) b.now f.yards (start + junction_size)) f.yards 0)
        ≡ true)
        × (named.now ≡ members_of (read_list (version b.now)
        (list_part (version b.now) b.now f.yards (start + junction_size)) f.yards 0)) }
    ensures { result ≡ agreeing f.first.number f.after
        (first_list (read_lists b.now f.yards m start))
        (read_lists b.now f.yards m start) }
{
    let n = f.yards as usize;
    let v = book::version(b);
    let first = records::list(b, start, n);
    let mut at = start;
    for _ in 0..m {
        let p = records::list(b, at, n);
        if !same_yards(first, p, v, f, named, members) {
            return false;
        }
        at += records::leaf_mark(v, n);
    }
    true
}

// Whether the lists of a leaf with m landmarks from a place on name the same yards, each once, inside the leaf's range.
fn lists_agree(b: &[u8], start: usize, m: usize, f: Fields) -> bool
    requires { (header_size ≤ length b.now)
        × (start + m * leaf_mark_size (version b.now) f.yards ≤ length b.now) × (f.after ≤ 1024) }
    ensures { result ≡ agreeing f.first.number f.after
        (first_list (read_lists b.now f.yards m start))
        (read_lists b.now f.yards m start) }
{
    if m == 0 {
        return true;
    }
    let mut named = [false; 1024];
    let mut members = [false; 1024];
    let p = records::list(b, start, f.yards as usize);
    if !fill_members(p, book::version(b), f, &mut named) {
        return false;
    }
    all_agree(b, start, m, f, &named, &mut members)
}

// Whether the lists of the leaf whose record is at a place keep the shape's rules.
pub fn leaf_ok(b: &[u8], at: usize) -> bool
    requires { (header_size ≤ length b.now) × ((fields_at b.now at).children ≡ 0)
        × (at + size_at b.now (landmark_count b.now) at ≤ length b.now) × ((fields_at b.now at).after ≤ 1024) }
    ensures { result ≡ leaf_ok (read_region b.now (landmark_count b.now) at) }
{
    let h = records::header(b);
    let f = records::fields(b, at);
    lists_agree(b, records::marks_at(h.version, at), h.landmarks as usize, f)
}
