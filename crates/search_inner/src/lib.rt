#![tactic(auto)]
// An inner region is taken: it queues its children.
ghost use Rattle.std.specs.Prelude.{◌≡◌, ◌<◌, length, set};
ghost use Rattle.book.specs.Lists.{keep_if};
ghost use Rattle.tree_layout.specs.Decode.{decode, junction_count, landmark_count};
ghost use Rattle.tree.specs.Arrays.{Laid};
ghost use Rattle.tree.specs.Yards.{children_of};
ghost use Rattle.search_rules.specs.Queue.{unqueued};
ghost use Rattle.search_bounds.specs.code.Rows.{Rows};
ghost use Rattle.search_bounds.specs.code.Bounds.{Crews};
ghost use Rattle.search_inner.specs.code.Children.{wanted_in, key_of, put_keys, Ended, Slots};

use search_bounds::regions;
use search_held::Asked;
use tree_layout::{Region, records};

// Whether a region's byte shares a bit with the wanted byte.
pub fn wanted(tree: &[u8], places: &[usize], kinds: u8, c: Region) -> bool
    requires { Laid tree.now places.now × (c.number < length places.now) }
    ensures { result ≡ wanted_in tree.now kinds c.number }
{
    let f = tree::regions::fields(tree, places, c);
    kinds::shares(kinds, f.kinds)
}

// A region's key: "the greater of this and its parent's key".
fn key(
    tree: &[u8],
    places: &[usize],
    table: &[u32],
    rows: usize,
    code: u8,
    crews: &[u16],
    c: Region,
    parent: u64,
) -> u64
    requires { Laid tree.now places.now × (c.number < length places.now)
        × Rows table.now rows × Crews crews.now }
    ensures { result
        ≡ key_of tree.now table.now rows code crews.now parent c.number }
{
    let x = regions::region_bound(tree, places, table, rows, code, crews, c);
    x.max(parent)
}

// "An inner region queues its children.": region r, whose key is a, leaves the queue, and each child with a wanted bit
// gets its key.
pub fn open_inner(
    tree: &[u8],
    places: &[usize],
    ends: &[usize],
    table: &[u32],
    crews: &[u16],
    asked: Asked,
    words: &mut [u64],
    r: Region,
    a: u64,
)
    requires { Laid tree.now places.now × Ended tree.now ends.now
        × Rows table.now (landmark_count tree.now) × Crews crews.now
        × Slots tree.now (length places.now) (junction_count tree.now) words.old r.number }
    ensures { words.new
        ≡ put_keys
        (key_of tree.now table.now (landmark_count tree.now)
        asked.aggregate crews.now a)
        (length places.now) (junction_count tree.now)
        (keep_if (wanted_in tree.now asked.wanted)
        (children_of (decode tree.now).regions r.number))
        (set words.old r.number unqueued) }
{
    let h = records::header(tree);
    let rows = h.landmarks as usize;
    let firsts = places.len() + h.junctions as usize;
    let i = r.number as usize;
    words[i] = search_queue::UNQUEUED;
    let f = tree::regions::fields(tree, places, r);
    let mut c = i + 1;
    for _ in 0..f.children {
        let child = Region { number: c as u16 };
        if wanted(tree, places, asked.wanted, child) {
            let w = key(tree, places, table, rows, asked.aggregate, crews, child, a);
            words[c] = w;
            words[firsts + c] = w;
        }
        c = ends[c];
    }
}
