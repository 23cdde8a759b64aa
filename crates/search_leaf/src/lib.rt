#![tactic(auto)]
// A leaf is taken: it queues its next yard and, if any remain, itself.
pub mod queueing; // queueing.rt: the next yard of a leaf whose yards have their f and their bounds.
pub mod elements; // elements.rt: a leaf's list: f and the bound of each of its yards, and which leaves next.
pub mod parts; // parts.rt: where a search's words stand
mod opening; // opening.rt: a leaf that is first taken

ghost use Rattle.std.specs.Prelude.{◌≡◌, List, ℕ, length};
ghost use Rattle.tree_layout.specs.Decode.{junction_count};
ghost use Rattle.search_rules.specs.Books.{search_of};
ghost use Rattle.search_rules.specs.Step.{open_leaf};
ghost use Rattle.search_rules.specs.Order.{Entry};
ghost use Rattle.search_held.specs.code.Rules.{asking_of};
ghost use Rattle.search_state.specs.code.State.{picks_in, fs_in, bounds_in, state_of};
ghost use Rattle.search_leaf.specs.code.Ready.{Ready, Readied, Cached, Leafed};

use search_held::Asked;
use tree_layout::{Region, landmarks, records};

// The place of the element that leaves next, and its f.
#[derive(Clone, Copy)]
pub struct Next {
    pub place: usize,
    pub f: u64,
}

// The form of a leaf's list: the version of its book, and how many yards it has.
#[derive(Clone, Copy)]
pub struct Form {
    pub version: u8,
    pub yards: usize,
}

// Takes leaf r: "A leaf queues its next yard and, if any remain, itself". The words are the search's.
pub fn take(
    tree: &[u8],
    places: &[usize],
    table: &[u32],
    drives: &[u32],
    crews: &[u16],
    asked: Asked,
    words: &mut [u64],
    values: &mut [u32],
    r: Region,
)
    requires { Readied tree.now (asking_of asked)
        crews.now drives.now places.now table.now
        × ((road : List ℕ)
        → Ready road tree.now (asking_of asked)
        crews.now drives.now places.now table.now
        → Leafed (search_of road tree.now (asking_of asked) crews.now)
        (length places.now) (junction_count tree.now) words.old values.old r.number) }
    ensures cached { (road : List ℕ)
        → Ready road tree.now (asking_of asked)
        crews.now drives.now places.now table.now
        → Cached (search_of road tree.now (asking_of asked) crews.now)
        (picks_in (length places.now) (junction_count tree.now) words.new)
        (fs_in (junction_count tree.now) values.new)
        (bounds_in (junction_count tree.now) values.new) }
    ensures state { (road : List ℕ)
        → Ready road tree.now (asking_of asked)
        crews.now drives.now places.now table.now
        → (held : List Entry) (measured : List ℕ) (count : ℕ)
        → state_of (length places.now) (junction_count tree.now) words.new
        held measured count
        ≡ open_leaf (search_of road tree.now (asking_of asked) crews.now)
        (state_of (length places.now) (junction_count tree.now) words.old
        held measured count) r.number }
{
    let p = opening::landmark(tree, places, table, drives, crews, asked, words, values, r);
    let at = places[r.number as usize];
    let yards = records::fields(tree, at).yards as usize;
    let place = landmarks::mark_place(tree, at, p);
    let list = records::list(tree, place, yards);
    let h = records::header(tree);
    queueing::queue_next(list, yards, h, words, values, r);
}
