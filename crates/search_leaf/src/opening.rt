// A leaf when first taken picks its landmark, and its yards get their f and their bounds.
ghost use Rattle.std.specs.Prelude.{List, ℕ, length};
ghost use Rattle.tree_layout.specs.Decode.{junction_count};
ghost use Rattle.search_rules.specs.Books.{search_of};
ghost use Rattle.search_held.specs.code.Rules.{asking_of};
ghost use Rattle.search_state.specs.code.State.{picks_in, fs_in, bounds_in};
ghost use Rattle.search_leaf.specs.code.Ready.{Ready, Readied, Leafed, SameQueue, OpenLeaf};

use crate::{Form, elements, parts};
use search_bounds::picks;
use search_held::Asked;
use tree_layout::{Region, landmarks, records};

// Opens leaf r, and gives the number of its landmark among its own.
fn open(
    tree: &[u8],
    places: &[usize],
    table: &[u32],
    drives: &[u32],
    crews: &[u16],
    asked: Asked,
    words: &mut [u64],
    values: &mut [u32],
    r: Region,
) -> usize
    requires { Readied tree.now (asking_of asked)
        crews.now drives.now places.now table.now
        × ((road : List ℕ)
        → Ready road tree.now (asking_of asked)
        crews.now drives.now places.now table.now
        → Leafed (search_of road tree.now (asking_of asked) crews.now)
        (length places.now) (junction_count tree.now) words.old values.old r.number) }
    ensures same { SameQueue (length places.now) (junction_count tree.now)
        words.old words.new }
    ensures open { (road : List ℕ)
        → Ready road tree.now (asking_of asked)
        crews.now drives.now places.now table.now
        → OpenLeaf (search_of road tree.now (asking_of asked) crews.now)
        (picks_in (length places.now) (junction_count tree.now) words.new)
        (fs_in (junction_count tree.now) values.new)
        (bounds_in (junction_count tree.now) values.new)
        r.number result }
{
    let h = records::header(tree);
    let p = picks::choose_mark(tree, places, table, h.landmarks as usize, crews, r);
    let pick_place = parts::pick_at(h, r);
    words[pick_place] = p as u64;
    let at = places[r.number as usize];
    let yards = records::fields(tree, at).yards as usize;
    let place = landmarks::mark_place(tree, at, p);
    elements::open(
        tree,
        place,
        yards,
        table,
        drives,
        crews,
        asked.aggregate,
        values,
    );
    let form = Form {
        version: h.version,
        yards,
    };
    let first = records::list(tree, landmarks::mark_place(tree, at, 0), yards);
    elements::pass_over(first, form, asked.wanted, values);
    p
}

// The number of leaf r's landmark among its own; the leaf is opened when it is first taken.
pub fn landmark(
    tree: &[u8],
    places: &[usize],
    table: &[u32],
    drives: &[u32],
    crews: &[u16],
    asked: Asked,
    words: &mut [u64],
    values: &mut [u32],
    r: Region,
) -> usize
    requires { Readied tree.now (asking_of asked)
        crews.now drives.now places.now table.now
        × ((road : List ℕ)
        → Ready road tree.now (asking_of asked)
        crews.now drives.now places.now table.now
        → Leafed (search_of road tree.now (asking_of asked) crews.now)
        (length places.now) (junction_count tree.now) words.old values.old r.number) }
    ensures same { SameQueue (length places.now) (junction_count tree.now)
        words.old words.new }
    ensures open { (road : List ℕ)
        → Ready road tree.now (asking_of asked)
        crews.now drives.now places.now table.now
        → OpenLeaf (search_of road tree.now (asking_of asked) crews.now)
        (picks_in (length places.now) (junction_count tree.now) words.new)
        (fs_in (junction_count tree.now) values.new)
        (bounds_in (junction_count tree.now) values.new)
        r.number result }
{
    let p = words[parts::pick_at(records::header(tree), r)];
    if p != search_queue::UNQUEUED {
        return p as usize;
    }
    open(tree, places, table, drives, crews, asked, words, values, r)
}
