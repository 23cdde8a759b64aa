// A region is taken: a leaf queues its next yard and itself, an inner region its children.
ghost use Rattle.std.specs.Prelude.{◌≡◌, List, ℕ, length};
ghost use Rattle.tree_layout.specs.Decode.{junction_count};
ghost use Rattle.search_rules.specs.Books.{search_of};
ghost use Rattle.search_rules.specs.Step.{take_region};
ghost use Rattle.search_rules.specs.Order.{Entry};
ghost use Rattle.search_held.specs.code.Rules.{asking_of};
ghost use Rattle.search_state.specs.code.State.{picks_in, fs_in, bounds_in, state_of};
ghost use Rattle.search_inner.specs.code.Children.{Ended};
ghost use Rattle.search_leaf.specs.code.Ready.{Ready, Readied, Cached};
ghost use Rattle.search_step.specs.code.Regions.{RegionQueued};

use search_held::Asked;
use tree_layout::Region;

// Takes region r, whose key is a.
pub fn take(
    tree: &[u8],
    places: &[usize],
    ends: &[usize],
    table: &[u32],
    drives: &[u32],
    crews: &[u16],
    asked: Asked,
    words: &mut [u64],
    values: &mut [u32],
    r: Region,
    a: u64,
)
    requires { Readied tree.now (asking_of asked)
        crews.now drives.now places.now table.now
        × Ended tree.now ends.now
        × ((road : List ℕ)
        → Ready road tree.now (asking_of asked)
        crews.now drives.now places.now table.now
        → RegionQueued (search_of road tree.now (asking_of asked) crews.now)
        (length places.now) (junction_count tree.now) words.old values.old r.number) }
    ensures cached { (road : List ℕ)
        → Ready road tree.now (asking_of asked)
        crews.now drives.now places.now table.now
        → Cached (search_of road tree.now (asking_of asked) crews.now)
        (picks_in (length places.now) (junction_count tree.now) words.new)
        (fs_in (junction_count tree.now) values.new)
        (bounds_in (junction_count tree.now) values.new) }
    ensures state { (road : List ℕ)
        → Ready road tree.now (asking_of asked)
        crews.now drives.now places.now table.now
        → (held : List Entry) (measured : List ℕ) (count : ℕ)
        → state_of (length places.now) (junction_count tree.now) words.new
        held measured count
        ≡ take_region (search_of road tree.now (asking_of asked) crews.now)
        (state_of (length places.now) (junction_count tree.now) words.old
        held measured count) r.number a }
{
    let f = tree::regions::fields(tree, places, r);
    if f.children == 0 {
        search_leaf::take(tree, places, table, drives, crews, asked, words, values, r);
        return;
    }
    search_inner::open_inner(tree, places, ends, table, crews, asked, words, r, a);
}
