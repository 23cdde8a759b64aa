#![tactic(auto)]
// One step of a search.
mod regions; // regions.rt: a region is taken

ghost use Rattle.std.specs.Prelude.{◌≡◌, List, ℕ, length};
ghost use Rattle.tree_layout.specs.Decode.{junction_count};
ghost use Rattle.search_rules.specs.Books.{search_of};
ghost use Rattle.search_rules.specs.Step.{step};
ghost use Rattle.search_held.specs.code.Rules.{asking_of};
ghost use Rattle.search_state.specs.code.State.{word_count, picks_in, fs_in, bounds_in, state_of};
ghost use Rattle.search_inner.specs.code.Children.{Ended};
ghost use Rattle.search_leaf.specs.code.Ready.{Ready, Cached};
ghost use Rattle.search_step.specs.code.Prepared.{IsPrepared};
ghost use Rattle.search_step.specs.code.Regions.{Going, FirstLeast};

use book::Junction;
use search_held::Asked;
use search_yard::Progress;
use tree_layout::Region;

// "One step takes the least key; at equal keys a region precedes a yard, then lower number first.": number p has it.
pub fn step(
    adj: &[u16],
    tree: &[u8],
    places: &[usize],
    ends: &[usize],
    table: &[u32],
    drives: &[u32],
    crews: &[u16],
    asked: Asked,
    words: &mut [u64],
    values: &mut [u32],
    progress: &mut Progress,
    p: usize,
)
    requires { IsPrepared adj.now tree.now (asking_of asked)
        crews.now drives.now places.now table.now
        × Ended tree.now ends.now
        × ((road : List ℕ)
        → Ready road tree.now (asking_of asked)
        crews.now drives.now places.now table.now
        → Going (search_of road tree.now (asking_of asked) crews.now)
        (length places.now) (junction_count tree.now) words.old values.old
        (state_of (length places.now) (junction_count tree.now) words.old
        progress.old.kept progress.old.yards progress.old.measured))
        × (length words.old ≡ word_count (length places.now) (junction_count tree.now))
        × FirstLeast (length places.now) (junction_count tree.now) words.old p }
    ensures cached { (road : List ℕ)
        → Ready road tree.now (asking_of asked)
        crews.now drives.now places.now table.now
        → Cached (search_of road tree.now (asking_of asked) crews.now)
        (picks_in (length places.now) (junction_count tree.now) words.new)
        (fs_in (junction_count tree.now) values.new)
        (bounds_in (junction_count tree.now) values.new) }
    ensures state { (road : List ℕ)
        → Ready road tree.now (asking_of asked)
        crews.now drives.now places.now table.now
        → state_of (length places.now) (junction_count tree.now) words.new
        progress.new.kept progress.new.yards progress.new.measured
        ≡ step (search_of road tree.now (asking_of asked) crews.now)
        (state_of (length places.now) (junction_count tree.now) words.old
        progress.old.kept progress.old.yards progress.old.measured) }
{
    let r = places.len();
    if p < r {
        let region = Region { number: p as u16 };
        let a = words[p];
        regions::take(
            tree, places, ends, table, drives, crews, asked, words, values, region, a,
        );
        return;
    }
    words[p] = search_queue::UNQUEUED;
    let yard = Junction {
        number: (p - r) as u16,
    };
    search_yard::take(adj, drives, crews, asked, progress, yard);
}
