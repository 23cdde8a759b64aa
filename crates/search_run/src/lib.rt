#![tactic(auto)]
// A search: its steps up to a limit.
ghost use Rattle.std.specs.Prelude.{◌≡◌, List, ℕ, length, replicate};
ghost use Rattle.tree_layout.specs.Values.{region_at};
ghost use Rattle.tree_layout.specs.Decode.{decode, junction_count, landmark_count};
ghost use Rattle.tree.specs.Arrays.{Laid};
ghost use Rattle.search_rules.specs.Books.{search_of};
ghost use Rattle.search_rules.specs.Queue.{unqueued};
ghost use Rattle.search_rules.specs.Run.{answer};
ghost use Rattle.search_rules.specs.Theorems.{Allowed};
ghost use Rattle.search_held.specs.code.Rules.{rule_of, asking_of};
ghost use Rattle.search_bounds.specs.code.Rows.{Rows};
ghost use Rattle.search_bounds.specs.code.Bounds.{rows_bound, Crews};
ghost use Rattle.search_state.specs.code.State.{word_count, value_count};
ghost use Rattle.search_inner.specs.code.Children.{wanted_in, Ended};
ghost use Rattle.search_leaf.specs.code.Ready.{Ready};
ghost use Rattle.search_step.specs.code.Prepared.{IsPrepared};
ghost use Rattle.search_run.specs.code.Answers.{put_root, answer_of};

use search_bounds::regions;
use search_held::Asked;
use search_yard::Progress;
use tree_layout::{Region, records};

// The words of the greatest search: of 511 regions and 1,024 junctions.
const MOST_WORDS: usize = 3581;

// The values of its yards: f and a bound for each junction.
const VALUES: usize = 2048;

// What a search comes to: what it keeps, and the measured yards; the steps taken; and whether it is settled.
#[derive(Clone, Copy)]
pub struct Outcome {
    pub progress: Progress,
    pub taken: u32,
    pub settled: bool,
}

// "The queue starts with the root.", if it has a wanted bit: its key and its first key are its bound.
fn queue_root(
    tree: &[u8],
    places: &[usize],
    table: &[u32],
    crews: &[u16],
    asked: Asked,
    words: &mut [u64],
)
    requires { Laid tree.now places.now × Rows table.now (landmark_count tree.now) × Crews crews.now
        × (length words.old ≡ word_count (length places.now) (junction_count tree.now)) }
    ensures { words.new ≡ put_root (wanted_in tree.now asked.wanted 0)
        (length places.now) (junction_count tree.now)
        (rows_bound table.now (landmark_count tree.now) asked.aggregate crews.now
        (region_at (decode tree.now).regions 0).marks) words.old }
{
    let h = records::header(tree);
    let rows = h.landmarks as usize;
    let root = Region { number: 0 };
    if !search_inner::wanted(tree, places, asked.wanted, root) {
        return;
    }
    let w = regions::region_bound(tree, places, table, rows, asked.aggregate, crews, root);
    words[0] = w;
    let first = places.len() + h.junctions as usize;
    words[first] = w;
}

// Takes steps until the search is settled or the limit's number is taken.
fn steps(
    adj: &[u16],
    tree: &[u8],
    places: &[usize],
    ends: &[usize],
    table: &[u32],
    drives: &[u32],
    crews: &[u16],
    asked: Asked,
    words: &mut [u64],
    values: &mut [u32],
) -> Outcome
    requires { IsPrepared adj.now tree.now (asking_of asked)
        crews.now drives.now places.now table.now
        × Ended tree.now ends.now
        × (words.old ≡ replicate (word_count (length places.now) (junction_count tree.now)) unqueued)
        × (length values.old ≡ value_count) }
    ensures answer { (road : List ℕ)
        → Ready road tree.now (asking_of asked)
        crews.now drives.now places.now table.now
        → answer_of result
        ≡ answer (search_of road tree.now (asking_of asked) crews.now)
        asked.limit }
    ensures room { Allowed (rule_of asked.rule) result.progress.kept }
{
    queue_root(tree, places, table, crews, asked, words);
    let h = records::header(tree);
    let queue = places.len() + h.junctions as usize;
    let mut progress = search_yard::none();
    let mut taken: u32 = 0;
    loop {
        let p = search_queue::pick(&words[..queue]);
        if search_state::settled(words[p], &progress.kept, asked.rule) {
            return Outcome {
                progress,
                taken,
                settled: true,
            };
        }
        if taken == asked.limit {
            return Outcome {
                progress,
                taken,
                settled: false,
            };
        }
        search_step::step(
            adj,
            tree,
            places,
            ends,
            table,
            drives,
            crews,
            asked,
            words,
            values,
            &mut progress,
            p,
        );
        taken += 1;
    }
}

// Searches for what is asked.
pub fn run(
    adj: &[u16],
    tree: &[u8],
    places: &[usize],
    ends: &[usize],
    table: &[u32],
    drives: &[u32],
    crews: &[u16],
    asked: Asked,
) -> Outcome
    requires { IsPrepared adj.now tree.now (asking_of asked)
        crews.now drives.now places.now table.now
        × Ended tree.now ends.now }
    ensures answer { (road : List ℕ)
        → Ready road tree.now (asking_of asked)
        crews.now drives.now places.now table.now
        → answer_of result
        ≡ answer (search_of road tree.now (asking_of asked) crews.now)
        asked.limit }
    ensures room { Allowed (rule_of asked.rule) result.progress.kept }
{
    let mut words = [search_queue::UNQUEUED; MOST_WORDS];
    let mut values = [0u32; VALUES];
    let h = records::header(tree);
    let count = 3 * places.len() + 2 * (h.junctions as usize);
    steps(
        adj,
        tree,
        places,
        ends,
        table,
        drives,
        crews,
        asked,
        &mut words[..count],
        &mut values,
    )
}
