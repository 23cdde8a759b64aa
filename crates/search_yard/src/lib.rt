#![tactic(auto)]
// A yard is taken: it is measured, and held if the search's rule keeps it.
ghost use Rattle.std.specs.Prelude.{◌≡◌, List, [], ◌∷◌, ℕ, ◌+◌, ◌≤◌, ◌<◌, length};
ghost use Rattle.search_rules.specs.Keeping.{keep_by};
ghost use Rattle.search_rules.specs.Ceiling.{ceiling_by};
ghost use Rattle.search_rules.specs.Theorems.{Sorted};
ghost use Rattle.search_measure.specs.Crews.{measure_yard, yard_ways, Measures};
ghost use Rattle.search_measure.specs.code.Cases.{measured_of, Measurable, IsMeasurable};
ghost use Rattle.search_held.specs.code.Rules.{rule_of};
ghost use Rattle.search_state.specs.code.State.{newest};
ghost use Rattle.search_yard.specs.code.Entries.{entry_on};

use book::Junction;
use search_held::Asked;
use search_measure::Numbers;
use search_order::{Entries, Entry};

// The most yards that a search measures.
const MOST_YARDS: usize = 256;

// What a search has come to beside its words: what it keeps, and the measured yards with their number.
#[derive(Clone, Copy)]
pub struct Progress {
    pub kept: Entries,
    pub yards: [u16; MOST_YARDS],
    pub measured: usize,
    ghost room: { (length kept ≤ measured) × (measured ≤ 256) },
}

// Nothing is kept, and no yard measured.
pub fn none() -> Progress
    ensures { (result.kept ≡ []) × (result.measured ≡ 0) }
{
    Progress {
        kept: Entries::new(),
        yards: [0u16; MOST_YARDS],
        measured: 0,
    }
}

// A walk's junctions have a place for each of 1,024.
const JUNCTIONS: usize = 1024;

// Measures yard y up to the search's ceiling, which goes by what is kept so far; drives has the crews' rows. The
// junctions that the last walk has walked on from stand in walked.
fn under_ceiling(
    adj: &[u16],
    drives: &[u32],
    crews: &[u16],
    walked: &mut [u16],
    asked: Asked,
    kept: &Entries,
    y: Junction,
) -> Option<Numbers>
    requires { IsMeasurable adj.now crews.now drives.now y.number × (length walked.old ≡ 1024) }
    ensures measures { (road : List ℕ)
        → Measurable road adj.now crews.now drives.now y.number
        → Measures road asked.aggregate crews.now (ceiling_by (rule_of asked.rule) kept.now) y.number
        (measured_of result)
        (yard_ways road asked.aggregate crews.now (ceiling_by (rule_of asked.rule) kept.now) y.number) }
    ensures run { (road : List ℕ)
        → Measurable road adj.now crews.now drives.now y.number
        → measured_of result
        ≡ measure_yard road asked.aggregate crews.now (ceiling_by (rule_of asked.rule) kept.now) y.number }
{
    let ceiling = search_held::ceiling(kept, asked.rule);
    search_measure::measure(adj, drives, crews, walked, asked.aggregate, ceiling, y)
}

// Measures yard y: it is the last of the measured yards. One that is above the ceiling is not held.
pub fn take(
    adj: &[u16],
    drives: &[u32],
    crews: &[u16],
    asked: Asked,
    progress: &mut Progress,
    y: Junction,
)
    requires { IsMeasurable adj.now crews.now drives.now y.number
        × (progress.old.measured < 256) × Sorted progress.old.kept }
    ensures count { progress.new.measured ≡ progress.old.measured + 1 }
    ensures measured { newest progress.new.yards (progress.old.measured + 1)
        ≡ y.number ∷ newest progress.old.yards progress.old.measured }
    ensures held { (road : List ℕ)
        → Measurable road adj.now crews.now drives.now y.number
        → progress.new.kept ≡ keep_by (rule_of asked.rule)
        (entry_on road asked.aggregate crews.now y.number) progress.old.kept }
{
    let count = progress.measured;
    progress.yards[count] = y.number;
    progress.measured = count + 1;
    let mut walked = [0u16; JUNCTIONS];
    let answer = under_ceiling(adj, drives, crews, &mut walked, asked, &progress.kept, y);
    let Some(numbers) = answer else {
        return;
    };
    let entry = Entry {
        distance: numbers.total,
        furthest: numbers.furthest,
        yard: y.number as u32,
    };
    search_held::keep(&mut progress.kept, asked.rule, entry);
}
