#![tactic(auto)]
// A search's state in one array of words, and when it is settled.
ghost use Rattle.std.specs.Prelude.{◌≡◌};
ghost use Rattle.search_held.specs.code.Rules.{rule_of};
ghost use Rattle.search_state.specs.code.State.{settled_by};

use search_held::Rule;
use search_order::Entries;

// Whether the queue is empty, or what is kept is enough by the search's rule and the least key.
pub fn settled(least: u64, kept: &Entries, rule: Rule) -> bool
    ensures { result ≡ settled_by (rule_of rule) least kept.now }
{
    if least == search_queue::UNQUEUED {
        return true;
    }
    search_held::enough(kept, rule, least)
}
