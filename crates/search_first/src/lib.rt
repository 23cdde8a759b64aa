#![tactic(auto)]
// The first k yards so far in yard order.
ghost use Rattle.std.specs.Prelude.{◌≡◌, ◌+◌, ◌≤◌, ◌<◌, length};
ghost use Rattle.search_rules.specs.Held.{hold};
ghost use Rattle.search_order.specs.code.Listed.{entry_in};

use search_order::{Entries, Entry};

// Holds one more yard; of more than k the last one goes.
pub fn hold(kept: &mut Entries, k: usize, e: Entry)
    requires { length kept.old < 256 }
    ensures held { kept.new ≡ hold k (entry_in e) kept.old }
    ensures room { (length kept.new ≤ k) × (length kept.new ≤ length kept.old + 1) }
{
    kept.insert(e);
    kept.truncate(k);
}
