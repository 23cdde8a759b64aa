#![tactic(auto)]
// The yards within a drive so far, in yard order.
ghost use Rattle.std.specs.Prelude.{◌≡◌, ◌+◌, ◌≤◌, ◌<◌, length};
ghost use Rattle.search_rules.specs.Rule.{in_drive};
ghost use Rattle.search_rules.specs.Keeping.{keep_by};
ghost use Rattle.search_order.specs.code.Listed.{entry_in};

use search_order::{Entries, Entry};

// Keeps one more measured yard, if it is within the seconds.
pub fn keep(kept: &mut Entries, seconds: u32, e: Entry)
    requires { length kept.old < 256 }
    ensures held { kept.new ≡ keep_by (in_drive seconds) (entry_in e) kept.old }
    ensures room { length kept.new ≤ length kept.old + 1 }
{
    if e.distance <= seconds {
        kept.insert(e);
    }
}
