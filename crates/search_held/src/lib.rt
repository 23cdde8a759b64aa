#![tactic(auto)]
// The held yards of a search: those that its rule keeps of the measured ones, in yard order.
ghost use Rattle.std.specs.Prelude.{◌≡◌, ◌+◌, ◌≤◌, ◌<◌, length};
ghost use Rattle.search_rules.specs.Keeping.{keep_by, enough_by};
ghost use Rattle.search_rules.specs.Ceiling.{ceiling_by};
ghost use Rattle.search_measure.specs.code.Cases.{ceiling_of};
ghost use Rattle.search_order.specs.code.Listed.{entry_in};
ghost use Rattle.search_held.specs.code.Rules.{rule_of};

use search_order::{Entries, Entry};

// What a search keeps of the yards that it measures: the first so many, or those within so many seconds.
#[derive(Clone, Copy)]
pub enum Rule {
    Nearest(u8),
    InDrive(u32),
}

// What a search is asked: the aggregate's code, the limit of its steps, its rule, and the wanted kinds.
#[derive(Clone, Copy)]
pub struct Asked {
    pub aggregate: u8,
    pub limit: u32,
    pub rule: Rule,
    pub wanted: u8,
}

// Keeps one more measured yard, if the rule lets it.
pub fn keep(kept: &mut Entries, rule: Rule, e: Entry)
    requires { length kept.old < 256 }
    ensures held { kept.new ≡ keep_by (rule_of rule) (entry_in e) kept.old }
    ensures room { length kept.new ≤ length kept.old + 1 }
{
    match rule {
        Rule::Nearest(k) => search_first::hold(kept, k as usize, e),
        Rule::InDrive(seconds) => search_drive::keep(kept, seconds, e),
    }
}

// Whether what is kept is enough, by the least queued key.
pub fn enough(kept: &Entries, rule: Rule, least: u64) -> bool
    ensures { result ≡ enough_by (rule_of rule) kept.now least }
{
    match rule {
        Rule::Nearest(k) => kept.len() == k as usize && (kept.greatest() as u64) < least,
        Rule::InDrive(seconds) => (seconds as u64) < least,
    }
}

// What the next yard that is measured is held against: the k-th held distance once k are held, or a drive's seconds.
pub fn ceiling(kept: &Entries, rule: Rule) -> Option<u32>
    ensures { ceiling_of result ≡ ceiling_by (rule_of rule) kept.now }
{
    match rule {
        Rule::Nearest(k) if kept.len() == k as usize => Some(kept.greatest()),
        Rule::Nearest(_) => None,
        Rule::InDrive(seconds) => Some(seconds),
    }
}
