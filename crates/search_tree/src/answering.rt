// One query over a district.
ghost use Rattle.std.specs.Prelude.{◌≡◌, List, ℕ, length};
ghost use Rattle.book.specs.Refusals.{answer_number};
ghost use Rattle.work_area.specs.Work.{work_after};
ghost use Rattle.search_held.specs.code.Rules.{rule_of};
ghost use Rattle.search_call.specs.Call.{rule_by, most_by, areas_refusal, search_refusal, search_found, results_after};
ghost use Rattle.search_tree.specs.Found.{drive_of, want_of};
ghost use Rattle.search_tree.specs.code.District.{District, IsDistrict};
ghost use Rattle.search_tree.specs.Found.{found_by};

use crate::{Found, Goal, Want, accepted};
use book::refusal::Refusal;
use search_held::{Asked, Rule};
use tree_layout::records;

// What a search for the query's k yards, or within a drive, keeps.
fn rule_of(k: u8, goal: Goal) -> Rule
    ensures { rule_of result ≡ rule_by k (drive_of goal) }
{
    match goal {
        Goal::Nearest => Rule::Nearest(k),
        Goal::InDrive(seconds) => Rule::InDrive(seconds),
    }
}

// How many yards the result area must hold: k, or each yard of the tree.
fn most_yards(k: u16, yards: u16, goal: Goal) -> u16
    ensures { result ≡ most_by k yards (drive_of goal) }
{
    match goal {
        Goal::Nearest => k,
        Goal::InDrive(_) => yards,
    }
}

// Test 12, of a search that may list so many yards.
fn areas_refusal(yards: u16, work: usize, results: usize) -> Result<(), Refusal>
    ensures { answer_number result ≡ areas_refusal yards work results }
{
    if work < work_area::WORDS {
        return Err(Refusal::Area);
    }
    if results < 2 * (yards as usize) {
        return Err(Refusal::Area);
    }
    Ok(())
}

// Tests a query and the lent areas, and searches the district for what it asks.
pub fn answer(
    adj: &[u16],
    tree: &[u8],
    places: &[usize],
    ends: &[usize],
    query: &[u8],
    want: Want,
    work: &mut [u32],
    results: &mut [u32],
) -> Result<Found, Refusal>
    requires { IsDistrict tree.now adj.now places.now ends.now }
    ensures found { (road : List ℕ)
        → District road tree.now adj.now places.now ends.now
        → found_by result ≡ search_found road tree.now query.now
        (want_of want) (length work.old) (length results.old) }
    ensures work { (road : List ℕ)
        → District road tree.now adj.now places.now ends.now
        → work.new ≡ work_after (search_refusal road tree.now query.now
        (want_of want) (length work.old) (length results.old)) work.old }
    ensures results { (road : List ℕ)
        → District road tree.now adj.now places.now ends.now
        → results.new ≡ results_after road tree.now query.now
        (want_of want) (length work.old) results.old }
{
    let asked = query::read(query, adjacency::junctions(adj))?;
    let wanted = want.kinds;
    if wanted == 0 {
        return Err(Refusal::Wanted);
    }
    let goal = want.goal;
    let h = records::header(tree);
    let most = most_yards(asked.k as u16, h.yards, goal);
    areas_refusal(most, work.len(), results.len())?;
    let rule = rule_of(asked.k, goal);
    let given = Asked {
        aggregate: asked.aggregate,
        limit: asked.limit,
        rule,
        wanted,
    };
    Ok(accepted::search(adj, tree, places, ends, query, given, work, results))
}
