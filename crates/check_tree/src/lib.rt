#![tactic(auto)]
// Check: whether a tree book is true beside a road book and a yard book.
mod yards; // yards.rt: whether a tree's yards are the yard book's

ghost use Rattle.std.specs.Prelude.{◌≡◌, List, ℕ, length};
ghost use Rattle.book.specs.Refusals.{answer_number};
ghost use Rattle.work_area.specs.Work.{work_after};
ghost use Rattle.adjacency.specs.Adjacency.{Adjacency, IsAdjacency};
ghost use Rattle.yard.specs.Yards.{yard_refusal};
ghost use Rattle.check_tree.specs.Check.{tree_refusal_beside, check_answer};

use book::refusal::Refusal;

// The first test that turns a tree book back beside a road book's adjacency and a yard book, if one does.
fn tree_refusal(adj: &[u16], yard: &[u8], tree: &[u8]) -> Result<(), Refusal>
    requires { IsAdjacency adj.now × (yard_refusal yard.now ≡ 0) }
    ensures { (road : List ℕ) → Adjacency road adj.now
        → answer_number result ≡ tree_refusal_beside road yard.now tree.now }
{
    let mut places = [0usize; tree::REGIONS];
    let mut ends = [0usize; tree::REGIONS];
    let header = tree::read(tree, &mut places, &mut ends)?;
    if header.junctions != adjacency::junctions(adj) {
        return Err(Refusal::Disagree);
    }
    if header.yards != yard::count(yard) {
        return Err(Refusal::Disagree);
    }
    if !yards::yards_known(yard, tree) {
        return Err(Refusal::Disagree);
    }
    if !check_distances::numbers_true(adj, yard, tree) {
        return Err(Refusal::Distance);
    }
    if !check_kinds::kinds_true(yard, tree) {
        return Err(Refusal::Distance);
    }
    Ok(())
}

// The first test that turns a check of three books with so many work words back, if one does.
fn refusal(road: &[u8], yard: &[u8], tree: &[u8], words: usize) -> Result<(), Refusal>
    ensures { answer_number result ≡ check_answer road.now yard.now tree.now words }
{
    let mut adj = [0u16; adjacency::WORDS];
    let counts = road::read(road, &mut adj)?;
    yard::read_in(yard, counts.junctions)?;
    tree_refusal(&adj, yard, tree)?;
    if words < work_area::WORDS {
        return Err(Refusal::Area);
    }
    Ok(())
}

// Checks a tree book beside a road book and a yard book, or answers the first test that fails.
// An accepted call zeroes the first 16,384 work words.
pub fn check(road: &[u8], yard: &[u8], tree: &[u8], work: &mut [u32]) -> Result<(), Refusal>
    ensures answer { answer_number result
        ≡ check_answer road.now yard.now tree.now (length work.old) }
    ensures work { work.new
        ≡ work_after (check_answer road.now yard.now tree.now
        (length work.old)) work.old }
{
    refusal(road, yard, tree, work.len())?;
    work_area::zero_words(work);
    Ok(())
}
