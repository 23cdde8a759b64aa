#![tactic(auto)]
// The calls of the planner, which is in C. A slice is a pointer and a count there; include/finder.h declares them and
// says what is lent. Each hands on to `finder`'s function of its name and has that function's clauses.
ghost use Rattle.std.specs.Prelude.{◌≡◌, length};
ghost use Rattle.book.specs.Bytes.{Bytes};
ghost use Rattle.work_area.specs.Work.{work_after};
ghost use Rattle.check_tree.specs.Check.{check_answer};
ghost use Rattle.build_tree.specs.Build.{build_answer, built_length, tree_after};
ghost use Rattle.search_call.specs.Call.{want_nearest, want_within, search_refusal, search_found, results_after};
ghost use Rattle.search_tree.specs.Found.{found_of};
ghost use Rattle.finder.specs.Version.{version_number};

use finder::Built;
use search_tree::Found;

// Checks a tree book beside a road book and a yard book: 0, or the number of the first test that fails. An accepted
// call zeroes the first 16,384 work words.
#[unsafe(no_mangle)]
pub extern "C" fn finder_check(road: &[u8], yard: &[u8], tree: &[u8], work: &mut [u32]) -> u32
    ensures answer { result ≡ check_answer road.now yard.now tree.now (length work.old) }
    ensures work { work.new
        ≡ work_after (check_answer road.now yard.now tree.now (length work.old)) work.old }
    ensures bytes { Bytes road.now × Bytes yard.now × Bytes tree.now }
{
    finder::finder_check(road, yard, tree, work)
}

// Builds the tree of a road book and a yard book, with m landmarks for each region, into a lent area: 0 and the tree's
// length, or the number of the first test that fails. An accepted call zeroes the first 16,384 work words and leaves
// the bytes after the tree.
#[unsafe(no_mangle)]
pub extern "C" fn finder_build(
    road: &[u8],
    yard: &[u8],
    m: u32,
    limit: u32,
    work: &mut [u32],
    tree: &mut [u8],
) -> Built
    ensures refusal { result.refusal ≡ build_answer road.now yard.now m limit
        (length work.old) (length tree.old) }
    ensures length { result.length ≡ built_length road.now yard.now m limit
        (length work.old) (length tree.old) }
    ensures work { work.new ≡ work_after (build_answer road.now yard.now m limit
        (length work.old) (length tree.old)) work.old }
    ensures tree { tree.new ≡ tree_after road.now yard.now m limit
        (length work.old) tree.old }
    ensures bytes { Bytes road.now × Bytes yard.now }
{
    finder::finder_build(road, yard, m, limit, work, tree)
}

// Searches a tree book beside a road book for what a query book asks, by steps up to its limit: settled, with the list
// written over the start of the result area, or spent; or the number of the first test that fails. An accepted call
// zeroes the first 16,384 work words.
#[unsafe(no_mangle)]
pub extern "C" fn finder_search(
    road: &[u8],
    tree: &[u8],
    query: &[u8],
    wanted: u8,
    work: &mut [u32],
    results: &mut [u32],
) -> Found
    ensures found { found_of result ≡ search_found road.now tree.now query.now
        (want_nearest wanted) (length work.old) (length results.old) }
    ensures work { work.new ≡ work_after (search_refusal road.now tree.now query.now (want_nearest wanted)
        (length work.old) (length results.old)) work.old }
    ensures results { results.new
        ≡ results_after road.now tree.now query.now
        (want_nearest wanted) (length work.old) results.old }
    ensures bytes { Bytes road.now × Bytes tree.now × Bytes query.now }
{
    finder::finder_search(road, tree, query, wanted, work, results)
}

// Searches a tree book beside a road book for every yard whose aggregate is at most so many seconds, by the query's
// aggregate, crews and limit of steps; its k is tested and not used. What it returns and writes is as in a search, and
// the result area holds two words for each yard of the tree.
#[unsafe(no_mangle)]
pub extern "C" fn finder_within(
    road: &[u8],
    tree: &[u8],
    query: &[u8],
    wanted: u8,
    seconds: u32,
    work: &mut [u32],
    results: &mut [u32],
) -> Found
    ensures found { found_of result ≡ search_found road.now tree.now query.now
        (want_within wanted seconds) (length work.old) (length results.old) }
    ensures work { work.new ≡ work_after (search_refusal road.now tree.now query.now (want_within wanted seconds)
        (length work.old) (length results.old)) work.old }
    ensures results { results.new
        ≡ results_after road.now tree.now query.now
        (want_within wanted seconds) (length work.old) results.old }
    ensures bytes { Bytes road.now × Bytes tree.now × Bytes query.now }
{
    finder::finder_within(road, tree, query, wanted, seconds, work, results)
}

// The version of these calls as a number, which the header has too.
#[unsafe(no_mangle)]
pub extern "C" fn finder_version() -> u32
    ensures { result ≡ version_number }
{
    finder::finder_version()
}
