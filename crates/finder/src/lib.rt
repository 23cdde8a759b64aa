#![tactic(auto)]
// The calls of the planner, as functions; `finder_c` exports them to C under the same names, with the same clauses.
ghost use Rattle.std.specs.Prelude.{◌≡◌, length};
ghost use Rattle.book.specs.Bytes.{Bytes};
ghost use Rattle.book.specs.Refusals.{answer_number};
ghost use Rattle.work_area.specs.Work.{work_after};
ghost use Rattle.check_tree.specs.Check.{check_answer};
ghost use Rattle.build_tree.specs.Build.{build_answer, built_length, answer_length, tree_after};
ghost use Rattle.search_call.specs.Call.{want_nearest, want_within, search_refusal, search_found, results_after};
ghost use Rattle.search_tree.specs.Found.{found_of};
ghost use Rattle.finder.specs.Version.{version_number};

use book::refusal::Refusal;
use search_tree::{Found, Goal, Want};

// What a build returns: the number of the test that turns it back, or 0 and the tree's length.
#[repr(C)]
#[derive(Clone, Copy)]
pub struct Built {
    pub refusal: u32,
    pub length: u32,
}

// An answer in C's numbers: 0, or the number of the test that failed.
fn number(answer: Result<(), Refusal>) -> u32
    ensures { result ≡ answer_number answer }
{
    match answer {
        Ok(()) => 0,
        Err(why) => why.number() as u32,
    }
}

// A build's answer in C's numbers.
impl From<Result<u32, Refusal>> for Built {
    ghost from_gives = { λ answer built. (built.refusal ≡ answer_number answer) × (built.length ≡ answer_length answer) };

    fn from(answer: Result<u32, Refusal>) -> Built {
        match answer {
            Ok(length) => Built { refusal: 0, length },
            Err(why) => Built {
                refusal: why.number() as u32,
                length: 0,
            },
        }
    }
}

// Checks a tree book beside a road book and a yard book: 0, or the number of the first test that fails. An accepted
// call zeroes the first 16,384 work words.
pub fn finder_check(road: &[u8], yard: &[u8], tree: &[u8], work: &mut [u32]) -> u32
    ensures answer { result ≡ check_answer road.now yard.now tree.now (length work.old) }
    ensures work { work.new
        ≡ work_after (check_answer road.now yard.now tree.now (length work.old)) work.old }
    ensures bytes { Bytes road.now × Bytes yard.now × Bytes tree.now }
{
    number(check_tree::check(road, yard, tree, work))
}

// Builds the tree of a road book and a yard book, with m landmarks for each region, into a lent area: 0 and the tree's
// length, or the number of the first test that fails. An accepted call zeroes the first 16,384 work words and leaves
// the bytes after the tree.
pub fn finder_build(
    road: &[u8],
    yard: &[u8],
    m: u32,
    limit: u32,
    work: &mut [u32],
    tree: &mut [u8],
) -> Built
    ensures refusal { result.refusal ≡ build_answer road.now yard.now m limit
        (length work.old) (length tree.old) }
    ensures length { result.length ≡ built_length road.now yard.now m limit
        (length work.old) (length tree.old) }
    ensures work { work.new ≡ work_after (build_answer road.now yard.now m limit
        (length work.old) (length tree.old)) work.old }
    ensures tree { tree.new ≡ tree_after road.now yard.now m limit
        (length work.old) tree.old }
    ensures bytes { Bytes road.now × Bytes yard.now }
{
    Built::from(build_tree::build(road, yard, m, limit, work, tree))
}

// Searches a tree book beside a road book for what a query book asks, by steps up to its limit: settled, with the list
// written over the start of the result area, or spent; or the number of the first test that fails. An accepted call
// zeroes the first 16,384 work words.
pub fn finder_search(
    road: &[u8],
    tree: &[u8],
    query: &[u8],
    wanted: u8,
    work: &mut [u32],
    results: &mut [u32],
) -> Found
    ensures found { found_of result ≡ search_found road.now tree.now query.now
        (want_nearest wanted) (length work.old) (length results.old) }
    ensures work { work.new ≡ work_after (search_refusal road.now tree.now query.now (want_nearest wanted)
        (length work.old) (length results.old)) work.old }
    ensures results { results.new
        ≡ results_after road.now tree.now query.now
        (want_nearest wanted) (length work.old) results.old }
    ensures bytes { Bytes road.now × Bytes tree.now × Bytes query.now }
{
    let goal = Goal::Nearest;
    let nearest = Want {
        kinds: wanted,
        goal,
    };
    search_tree::search(road, tree, query, nearest, work, results)
}

// Searches a tree book beside a road book for every yard whose aggregate is at most so many seconds, by the query's
// aggregate, crews and limit of steps; its k is tested and not used. What it returns and writes is as in a search, and
// the result area holds two words for each yard of the tree.
pub fn finder_within(
    road: &[u8],
    tree: &[u8],
    query: &[u8],
    wanted: u8,
    seconds: u32,
    work: &mut [u32],
    results: &mut [u32],
) -> Found
    ensures found { found_of result ≡ search_found road.now tree.now query.now
        (want_within wanted seconds) (length work.old) (length results.old) }
    ensures work { work.new ≡ work_after (search_refusal road.now tree.now query.now (want_within wanted seconds)
        (length work.old) (length results.old)) work.old }
    ensures results { results.new
        ≡ results_after road.now tree.now query.now
        (want_within wanted seconds) (length work.old) results.old }
    ensures bytes { Bytes road.now × Bytes tree.now × Bytes query.now }
{
    let goal = Goal::InDrive(seconds);
    let within = Want {
        kinds: wanted,
        goal,
    };
    search_tree::search(road, tree, query, within, work, results)
}

// The version of these calls as a number, which the header has too.
pub fn finder_version() -> u32
    ensures { result ≡ version_number }
{
    20200
}
