// The call that a goal asks for, of yards of any kind: "The list program wants 255."
ghost use Rattle.std.specs.Prelude.{◌≡◌, ◌*◌, ◌≤◌, length};
ghost use Rattle.search_call.specs.Call.{want_any, search_found, results_after};
ghost use Rattle.search_tree.specs.Found.{found_of, drive_of};

use kinds::ANY;
use search_tree::{Found, Goal};

// Searches for the first k yards, or for all within some seconds. There are two result words for each yard listed.
pub fn search(
    road: &[u8],
    tree: &[u8],
    query: &[u8],
    goal: Goal,
    work: &mut [u32],
    results: &mut [u32],
) -> Found
    ensures found { found_of result
        ≡ search_found road.now tree.now query.now (want_any (drive_of goal))
        (length work.old) (length results.old) }
    ensures results { results.new
        ≡ results_after road.now tree.now query.now (want_any (drive_of goal))
        (length work.old) results.old }
    ensures room { 2 * result.listed ≤ length results.old }
{
    match goal {
        Goal::Nearest => finder::finder_search(road, tree, query, ANY, work, results),
        Goal::InDrive(seconds) => {
            finder::finder_within(road, tree, query, ANY, seconds, work, results)
        },
    }
}
