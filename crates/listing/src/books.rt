// The three books that the input is taken apart into, and the search by them.
ghost use Rattle.std.specs.Prelude.{◌≡◌, ◌*◌, ◌≤◌, length};
ghost use Rattle.search_tree.specs.Found.{found_of, drive_of};
ghost use Rattle.listing.specs.Input.{book_end, found_in, results_in};

use crate::calls;
use search_tree::{Found, Goal};

// Where the first book of some bytes ends: after four bytes and as many more as those count, or at the end if that
// comes before.
fn book_end(s: &[u8]) -> usize
    ensures { result ≡ book_end s.now }
{
    let n = s.len();
    if n < 4 {
        return n;
    }
    let count = book::u32_at(s, 0) as usize;
    if n - 4 < count {
        return n;
    }
    4 + count
}

// Searches by the three books for what a goal asks, with a full work area.
pub fn find(input: &[u8], goal: Goal, results: &mut [u32]) -> Found
    ensures found { found_of result ≡ found_in input.now (drive_of goal) (length results.old) }
    ensures results { results.new
        ≡ results_in input.now (drive_of goal) results.old }
    ensures room { 2 * result.listed ≤ length results.old }
{
    let mut work = [0u32; work_area::WORDS];
    let end = book_end(input);
    let rest = &input[end..];
    let stop = book_end(rest);
    calls::search(
        &input[..end],
        &rest[..stop],
        &rest[stop..],
        goal,
        &mut work,
        results,
    )
}
