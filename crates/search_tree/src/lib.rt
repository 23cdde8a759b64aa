#![tactic(auto)]
// Search: the yards of a tree book that the crews reach first.
mod accepted; // accepted.rt: a call that no test turns back
mod answering; // answering.rt: one query over a district
mod district; // district.rt: a road book and a tree book beside it, read and tested

ghost use Rattle.std.specs.Prelude.{◌≡◌, length};
ghost use Rattle.book.specs.Refusals.{refusal_number};
ghost use Rattle.work_area.specs.Work.{work_after};
ghost use Rattle.search_call.specs.Call.{refused, search_refusal, search_found, results_after};
ghost use Rattle.search_tree.specs.Found.{found_of, found_by, want_of};

use book::refusal::Refusal;
use tree_layout::records;

// What a search is for: the first k yards of its query, or those within so many seconds.
#[derive(Clone, Copy)]
pub enum Goal {
    Nearest,
    InDrive(u32),
}

// What a call wants beside its books: yards of which kinds, and which of them.
#[derive(Clone, Copy)]
pub struct Want {
    pub kinds: u8,
    pub goal: Goal,
}

// What a search returns; settled is 1 or 0.
#[repr(C)]
#[derive(Clone, Copy)]
pub struct Found {
    pub refusal: u32,
    pub settled: u32,
    pub listed: u32,
    pub taken: u32,
    pub measured: u32,
}

// "A refusal returns its number, with every other returned field 0".
fn refused(why: Refusal) -> Found
    ensures { found_of result ≡ refused (refusal_number why) }
{
    Found {
        refusal: why.number() as u32,
        settled: 0,
        listed: 0,
        taken: 0,
        measured: 0,
    }
}

// Tests the books and the lent areas, and searches the tree for what the query asks and the call wants.
fn answer(
    road: &[u8],
    tree: &[u8],
    query: &[u8],
    want: Want,
    work: &mut [u32],
    results: &mut [u32],
) -> Result<Found, Refusal>
    ensures found { found_by result ≡ search_found road.now tree.now query.now
        (want_of want) (length work.old) (length results.old) }
    ensures work { work.new ≡ work_after (search_refusal road.now tree.now query.now (want_of want)
        (length work.old) (length results.old)) work.old }
    ensures results { results.new
        ≡ results_after road.now tree.now query.now
        (want_of want) (length work.old) results.old }
{
    let mut adj = [0u16; adjacency::WORDS];
    let mut places = [0usize; tree::REGIONS];
    let mut ends = [0usize; tree::REGIONS];
    district::read(road, tree, &mut adj, &mut places, &mut ends)?;
    let header = records::header(tree);
    let r = header.regions as usize;
    answering::answer(
        &adj,
        tree,
        &places[..r],
        &ends[..r],
        query,
        want,
        work,
        results,
    )
}

// Searches a tree beside a road book for what a query asks and a call wants. An accepted call zeroes the first 16,384
// work words; one that is turned back changes nothing.
pub fn search(
    road: &[u8],
    tree: &[u8],
    query: &[u8],
    want: Want,
    work: &mut [u32],
    results: &mut [u32],
) -> Found
    ensures found { found_of result ≡ search_found road.now tree.now query.now
        (want_of want) (length work.old) (length results.old) }
    ensures work { work.new ≡ work_after (search_refusal road.now tree.now query.now (want_of want)
        (length work.old) (length results.old)) work.old }
    ensures results { results.new
        ≡ results_after road.now tree.now query.now
        (want_of want) (length work.old) results.old }
{
    match answer(road, tree, query, want, work, results) {
        Ok(found) => found,
        Err(why) => refused(why),
    }
}
