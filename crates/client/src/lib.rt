#![tactic(auto)]
// A client of the calls: it builds a tree, checks what was built, and searches it and another, on the same areas. What
// it answers is proved from the calls' contracts alone, so that none of their clauses can go missing.
ghost use Rattle.std.specs.Prelude.{◌≡◌, length};
ghost use Rattle.work_area.specs.Work.{work_after};
ghost use Rattle.build_tree.specs.Build.{build_answer, built_length, tree_after};
ghost use Rattle.build_tree.specs.Facts.{written_book};
ghost use Rattle.search_call.specs.Call.{want_nearest, want_within};
ghost use Rattle.search_tree.specs.Found.{found_of};
ghost use Rattle.client.specs.Calls.{call_of, areas_of, InTurn};

use finder::Built;
use search_tree::Found;

// What is asked for: the landmarks of each region and the leaf limit of the tree, the kinds that both searches want,
// and the seconds of the second.
#[derive(Clone, Copy)]
pub struct Asked {
    pub m: u32,
    pub limit: u32,
    pub wanted: u8,
    pub seconds: u32,
}

// What two searches answer.
#[derive(Clone, Copy)]
pub struct Both {
    pub first: Found,
    pub second: Found,
}

// Builds a tree and checks it: the check's answer, which is the build's if that is accepted, and the tree's length. The
// work area is left as by two calls with the build's answer.
pub fn build_checked(
    road: &[u8],
    yard: &[u8],
    m: u32,
    limit: u32,
    work: &mut [u32],
    tree: &mut [u8],
) -> Built
    ensures refusal { result.refusal ≡ build_answer road.now yard.now m limit
        (length work.old) (length tree.old) }
    ensures length { result.length ≡ built_length road.now yard.now m limit
        (length work.old) (length tree.old) }
    ensures work { work.new
        ≡ work_after (build_answer road.now yard.now m limit
        (length work.old) (length tree.old))
        (work_after (build_answer road.now yard.now m limit
        (length work.old) (length tree.old)) work.old) }
    ensures tree { tree.new ≡ tree_after road.now yard.now m limit
        (length work.old) tree.old }
{
    let built = finder::finder_build(road, yard, m, limit, work, tree);
    if built.refusal != 0 {
        return built;
    }
    let n = built.length as usize;
    let why = finder::finder_check(road, yard, &tree[..n], work);
    Built {
        refusal: why,
        length: built.length,
    }
}

// Searches for the first yards, and then by other books within a drive, on the same areas: the second is given both as
// the first left them, and demand 3 speaks of the list of both.
pub fn search_twice(
    road: &[u8],
    tree: &[u8],
    query: &[u8],
    road2: &[u8],
    tree2: &[u8],
    query2: &[u8],
    wanted: u8,
    seconds: u32,
    work: &mut [u32],
    results: &mut [u32],
) -> Both
    ensures { InTurn
        (call_of road.now tree.now query.now (want_nearest wanted))
        (call_of road2.now tree2.now query2.now (want_within wanted seconds))
        (areas_of work.old results.old) (found_of result.first) (found_of result.second)
        (areas_of work.new results.new) }
{
    let first = finder::finder_search(road, tree, query, wanted, work, results);
    let second = finder::finder_within(road2, tree2, query2, wanted, seconds, work, results);
    Both { first, second }
}

// Builds a tree and checks it, then searches what was written and, by other books, once more: a tree that is not built
// is no book, which a search refuses.
pub fn build_and_search(
    road: &[u8],
    yard: &[u8],
    asked: Asked,
    query: &[u8],
    road2: &[u8],
    tree2: &[u8],
    query2: &[u8],
    work: &mut [u32],
    tree: &mut [u8],
    results: &mut [u32],
) -> Both
    ensures searches { InTurn
        (call_of road.now
        (written_book road.now yard.now asked.m asked.limit (length work.old)
        tree.old)
        query.now (want_nearest asked.wanted))
        (call_of road2.now tree2.now query2.now
        (want_within asked.wanted asked.seconds))
        (areas_of (work_after (build_answer road.now yard.now asked.m asked.limit
        (length work.old) (length tree.old))
        (work_after (build_answer road.now yard.now asked.m asked.limit
        (length work.old) (length tree.old)) work.old)) results.old)
        (found_of result.first) (found_of result.second) (areas_of work.new results.new) }
    ensures tree { tree.new ≡ tree_after road.now yard.now asked.m asked.limit
        (length work.old) tree.old }
{
    let built = build_checked(road, yard, asked.m, asked.limit, work, tree);
    let n = built.length as usize;
    let wanted = asked.wanted;
    let seconds = asked.seconds;
    search_twice(
        road,
        &tree[..n],
        query,
        road2,
        tree2,
        query2,
        wanted,
        seconds,
        work,
        results,
    )
}
