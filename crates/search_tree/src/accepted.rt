// A call that no test turns back: its rows, its steps, and what it reports.
ghost use Rattle.std.specs.Prelude.{◌≡◌, List, ℕ, ◌*◌, ◌≤◌, length};
ghost use Rattle.work_area.specs.Work.{work_words, zeroed};
ghost use Rattle.query.specs.Query.{limit_of};
ghost use Rattle.search_run.specs.code.Answers.{answer_of};
ghost use Rattle.search_held.specs.code.Rules.{asking_of};
ghost use Rattle.search_call.specs.Call.{accepted};
ghost use Rattle.search_tree.specs.code.Asking.{AcceptedBy, answer_by};
ghost use Rattle.search_tree.specs.code.District.{District, IsDistrict};
ghost use Rattle.search_tree.specs.Found.{found_of, written_by};

use crate::Found;
use search_bounds::table;
use search_held::Asked;
use search_run::Outcome;

// The most crews that a query has.
const CREWS: usize = 16;

// "Settled writes (yard, distance) words into the result area and nothing after them; spent writes nothing there."
fn report(o: &Outcome, results: &mut [u32]) -> Found
    requires { 2 * length (answer_of o.now).listed ≤ length results.old }
    ensures found { found_of result ≡ accepted (answer_of o.now) }
    ensures results { results.new ≡ written_by (answer_of o.now) results.old }
{
    let measured = o.progress.measured as u32;
    if !o.settled {
        return Found {
            refusal: 0,
            settled: 0,
            listed: 0,
            taken: o.taken,
            measured,
        };
    }
    let kept = &o.progress.kept;
    kept.write(results);
    let listed = kept.len() as u32;
    Found {
        refusal: 0,
        settled: 1,
        listed,
        taken: o.taken,
        measured,
    }
}

// Searches a district for what a query asks. The crews' rows stand in the work area, which is zeroed then.
pub fn search(
    adj: &[u16],
    tree: &[u8],
    places: &[usize],
    ends: &[usize],
    query: &[u8],
    asked: Asked,
    work: &mut [u32],
    results: &mut [u32],
) -> Found
    requires { IsDistrict tree.now adj.now places.now ends.now × (asked.limit ≡ limit_of query.now)
        × ((road : List ℕ) → District road tree.now adj.now places.now ends.now
        → AcceptedBy road tree.now query.now (asking_of asked) (length work.old) (length results.old)) }
    ensures found { (road : List ℕ)
        → District road tree.now adj.now places.now ends.now
        → found_of result ≡ accepted (answer_by road tree.now query.now (asking_of asked)) }
    ensures work { work.new ≡ zeroed work_words work.old }
    ensures results { (road : List ℕ)
        → District road tree.now adj.now places.now ends.now
        → results.new
        ≡ written_by (answer_by road tree.now query.now (asking_of asked))
        results.old }
{
    let mut crews = [0u16; CREWS];
    let q = query::crews(query, &mut crews);
    let mut table = [0u32; table::WORDS];
    table::prepare(
        adj,
        tree,
        &crews[..q],
        &mut table,
        &mut work[..work_area::WORDS],
    );
    let o = search_run::run(
        adj,
        tree,
        places,
        ends,
        &table,
        &work[..work_area::WORDS],
        &crews[..q],
        asked,
    );
    work_area::zero_words(work);
    report(&o, results)
}
