// A district: a road book and a tree book beside it, read and tested.
ghost use Rattle.std.specs.Prelude.{◌≡◌, ◌≤◌, length, take, OnOk};
ghost use Rattle.book.specs.Refusals.{answer_number};
ghost use Rattle.adjacency.specs.Adjacency.{adjacency_words};
ghost use Rattle.tree_layout.specs.Decode.{region_count};
ghost use Rattle.tree.specs.Answer.{places_after, ends_after};
ghost use Rattle.search_call.specs.Call.{tree_refusal_in};
ghost use Rattle.search_tree.specs.code.District.{district_refusal, District};

use book::refusal::Refusal;

// The first of a tree book's tests that turns it back beside a road book with n junctions, if one does.
fn read_tree(tree: &[u8], n: u16, places: &mut [usize], ends: &mut [usize]) -> Result<(), Refusal>
    requires { (511 ≤ length places.old) × (511 ≤ length ends.old) }
    ensures answer { answer_number result ≡ tree_refusal_in tree.now n }
    ensures places { places.new ≡ places_after tree.now places.old }
    ensures ends { ends.new ≡ ends_after tree.now ends.old }
{
    let header = tree::read(tree, places, ends)?;
    if header.junctions != n {
        return Err(Refusal::Disagree);
    }
    Ok(())
}

// The first test that turns one of the two books back, if one does; if none does, the arrays reach into the books.
pub fn read(
    road: &[u8],
    tree: &[u8],
    adj: &mut [u16],
    places: &mut [usize],
    ends: &mut [usize],
) -> Result<(), Refusal>
    requires { (length adj.old ≡ adjacency_words) × (511 ≤ length places.old) × (511 ≤ length ends.old) }
    ensures answer { answer_number result ≡ district_refusal road.now tree.now }
    ensures district { OnOk result (District road.now tree.now adj.new
        (take (region_count tree.now) places.new)
        (take (region_count tree.now) ends.new)) }
{
    let counts = road::read(road, adj)?;
    read_tree(tree, counts.junctions, places, ends)
}
