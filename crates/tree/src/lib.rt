#![tactic(auto)]
// The tree book: its shape, and the arrays that reach its regions.
mod arrays;
pub mod regions;
mod shape;

ghost use Rattle.std.specs.Prelude.{◌≡◌, ◌≤◌, length};
ghost use Rattle.book.specs.Refusals.{answer_number};
ghost use Rattle.tree_layout.specs.Refusal.{tree_layout_refusal};
ghost use Rattle.tree.specs.Shape.{tree_refusal};
ghost use Rattle.tree.specs.Answer.{shape_answer, tree_of, places_after, ends_after};

use book::refusal::Refusal;
use tree_layout::{Header, records};

// The most regions that a tree has.
pub const REGIONS: usize = 511;

// Test 7 of a book of sound layout. The arrays then hold each record's place and, if it passes, each subtree's end.
fn shape_refusal(b: &[u8], places: &mut [usize], ends: &mut [usize]) -> Result<(), Refusal>
    requires { (tree_layout_refusal b.now ≡ 0) × (511 ≤ length places.old) × (511 ≤ length ends.old) }
    ensures answer { answer_number result ≡ tree_refusal b.now }
    ensures places { places.new ≡ places_after b.now places.old }
    ensures ends { ends.new ≡ ends_after b.now ends.old }
{
    arrays::fill_places(b, places);
    let h = records::header(b);
    let n = h.regions as usize;
    if !shape::keeps_shape(b, &places[..n]) {
        return Err(Refusal::Shape);
    }
    arrays::fill_ends(b, &places[..n], ends);
    Ok(())
}

// Reads a tree book: tests 1 to 5, then 7. If accepted, the arrays hold each record's place and each subtree's end.
pub fn read(b: &[u8], places: &mut [usize], ends: &mut [usize]) -> Result<Header, Refusal>
    requires { (511 ≤ length places.old) × (511 ≤ length ends.old) }
    ensures answer { shape_answer result ≡ tree_of b.now }
    ensures places { places.new ≡ places_after b.now places.old }
    ensures ends { ends.new ≡ ends_after b.now ends.old }
{
    let h = tree_layout::read(b)?;
    shape_refusal(b, places, ends)?;
    Ok(h)
}
