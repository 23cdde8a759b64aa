// The landmark table and the crews' rows: "The sheet holds d from the root's landmarks r to every junction."
ghost use Rattle.std.specs.Prelude.{◌≡◌, List, ℕ, ◌*◌, ◌≤◌, length};
ghost use Rattle.adjacency.specs.Adjacency.{count_in, Adjacency, IsAdjacency};
ghost use Rattle.road.specs.code.Rows.{Within, Rowed};
ghost use Rattle.tree_layout.specs.Decode.{junction_count, landmark_count};
ghost use Rattle.tree_layout.specs.Facts.{TreeLayout};
ghost use Rattle.tree_layout.specs.code.Marks.{RecordAt};
ghost use Rattle.search_bounds.specs.code.Rows.{table_words};
ghost use Rattle.search_bounds.specs.code.Tables.{root_places};

use tree_layout::{landmarks, records};

// The words of a landmark table: four rows of 1,024.
pub const WORDS: usize = 4096;

// The junctions of the root's landmarks.
fn root_places(tree: &[u8], places: &mut [u16])
    requires { RecordAt tree.now 12 × (length places.old ≡ landmark_count tree.now) }
    ensures { places.new ≡ root_places tree.now }
{
    for (r, place) in places.iter_mut().enumerate() {
        let k = landmarks::landmark(tree, records::FIRST_RECORD, r);
        *place = k.place.number;
    }
}

// Fills in the landmark table and a row for each crew, by walks over the roads.
pub fn prepare(adj: &[u16], tree: &[u8], crews: &[u16], table: &mut [u32], drives: &mut [u32])
    requires { IsAdjacency adj.now × TreeLayout tree.now × (junction_count tree.now ≡ count_in adj.now)
        × Within (count_in adj.now) crews.now × (length table.old ≡ table_words)
        × (1024 * length crews.now ≤ length drives.old) }
    ensures table { (road : List ℕ) → Adjacency road adj.now
        → Rowed road (root_places tree.now) table.new }
    ensures drives { (road : List ℕ) → Adjacency road adj.now
        → Rowed road crews.now drives.new }
{
    let mut places = [0u16; 4];
    let h = records::header(tree);
    let m = h.landmarks as usize;
    root_places(tree, &mut places[..m]);
    road::rows::fill(adj, &places[..m], table);
    road::rows::fill(adj, crews, drives);
}
