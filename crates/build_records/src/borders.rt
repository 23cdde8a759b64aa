// A range's border junctions and landmarks.
ghost use Rattle.std.specs.Prelude.{◌≡◌, List, ℕ, ◌+◌, ◌≤◌, ◌<◌, length, take};
ghost use Rattle.road_layout.specs.Road.{roads};
ghost use Rattle.adjacency.specs.Adjacency.{Adjacency, IsAdjacency};
ghost use Rattle.build_rules.specs.Cut.{is_border, borders, landmark};

use book::Junction;

// Whether a road leads from junction v out of the range from a with s junctions.
fn is_border(adj: &[u16], a: usize, s: usize, v: u16) -> bool
    requires { IsAdjacency adj.now × (v < 1024) × (a + s ≤ 1024) }
    ensures { (road : List ℕ) → Adjacency road adj.now → result ≡ is_border (roads road) a s v }
{
    let mut x = adjacency::head(adj, Junction { number: v });
    while x != 0 {
        let u = adjacency::to(adj, x).number as usize;
        if u < a || a + s <= u {
            return true;
        }
        x = adjacency::next(adj, x);
    }
    false
}

// Lists the border junctions of the range from a with s junctions, in rising order, at the start of a lent area: how many.
pub fn border_list(adj: &[u16], a: Junction, s: usize, list: &mut [u16]) -> usize
    requires { IsAdjacency adj.now × (a.number + s ≤ 1024) × (s ≤ length list.old) }
    ensures count { result ≤ s }
    ensures list { (road : List ℕ) → Adjacency road adj.now
        → take result list.new ≡ borders (roads road) a.number s }
{
    let low = a.number as usize;
    let mut n: usize = 0;
    for v in low..low + s {
        let number = v as u16;
        if is_border(adj, low, s, number) {
            list[n] = number;
            n += 1;
        }
    }
    n
}

// The border junctions of the range from a with s junctions, in rising order, listed in a lent area.
pub fn borders_in<'a>(adj: &[u16], a: Junction, s: usize, area: &'a mut [u16]) -> &'a [u16]
    requires { IsAdjacency adj.now × (a.number + s ≤ 1024) × (s ≤ length area.old) }
    ensures count { length result.now ≤ s }
    ensures list { (road : List ℕ) → Adjacency road adj.now
        → result.now ≡ borders (roads road) a.number s }
{
    let n = border_list(adj, a, s, area);
    &area[..n]
}

// Landmark j of m, from the border junctions of the range from a with s junctions.
pub fn landmark_of(list: &[u16], m: usize, a: Junction, s: usize, j: usize) -> Junction
    requires { (length list.now ≤ 1024) × (j < m) × (m ≤ 4) × (a.number + s ≤ 1024) × (0 < s) }
    ensures { result.number ≡ landmark m a.number s list.now j }
{
    let c = list.len();
    let number = if c == 0 {
        (a.number as usize + j * s / m) as u16
    } else {
        list[j * c / m]
    };
    Junction { number }
}
