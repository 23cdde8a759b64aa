#![tactic(auto)]
// A crew's least way to a yard, walked back from the yard by the crew's row of distances, until it is at the crew, or
// as soon as the aggregate exceeds a ceiling.
ghost use Rattle.std.specs.Prelude.{◌≡◌, ◌≢◌, List, ℕ, ◌+◌, ◌≤◌, ◌<◌, length};
ghost use Rattle.road_layout.specs.Road.{junctions};
ghost use Rattle.adjacency.specs.Arcs.{net};
ghost use Rattle.adjacency.specs.Adjacency.{count_in};
ghost use Rattle.road.specs.Dijkstra.{dist};
ghost use Rattle.search_rules.specs.Ceiling.{exceeds};
ghost use Rattle.search_measure.specs.Way.{came_by, over, least_way, way_answer};
ghost use Rattle.search_measure.specs.Facts.{Ways};
ghost use Rattle.search_measure.specs.code.Cases.{ceiling_of, budget_of, ended_of, count_of, most_spent};
ghost use Rattle.search_measure.specs.Crews.{measure_yard, yard_ways, Measures};
ghost use Rattle.search_measure.specs.code.Cases.{Steers, IsSteered, IsApart, Written};
ghost use Rattle.search_measure.specs.code.Cases.{measured_of, Measurable, IsMeasurable};

use book::Junction;
use search_bounds::numbers;

// The arc by which a least walk comes to a junction: the junction at its other end, and its seconds.
#[derive(Clone, Copy)]
pub struct Last {
    pub from: u16,
    pub seconds: u16,
}

// What a walk comes to: the crew, after so many seconds, or none of them, above the ceiling; and how many junctions it
// has walked on from.
#[derive(Clone, Copy)]
pub struct Arrival {
    pub seconds: Option<u32>,
    pub count: usize,
}

// What a yard's drives come to: their aggregate over the crews, and the furthest crew's.
#[derive(Clone, Copy)]
pub struct Numbers {
    pub total: u32,
    pub furthest: u32,
}

// Whether an aggregate exceeds a ceiling, if there is one.
fn exceeds(ceiling: Option<u32>, total: u32) -> bool
    ensures { result ≡ exceeds (ceiling_of ceiling) total }
{
    match ceiling {
        None => false,
        Some(seconds) => seconds < total,
    }
}

// Whether the aggregate of the crews before and some seconds exceeds a ceiling.
fn over(code: u8, spent: u32, ceiling: Option<u32>, t: u32) -> bool
    requires { spent + t ≤ 1072676880 }
    ensures { result ≡ over (budget_of code spent ceiling) t }
{
    exceeds(ceiling, numbers::combine(code, spent, t))
}

// The arc by which the row's crew comes to junction v: the first of v's whose other end is nearer by its seconds.
fn step(adj: &[u16], row: &[u32], v: u16) -> Last
    requires { IsApart adj.now row.now v × (length row.now ≡ 1024) }
    ensures { (road : List ℕ) (crew : ℕ) → Steers road adj.now row.now crew → v ≢ crew
        → (result.from ≡ (came_by (dist road crew) v (net road)).from)
        × (result.seconds ≡ (came_by (dist road crew) v (net road)).seconds) }
{
    let here = row[v as usize];
    let mut a = adjacency::head(adj, Junction { number: v });
    loop {
        let w = adjacency::to(adj, a);
        let s = adjacency::cost(adj, a);
        a = adjacency::next(adj, a);
        if row[w.number as usize] + s as u32 == here {
            return Last {
                from: w.number,
                seconds: s,
            };
        }
    }
}

// Walks back from a yard to a crew by the crew's row. The junctions walked on from stand in walked, the yard first.
pub fn way(
    adj: &[u16],
    row: &[u32],
    walked: &mut [u16],
    crew: Junction,
    yard: Junction,
    code: u8,
    spent: u32,
    ceiling: Option<u32>,
) -> Arrival
    requires { IsSteered adj.now row.now crew.number × (yard.number < count_in adj.now)
        × (length row.now ≡ 1024) × (length walked.old ≡ 1024) × (spent ≤ most_spent) }
    ensures ways { (road : List ℕ) → Steers road adj.now row.now crew.number
        → Ways (net road) (junctions road) (budget_of code spent ceiling) crew.number yard.number
        (least_way road (budget_of code spent ceiling) crew.number yard.number) (ended_of result) }
    ensures walk { (road : List ℕ) → Steers road adj.now row.now crew.number
        → (ended_of result ≡ way_answer road (budget_of code spent ceiling) crew.number yard.number)
        × Written (least_way road (budget_of code spent ceiling) crew.number yard.number) (count_of result)
        walked.new }
{
    let q = crew.number;
    let mut v = yard.number;
    let mut t: u32 = 0;
    let mut n: usize = 0;
    'walking: loop {
        if over(code, spent, ceiling, t) {
            return Arrival {
                seconds: None,
                count: n,
            };
        }
        if v == q {
            return Arrival {
                seconds: Some(t),
                count: n,
            };
        }
        let last = step(adj, row, v);
        walked[n] = v;
        n += 1;
        t += last.seconds as u32;
        v = last.from;
    }
}

// Measures a yard for some crews by a walk for each, to which its row of rows leads: both true numbers, or none, if the
// aggregate exceeds the ceiling. The junctions that the last of the
// walks has walked on from stand in walked.
pub fn measure(
    adj: &[u16],
    rows: &[u32],
    crews: &[u16],
    walked: &mut [u16],
    code: u8,
    ceiling: Option<u32>,
    yard: Junction,
) -> Option<Numbers>
    requires { IsMeasurable adj.now crews.now rows.now yard.number × (length walked.old ≡ 1024) }
    ensures measures { (road : List ℕ)
        → Measurable road adj.now crews.now rows.now yard.number
        → Measures road code crews.now (ceiling_of ceiling) yard.number (measured_of result)
        (yard_ways road code crews.now (ceiling_of ceiling) yard.number) }
    ensures run { (road : List ℕ)
        → Measurable road adj.now crews.now rows.now yard.number
        → measured_of result ≡ measure_yard road code crews.now (ceiling_of ceiling) yard.number }
{
    let mut total: u32 = 0;
    let mut furthest: u32 = 0;
    for (j, crew) in crews.iter().enumerate() {
        let at = j * 1024;
        let crew = Junction { number: *crew };
        let arrival = way(
            adj,
            &rows[at..at + 1024],
            walked,
            crew,
            yard,
            code,
            total,
            ceiling,
        );
        let seconds = arrival.seconds?;
        total = numbers::combine(code, total, seconds);
        furthest = furthest.max(seconds);
    }
    Some(Numbers { total, furthest })
}
