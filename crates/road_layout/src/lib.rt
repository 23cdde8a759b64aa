#![tactic(auto)]

ghost use Rattle.std.specs.Prelude.{◌≡◌, ◌+◌, ◌*◌, ◌≤◌, length};
ghost use Rattle.road_layout.specs.Road.{junctions, road_count, road_at};
ghost use Rattle.road_layout.specs.Layout.{road_ok, roads_ok, road_layout_refusal, told, road_answer};

use book::Junction;
use book::refusal::Refusal;

// What a road book's header counts.
#[derive(Clone, Copy, Debug, PartialEq, Eq)]
pub struct Counts {
    pub junctions: u16,
    pub roads: u16,
}

// A road: its low end, its high end and its seconds.
#[derive(Clone, Copy)]
pub struct Road {
    pub low: Junction,
    pub high: Junction,
    pub seconds: u16,
}

// How many junctions a book's header says there are.
pub fn junction_count(b: &[u8]) -> u16
    requires { 9 ≤ length b.now }
    ensures { result ≡ junctions b.now }
{
    book::u16_at(b, 5)
}

// How many roads it says there are.
pub fn road_count(b: &[u8]) -> u16
    requires { 9 ≤ length b.now }
    ensures { result ≡ road_count b.now }
{
    book::u16_at(b, 7)
}

// Road k, counted from 0.
pub fn road_at(b: &[u8], k: usize) -> Road
    requires { 9 + 6 * k + 6 ≤ length b.now }
    ensures { (result.low.number ≡ (road_at b.now k).low)
        × (result.high.number ≡ (road_at b.now k).high)
        × (result.seconds ≡ (road_at b.now k).seconds) }
{
    let at = 9 + 6 * k;
    let low = Junction {
        number: book::u16_at(b, at),
    };
    let high = Junction {
        number: book::u16_at(b, at + 2),
    };
    Road {
        low,
        high,
        seconds: book::u16_at(b, at + 4),
    }
}

// Whether a road fits n junctions, and its pair of ends comes after the pair (l, h).
fn road_ok(n: u16, l: u16, h: u16, road: Road) -> bool
    ensures { result ≡ road_ok n l h
        (record { low = road.low.number; high = road.high.number; seconds = road.seconds }) }
{
    let low = road.low.number;
    let high = road.high.number;
    if high <= low {
        return false;
    }
    if n <= high {
        return false;
    }
    if road.seconds < 1 {
        return false;
    }
    if l < low {
        return true;
    }
    if l != low {
        return false;
    }
    h < high
}

// Whether each of `count` roads fits n junctions, and their pairs of ends rise.
fn roads_ok(b: &[u8], count: usize, n: u16) -> bool
    requires { 9 + 6 * count ≤ length b.now }
    ensures { result ≡ roads_ok b.now n count 0 0 0 }
{
    let mut l: u16 = 0;
    let mut h: u16 = 0;
    for k in 0..count {
        let road = road_at(b, k);
        if !road_ok(n, l, h, road) {
            return false;
        }
        l = road.low.number;
        h = road.high.number;
    }
    true
}

// Reads a road book through tests 1 to 5: its counts.
pub fn read(b: &[u8]) -> Result<Counts, Refusal>
    ensures { road_answer result
        ≡ told (road_layout_refusal b.now) (junctions b.now) (road_count b.now) }
{
    book::open(b, 1, 4)?;
    let n = junction_count(b);
    let roads = road_count(b);
    if n < 1 {
        return Err(Refusal::Header);
    }
    if 1024 < n {
        return Err(Refusal::Header);
    }
    if 4096 < roads {
        return Err(Refusal::Header);
    }
    let count = roads as usize;
    if b.len() != 9 + 6 * count {
        return Err(Refusal::Records);
    }
    if !roads_ok(b, count, n) {
        return Err(Refusal::Value);
    }
    Ok(Counts {
        junctions: n,
        roads,
    })
}
