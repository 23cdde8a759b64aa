#![tactic(auto)]
// The query book: its reader and its crews.
pub mod aggregate; // aggregate.rt: the aggregate that a query asks for

ghost use Rattle.std.specs.Prelude.{◌≡◌, ◌+◌, ◌*◌, ◌≤◌, ◌<◌, length, take};
ghost use Rattle.book.specs.Open.{open_refusal};
ghost use Rattle.book.specs.Refusals.{answer_number};
ghost use Rattle.query.specs.Query.{crew_count, crew_at, crews_of, inside};
ghost use Rattle.query.specs.Query.{value_refusal, query_refusal, query_of, query_book, query_answer};

use book::Junction;
use book::refusal::Refusal;

// What a query asks: the aggregate's code, k (how many yards), the limit of steps, and how many crews there are.
#[derive(Clone, Copy)]
pub struct Query {
    pub aggregate: u8,
    pub k: u8,
    pub limit: u32,
    pub crews: u8,
}

// What a book asks, by its header.
fn header(b: &[u8]) -> Query
    requires { 12 ≤ length b.now }
    ensures { result ≡ query_of b.now }
{
    Query {
        aggregate: book::u8_at(b, 5),
        k: book::u8_at(b, 6),
        limit: book::u32_at(b, 7),
        crews: book::u8_at(b, 11),
    }
}

// The junction of crew number i of a book that is read.
pub fn crew_at(b: &[u8], i: usize) -> Junction
    requires { (i < crew_count b.now) × (length b.now ≡ 12 + 2 * crew_count b.now) }
    ensures { result.number ≡ crew_at b.now i }
{
    Junction {
        number: book::u16_at(b, 12 + 2 * i),
    }
}

// Copies the crews' junctions of a book that is read.
pub fn crews(b: &[u8], out: &mut [u16]) -> usize
    requires { (length b.now ≡ 12 + 2 * crew_count b.now) × (crew_count b.now ≤ length out.old) }
    ensures count { result ≡ crew_count b.now }
    ensures crews { take (crew_count b.now) out.new ≡ crews_of b.now }
{
    let n = header(b).crews as usize;
    for i in 0..n {
        out[i] = crew_at(b, i).number;
    }
    n
}

// Whether each of the `count` crews of a book stands at a junction below n.
fn crews_inside(b: &[u8], count: usize, n: u16) -> bool
    requires { (count ≡ crew_count b.now) × (length b.now ≡ 12 + 2 * crew_count b.now) }
    ensures { result ≡ inside n (crews_of b.now) }
{
    for i in 0..count {
        if n <= crew_at(b, i).number {
            return false;
        }
    }
    true
}

// Test 11: the aggregate's code and k.
fn values(aggregate: u8, k: u8) -> Result<(), Refusal>
    ensures { answer_number result ≡ value_refusal aggregate k }
{
    if 1 < aggregate {
        return Err(Refusal::Number);
    }
    if k < 1 {
        return Err(Refusal::Number);
    }
    if 64 < k {
        return Err(Refusal::Number);
    }
    Ok(())
}

// The first test that turns back a book that opens and asks q, beside a road book with n junctions, if one does.
fn refusal(b: &[u8], q: Query, n: u16) -> Result<(), Refusal>
    requires { (open_refusal b.now 1 7 ≡ 0) × (q ≡ query_of b.now) }
    ensures { answer_number result ≡ query_refusal b.now n }
{
    let count = q.crews as usize;
    if b.len() != 12 + 2 * count {
        return Err(Refusal::Records);
    }
    if count < 1 {
        return Err(Refusal::Crews);
    }
    if 16 < count {
        return Err(Refusal::Crews);
    }
    if !crews_inside(b, count, n) {
        return Err(Refusal::Crews);
    }
    values(q.aggregate, q.k)
}

// Reads a query book beside a road book with n junctions: tests 1 to 4, then 10 and 11. It answers what the book asks.
pub fn read(b: &[u8], n: u16) -> Result<Query, Refusal>
    ensures { query_answer result ≡ query_book (query_refusal b.now n) (query_of b.now) }
{
    book::open(b, 1, 7)?;
    let q = header(b);
    refusal(b, q, n)?;
    Ok(q)
}
