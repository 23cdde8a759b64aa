#![tactic(auto)]
// The yard book: its reader and its yards.
ghost use Rattle.std.specs.Prelude.{◌≡◌, ◌≤◌, ◌<◌, length, get_or, replicate};
ghost use Rattle.book.specs.Refusals.{answer_number};
ghost use Rattle.yard.specs.Yards.{yard_count, yard_place, yards_from, yards_of, yard_kind, yards_rise};
ghost use Rattle.yard.specs.Yards.{kinds_set, kind_table};
ghost use Rattle.yard.specs.Yards.{yard_refusal, yard_refusal_in, yard_book, yard_answer};

use book::Junction;
use book::refusal::Refusal;

// The latest version of a yard book.
pub const LATEST: u8 = 2;

// Where yard number i stands.
fn place(b: &[u8], i: usize) -> usize
    requires { (5 ≤ length b.now) × (i ≤ 65535) }
    ensures { result ≡ yard_place b.now i }
{
    7 + i * (2 + kinds::size(book::version(b)))
}

// Whether each of the `count` yards is below 1,024 and above the one before.
fn yards_rise(b: &[u8], count: usize) -> bool
    requires { (5 ≤ length b.now) × (count ≤ 65535) × (yard_place b.now count ≤ length b.now) }
    ensures { result ≡ yards_rise 0 (yards_from b.now count 0) }
{
    let mut low: u16 = 0;
    for i in 0..count {
        let y = book::u16_at(b, place(b, i));
        if y < low {
            return false;
        }
        if 1024 <= y {
            return false;
        }
        low = y + 1;
    }
    true
}

// Whether each of the `count` yards has a kind.
fn kinds_set(b: &[u8], count: usize) -> bool
    requires { (5 ≤ length b.now) × (count ≤ 65535) × (yard_place b.now count ≤ length b.now) }
    ensures { result ≡ kinds_set b.now count 0 }
{
    for i in 0..count {
        if kinds::at(book::version(b), b, place(b, i) + 2) == 0 {
            return false;
        }
    }
    true
}

// The first test that turns the book back, if one does.
fn refusal(b: &[u8]) -> Result<(), Refusal>
    ensures { answer_number result ≡ yard_refusal b.now }
{
    book::open(b, LATEST, 2)?;
    let count = book::u16_at(b, 5) as usize;
    if count < 1 {
        return Err(Refusal::Header);
    }
    if 256 < count {
        return Err(Refusal::Header);
    }
    if b.len() != place(b, count) {
        return Err(Refusal::Records);
    }
    if !yards_rise(b, count) {
        return Err(Refusal::Value);
    }
    if !kinds_set(b, count) {
        return Err(Refusal::Value);
    }
    Ok(())
}

// How many yards a book has that is read.
pub fn count(b: &[u8]) -> u16
    requires { yard_refusal b.now ≡ 0 }
    ensures { result ≡ yard_count b.now }
{
    book::u16_at(b, 5)
}

// Reads a yard book: tests 1 to 5, each over the whole book before the next. It answers how many yards the book has.
pub fn read(b: &[u8]) -> Result<u16, Refusal>
    ensures { yard_answer result ≡ yard_book (yard_refusal b.now) (yard_count b.now) }
{
    refusal(b)?;
    Ok(count(b))
}

// Yard number i of a book that is read.
pub fn yard_at(b: &[u8], i: usize) -> Junction
    requires { (yard_refusal b.now ≡ 0) × (i < yard_count b.now) }
    ensures { result.number ≡ get_or (yards_of b.now) i 0 }
{
    Junction {
        number: book::u16_at(b, place(b, i)),
    }
}

// The kinds of yard number i of a book that is read.
pub fn kinds_at(b: &[u8], i: usize) -> u8
    requires { (yard_refusal b.now ≡ 0) × (i < yard_count b.now) }
    ensures { result ≡ yard_kind b.now i }
{
    kinds::at(book::version(b), b, place(b, i) + 2)
}

// Sets the kinds of a book's yards by junction, in a table of zeros.
pub fn kind_table(b: &[u8], table: &mut [u8])
    requires { (yard_refusal b.now ≡ 0) × (table.old ≡ replicate 1024 0) }
    ensures { table.new ≡ kind_table b.now }
{
    for i in 0..count(b) as usize {
        let y = yard_at(b, i).number as usize;
        table[y] = kinds_at(b, i);
    }
}

// Reads a yard book beside a road book with so many junctions: tests 1 to 5, then 8.
pub fn read_in(b: &[u8], junctions: u16) -> Result<u16, Refusal>
    ensures { yard_answer result ≡ yard_book (yard_refusal_in b.now junctions) (yard_count b.now) }
{
    let count = read(b)?;
    let last = yard_at(b, count as usize - 1);
    if junctions <= last.number {
        return Err(Refusal::Disagree);
    }
    Ok(count)
}
