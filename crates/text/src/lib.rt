#![tactic(auto)]
// Text in an array of bytes: some bytes, or a number in decimal, appended to what is held.
ghost use Rattle.std.specs.Prelude.{◌≡◌, List, [], ℕ, ◌++◌, ◌+◌, ◌≤◌, length, take};
ghost use Rattle.text.specs.Text.{decimal, refused_text, Appended};

use std::marker::Model;

// Text of at most N bytes: the first `len` of an array.
#[derive(Drop)]
pub struct Text<const N: usize> {
    bytes: [u8; N],
    len: usize,
}

// Clauses see the bytes that are held.
impl<const N: usize> Model for Text<N> {
    ghost Value = { List ℕ };

    ghost view = { λ t. take t.len t.bytes };

    ghost invariant = { λ t. t.len ≤ N };
}

impl<const N: usize> Text<N> {
    // No bytes.
    pub fn new() -> Self
        ensures { result ≡ [] }
    {
        Text {
            bytes: [0; N],
            len: 0,
        }
    }

    // The bytes that are held.
    pub fn as_bytes(&self) -> &[u8]
        ensures { result.now ≡ self.now }
    {
        &self.bytes[..self.len]
    }

    // Appends some bytes.
    pub fn put(&mut self, bytes: &[u8])
        requires { length self.old + length bytes.now ≤ N }
        ensures { self.new ≡ self.old ++ bytes.now }
    {
        let end = self.len + bytes.len();
        let all = &mut self.bytes[..];
        all[self.len..end].copy_from_slice(bytes);
        self.len = end;
    }

    // Appends a number in decimal, which has at most 20 digits.
    #[tactic(auto, using(crate::proofs::Decimals::fewest_decimal))]
    pub fn put_decimal(&mut self, x: u64)
        requires { length self.old + 20 ≤ N }
        ensures added { self.new ≡ self.old ++ decimal x }
        ensures short { length self.new ≤ length self.old + 20 }
    {
        let mut digits = [0u8; 20];
        let n = io::decimal(x, &mut digits);
        self.put(&digits[..n]);
    }

    // Appends a number in decimal, and some bytes after it.
    pub fn put_number(&mut self, x: u64, then: &[u8])
        requires { length self.old + (20 + length then.now) ≤ N }
        ensures added { self.new ≡ self.old ++ (decimal x ++ then.now) }
        ensures short { length self.new ≤ length self.old + (20 + length then.now) }
    {
        self.put_decimal(x);
        self.put(then);
    }

    // Appends `refused` and a number as a line.
    #[tactic(auto, unfolding(crate::specs::Text::refused_text))]
    pub fn put_refused(&mut self, why: u32)
        requires { length self.old + 29 ≤ N }
        ensures added { self.new ≡ self.old ++ refused_text why }
        ensures short { length self.new ≤ length self.old + 29 }
    {
        self.put(b"refused ");
        self.put_number(why as u64, b"\n");
    }
}

// Appends some bytes to the first `at` of an array, and answers how many it then holds.
pub fn put(out: &mut [u8], at: usize, bytes: &[u8]) -> usize
    requires { at + length bytes.now ≤ length out.old }
    ensures { Appended out.old at bytes.now out.new result }
{
    let end = at + bytes.len();
    out[at..end].copy_from_slice(bytes);
    end
}

// Appends a number in decimal, which has at most 20 digits.
pub fn put_decimal(out: &mut [u8], at: usize, x: u64) -> usize
    requires { at + 20 ≤ length out.old }
    ensures added { Appended out.old at (decimal x) out.new result }
    ensures short { result ≤ at + 20 }
{
    let mut places = [0u8; 20];
    let n = io::decimal(x, &mut places);
    put(out, at, &places[..n])
}

// Appends a number in decimal, and some bytes after it.
pub fn put_number(out: &mut [u8], at: usize, x: u64, then: &[u8]) -> usize
    requires { at + (20 + length then.now) ≤ length out.old }
    ensures added { Appended out.old at (decimal x ++ then.now) out.new result }
    ensures short { result ≤ at + (20 + length then.now) }
{
    let next = put_decimal(out, at, x);
    put(out, next, then)
}

// Appends `refused` and a number as a line.
pub fn put_refused(out: &mut [u8], at: usize, why: u32) -> usize
    requires { at + 29 ≤ length out.old }
    ensures added { Appended out.old at (refused_text why) out.new result }
    ensures short { result ≤ at + 29 }
{
    let next = put(out, at, b"refused ");
    put_number(out, next, why as u64, b"\n")
}
