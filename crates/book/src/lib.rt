#![tactic(auto)]

pub mod refusal; // refusal.rt: why a call is refused

ghost use Rattle.std.specs.Prelude.{◌≡◌, ℕ, ◌+◌, ◌≤◌, ◌<◌, length};
ghost use Rattle.book.specs.Bytes.{u8_at, u16_at, u32_at, put_u16, put_u32};
ghost use Rattle.book.specs.Open.{version, open_refusal, opened, opened_answer};

use refusal::Refusal;

// A junction's number: a vertex of the road graph, counted from 0. Never a tree region's number.
#[derive(Clone, Copy, Debug, PartialEq, Eq, PartialOrd, Ord)]
pub struct Junction {
    pub number: u16,
}

// The byte at i.
pub fn u8_at(s: &[u8], i: usize) -> u8
    requires { i < length s.now }
    ensures { result ≡ u8_at s.now i }
{
    s[i]
}

// The big-endian number of two bytes at i.
pub fn u16_at(s: &[u8], i: usize) -> u16
    requires { i + 2 ≤ length s.now }
    ensures { result ≡ u16_at s.now i }
{
    u16::from_be_bytes([s[i], s[i + 1]])
}

// The big-endian number of four bytes at i.
pub fn u32_at(s: &[u8], i: usize) -> u32
    requires { i + 4 ≤ length s.now }
    ensures { result ≡ u32_at s.now i }
{
    u32::from_be_bytes([s[i], s[i + 1], s[i + 2], s[i + 3]])
}

// Puts the two bytes of x at i, the high one first.
pub fn put_u16(d: &mut [u8], i: usize, x: u16)
    requires { i + 2 ≤ length d.old }
    ensures { d.new ≡ put_u16 d.old i x }
{
    d[i..i + 2].copy_from_slice(&x.to_be_bytes());
}

// Puts the four bytes of x at i, the highest first.
pub fn put_u32(d: &mut [u8], i: usize, x: u32)
    requires { i + 4 ≤ length d.old }
    ensures { d.new ≡ put_u32 d.old i x }
{
    d[i..i + 4].copy_from_slice(&x.to_be_bytes());
}

// The version byte.
pub fn version(b: &[u8]) -> u8
    requires { 5 ≤ length b.now }
    ensures { result ≡ version b.now }
{
    u8_at(b, 4)
}

// Opens a book of versions up to `latest` whose header has `header` bytes after the version: tests 1, 2 and the
// incomplete header of 3.
pub fn open(b: &[u8], latest: u8, header: usize) -> Result<(), Refusal>
    ensures { opened_answer result ≡ opened (open_refusal b.now latest header) }
{
    let n = b.len();
    if n < 5 {
        return Err(Refusal::Length);
    }
    if u32_at(b, 0) as usize != n - 4 {
        return Err(Refusal::Length);
    }
    let given = version(b);
    if given < 1 {
        return Err(Refusal::Version);
    }
    if latest < given {
        return Err(Refusal::Version);
    }
    if n - 5 < header {
        return Err(Refusal::Header);
    }
    Ok(())
}
