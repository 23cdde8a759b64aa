#![tactic(auto)]
// Kinds of yard: "one bit per kind".
ghost use Rattle.std.specs.Prelude.{◌≡◌, ◌+◌, ◌≤◌, length};
ghost use Rattle.std.specs.Int.Bits.{bit_or};
ghost use Rattle.kinds.specs.Kinds.{shares, kind_size, kind_at};

// The kind of every yard of a version 1 book.
pub const ANY: u8 = 255;

// Whether two bytes share a bit.
pub fn shares(a: u8, b: u8) -> bool
    ensures { result ≡ shares a b }
{
    a & b != 0
}

// The bits of two bytes together.
pub fn join(a: u8, b: u8) -> u8
    ensures { result ≡ bit_or a b }
{
    a | b
}

// The bytes that a kind takes up in a book of a version.
pub fn size(version: u8) -> usize
    ensures { result ≡ kind_size version }
{
    if version == 1 {
        return 0;
    }
    1
}

// The kinds at a place of a book, or of a part of one, of a version: 255 in version 1.
pub fn at(version: u8, b: &[u8], place: usize) -> u8
    requires { place + kind_size version ≤ length b.now }
    ensures { result ≡ kind_at version b.now place }
{
    if version == 1 {
        return ANY;
    }
    book::u8_at(b, place)
}
