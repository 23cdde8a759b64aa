// The aggregate of two numbers.
ghost use Rattle.std.specs.Prelude.{◌≡◌, ◌+◌, ◌≤◌, ◌<◌};
ghost use Rattle.search_rules.specs.Bounds.{combine};

use query::aggregate::Aggregate;

// The aggregate of two numbers: their sum for code 0, else the greater. Sixteen of 67,042,305 come to 1,072,676,880.
pub fn combine(code: u8, a: u32, b: u32) -> u32
    requires { a + b ≤ 1072676880 }
    ensures { result ≡ combine code a b }
{
    match Aggregate::of(code) {
        Aggregate::Sum => a + b,
        Aggregate::Furthest => a.max(b),
    }
}

// The same of two numbers of 64 bits.
pub fn combine64(code: u8, a: u64, b: u64) -> u64
    requires { a + b < 18446744073709551616 }
    ensures { result ≡ combine code a b }
{
    match Aggregate::of(code) {
        Aggregate::Sum => a + b,
        Aggregate::Furthest => a.max(b),
    }
}
