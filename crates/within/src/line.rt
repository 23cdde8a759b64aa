// The first line of the input: where it ends, and the seconds in it.
ghost use Rattle.std.specs.Prelude.{◌≡◌};
ghost use Rattle.within.specs.Input.{line_length, number_of, seconds_in};
ghost use Rattle.within.specs.code.Given.{given_by};

// The greatest number of seconds.
const MOST: u64 = 4294967295;

// How many bytes stand before the first line end: all of them if there is none.
pub fn line_length(s: &[u8]) -> usize
    ensures { result ≡ line_length s.now }
{
    for (i, b) in s.iter().enumerate() {
        if *b == b'\n' {
            return i;
        }
    }
    s.len()
}

// The number that some bytes are, in decimal, if it is one of 32 bits.
fn number(s: &[u8]) -> Option<u32>
    ensures { given_by result ≡ number_of s.now }
{
    let mut n: u64 = 0;
    for i in 0..s.len() {
        let b = s[i];
        if b < b'0' || b > b'9' {
            return None;
        }
        n = 10 * n + (b - b'0') as u64;
        if n > MOST {
            return None;
        }
    }
    if s.is_empty() {
        return None;
    }
    Some(n as u32)
}

// The seconds that stand before the first line end.
pub fn seconds_in(s: &[u8]) -> Option<u32>
    ensures { given_by result ≡ seconds_in s.now }
{
    let end = line_length(s);
    if end == s.len() {
        return None;
    }
    number(&s[..end])
}
