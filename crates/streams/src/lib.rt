#![tactic(auto)]
// Standard input read whole and standard output written whole, or a line on standard error that says why not. The
// functions take any reader and any writer, so that their contracts can name its bytes.
ghost use Rattle.std.specs.Prelude.{◌≡◌, ◌<◌, ◌≤◌, length, take, IfOk, IfSome, OnOk, OnErr};
ghost use Rattle.std.specs.Io.{ReadsAtMost};
ghost use Rattle.std.specs.Io.KnownBytes.{Appends, Consumes, IsAtEnd, Keeps};
ghost use Rattle.streams.specs.Moved.{most_input, input_room, IsInput};

use std::io;
use std::io::ErrorKind;

// The most bytes that an input may have, 1 MiB, and an array with room for one more, which tells that there is more.
pub const MOST: usize = 1048576;

pub const ROOM: usize = 1048577;

// How often a read or a write that a signal interrupts is begun again: far more than any run takes, since a loop has to
// end.
const TRIES: usize = 1000000;

// One read, begun again if a signal interrupts it.
fn read_some<S: io::Read>(input: &mut S, part: &mut [u8]) -> io::Result<usize>
    ensures bound { ReadsAtMost result part.new }
    ensures bytes { IfOk result (λ n. Consumes (S.remaining input.old) (S.remaining input.new) (take n part.new)) }
    ensures end { IfOk result (λ n. n ≡ 0 → 0 < length part.new → IsAtEnd (S.remaining input.new)) }
{
    for _ in 0..TRIES {
        match input.read(part) {
            Err(e) if e.kind() == ErrorKind::Interrupted => {}
            got => return got,
        }
    }
    Err(ErrorKind::Interrupted.into())
}

// Reads until the buffer is full or the input ends.
fn read_all<S: io::Read>(input: &mut S, buf: &mut [u8]) -> io::Result<usize>
    ensures bound { IfOk result (λ n. n ≤ length buf.new) }
    ensures bytes { IfOk result (λ n. Consumes (S.remaining input.old) (S.remaining input.new) (take n buf.new)) }
    ensures end { IfOk result (λ n. n < length buf.new → IsAtEnd (S.remaining input.new)) }
{
    let mut done: usize = 0;
    while done < buf.len() {
        let n = read_some(input, &mut buf[done..])?;
        if n == 0 {
            return Ok(done);
        }
        done += n;
    }
    Ok(done)
}

// Zeros, to read an input into.
pub fn buffer() -> [u8; ROOM]
    ensures { input_room ≡ length result }
{
    [0; ROOM]
}

// Reads standard input until it ends, and answers how many bytes it has. If a read fails, or the buffer is full and so
// the input is longer than it may be, there is no answer, and standard error says so.
pub fn read_input<S: io::Read>(rt: &impl Eprint, input: &mut S, buf: &mut [u8]) -> Option<usize>
    requires { input_room ≡ length buf.old }
    ensures most { IfSome result (λ n. n ≤ most_input) }
    ensures whole { IfSome result (λ n. IsInput (S.remaining input.old) (take n buf.new)) }
{
    let n = match read_all(input, buf) {
        Ok(n) => n,
        Err(e) => {
            let _ = eprintln!(rt; "standard input: {e}");
            return None;
        }
    };
    if MOST < n {
        let _ = eprintln!(rt; "standard input: longer than 1048576 bytes");
        return None;
    }
    Some(n)
}

// One write, begun again if a signal interrupts it: how many bytes were taken.
fn write_some<W: io::Write>(out: &mut W, part: &[u8]) -> io::Result<usize>
    ensures bound { ReadsAtMost result part.now }
    ensures bytes { IfOk result (λ n. Appends (W.contents out.old) (W.contents out.new) (take n part.now)) }
    ensures err { OnErr result (Keeps (W.contents out.old) (W.contents out.new)) }
{
    for _ in 0..TRIES {
        match out.write(part) {
            Err(e) if e.kind() == ErrorKind::Interrupted => {}
            put => return put,
        }
    }
    Err(ErrorKind::Interrupted.into())
}

// Writes some bytes in as few writes as take them, and stops at the first that fails: how many were written, and
// whether a write failed.
fn write_all<W: io::Write>(out: &mut W, bytes: &[u8]) -> (usize, io::Result<()>)
    ensures bound { result.0 ≤ length bytes.now }
    ensures bytes { Appends (W.contents out.old) (W.contents out.new) (take result.0 bytes.now) }
    ensures ok { OnOk result.1 (result.0 ≡ length bytes.now) }
{
    let mut done: usize = 0;
    while done < bytes.len() {
        match write_some(out, &bytes[done..]) {
            Ok(0) => return (done, Err(ErrorKind::WriteZero.into())),
            Ok(n) => done += n,
            Err(e) => return (done, Err(e)),
        }
    }
    (done, Ok(()))
}

// Writes a program's whole output, and answers how many bytes were written. If a write fails nothing more is written,
// and standard error says so.
pub fn write_output<W: io::Write>(rt: &impl Eprint, out: &mut W, bytes: &[u8]) -> usize
    ensures most { result ≤ length bytes.now }
    ensures bytes { Appends (W.contents out.old) (W.contents out.new) (take result bytes.now) }
{
    let (done, written) = write_all(out, bytes);
    if let Err(e) = written {
        let _ = eprintln!(rt; "standard output: {e}");
    }
    done
}
