#![tactic(auto)]
// Reads decimal seconds and a line end, then a road book, a tree book and a query book from standard input, and writes
// the yards within those seconds, or that the search is spent, or that it is refused. The whole text is made first, and
// then written.
mod line; // line.rt: the seconds in the first line

ghost use Rattle.std.specs.Prelude.{◌≡◌, ◌++◌, ◌+◌, ◌≤◌, length};
ghost use Rattle.within.specs.Output.{within_text};

use search_tree::Goal;
use text::Text;

// Puts the text that the input leads to.
fn text_of<const N: usize>(input: &[u8], out: &mut Text<N>)
    requires { length out.old + 65536 ≤ N }
    ensures text { out.new ≡ out.old ++ within_text input.now }
    ensures fits { length out.new ≤ length out.old + 65536 }
{
    let Some(seconds) = line::seconds_in(input) else {
        out.put_refused(1);
        return;
    };
    let start = line::line_length(input) + 1;
    let mut results = [0u32; 512];
    listing::append(&input[start..], Goal::InDrive(seconds), &mut results, out);
}

fn main(rt: HostRuntime) {
    let mut input = streams::buffer();
    let Some(n) = streams::read_input(&rt, &mut rt.stdin(), &mut input) else {
        return;
    };
    let mut out: Text<65536> = Text::new();
    text_of(&input[..n], &mut out);
    streams::write_output(&rt, &mut rt.stdout(), out.as_bytes());
}
