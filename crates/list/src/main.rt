#![tactic(auto)]
// Reads a road book, a tree book and a query book from standard input, and writes the yards that a search lists, or
// that it is spent, or that it is refused. The whole text is made first, and then written.
ghost use Rattle.std.specs.Prelude.{◌≡◌, ◌++◌, ◌+◌, ◌≤◌, length};
ghost use Rattle.list.specs.Output.{list_text};

use search_tree::Goal;
use text::Text;

// Puts the text that the input leads to.
#[tactic(auto, unfolding(crate::specs::Output::list_text))]
fn text_of<const N: usize>(input: &[u8], out: &mut Text<N>)
    requires { length out.old + 65536 ≤ N }
    ensures text { out.new ≡ out.old ++ list_text input.now }
    ensures fits { length out.new ≤ length out.old + 65536 }
{
    let mut results = [0u32; 128];
    listing::append(input, Goal::Nearest, &mut results, out);
}

fn main(rt: HostRuntime) {
    let mut input = streams::buffer();
    let Some(n) = streams::read_input(&rt, &mut rt.stdin(), &mut input) else {
        return;
    };
    let mut out: Text<65536> = Text::new();
    text_of(&input[..n], &mut out);
    streams::write_output(&rt, &mut rt.stdout(), out.as_bytes());
}
