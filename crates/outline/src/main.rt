#![tactic(auto)]
// Reads a tree book from standard input; writes `refused` and a number, or its header and a line for each region. The
// whole text is made first, and then written.
ghost use Rattle.std.specs.Prelude.{◌≡◌, ◌++◌, ◌+◌, ◌*◌, ◌≤◌, ◌<◌, length};
ghost use Rattle.text.specs.Text.{in_turn};
ghost use Rattle.outline.specs.Output.{columns_of, header_text, line_end_of, line_of, region_text, outline_text};
ghost use Rattle.outline.specs.Known.{Known};

use text::Text;
use tree_layout::{Fields, Header, Region};

// Puts the names of the columns: a version 2 tree's regions have kinds.
#[tactic(auto, using(crate::proofs::Outlining::by_version))]
fn columns<const N: usize>(out: &mut Text<N>, version: u8)
    requires { length out.old + 39 ≤ N }
    ensures added { out.new ≡ out.old ++ columns_of version }
    ensures short { length out.new ≤ length out.old + 39 }
{
    if version == 1 {
        out.put(b"level first after children yards\n");
    } else {
        out.put(b"level first after children yards kinds\n");
    }
}

// Puts the header's numbers, and the names of the columns.
#[tactic(auto, unfolding(crate::specs::Output::header_text))]
fn header<const N: usize>(out: &mut Text<N>, h: Header)
    requires { length out.old + 157 ≤ N }
    ensures added { out.new ≡ out.old ++ header_text h }
    ensures short { length out.new ≤ length out.old + 157 }
{
    out.put(b"junctions ");
    out.put_number(h.junctions as u64, b" regions ");
    out.put_number(h.regions as u64, b" yards ");
    out.put_number(h.yards as u64, b" landmarks ");
    out.put_number(h.landmarks as u64, b"\n");
    columns(out, h.version);
}

// Puts the end of a region's line: its yards, and in version 2 its kinds.
#[tactic(auto, using(crate::proofs::Outlining::by_version))]
fn line_end<const N: usize>(out: &mut Text<N>, version: u8, yards: u16, kinds: u8)
    requires { length out.old + 42 ≤ N }
    ensures added { out.new ≡ out.old ++ line_end_of version yards kinds }
    ensures short { length out.new ≤ length out.old + 42 }
{
    if version == 1 {
        out.put_number(yards as u64, b"\n");
    } else {
        out.put_number(yards as u64, b" ");
        out.put_number(kinds as u64, b"\n");
    }
}

// Puts a region's line, by its level and its fields.
#[tactic(auto, unfolding(crate::specs::Output::line_of))]
fn line<const N: usize>(out: &mut Text<N>, version: u8, level: usize, f: Fields)
    requires { length out.old + 126 ≤ N }
    ensures added { out.new ≡ out.old ++ line_of version level f }
    ensures short { length out.new ≤ length out.old + 126 }
{
    out.put_number(level as u64, b" ");
    out.put_number(f.first.number as u64, b" ");
    out.put_number(f.after as u64, b" ");
    out.put_number(f.children as u64, b" ");
    line_end(out, version, f.yards, f.kinds);
}

// Puts region r's line.
fn region<const N: usize>(out: &mut Text<N>, b: &[u8], places: &[usize], ends: &[usize], r: Region)
    requires { Known b.now places.now ends.now × (r.number < length places.now)
        × (length out.old + 126 ≤ N) }
    ensures added { out.new ≡ out.old ++ region_text b.now r.number }
    ensures short { length out.new ≤ length out.old + 126 }
{
    let f = tree::regions::fields(b, places, r);
    let level = tree::regions::level(ends, r);
    line(out, book::version(b), level, f);
}

// Puts a line for each of n regions, in preorder.
#[tactic(auto, using(text::proofs::Appending::turns))]
fn lines<const N: usize>(out: &mut Text<N>, b: &[u8], places: &[usize], ends: &[usize], n: u16)
    requires { Known b.now places.now ends.now × (n ≤ length places.now)
        × (length out.old + 126 * n ≤ N) }
    ensures added { out.new ≡ out.old ++ in_turn (region_text b.now) n }
    ensures short { length out.new ≤ length out.old + 126 * n }
{
    for i in 0..n {
        region(out, b, places, ends, Region { number: i });
    }
}

// Puts the text that a tree book's bytes lead to.
fn report<const N: usize>(b: &[u8], out: &mut Text<N>)
    requires { length out.old + 65536 ≤ N }
    ensures text { out.new ≡ out.old ++ outline_text b.now }
    ensures fits { length out.new ≤ length out.old + 65536 }
{
    let mut places = [0usize; tree::REGIONS];
    let mut ends = [0usize; tree::REGIONS];
    let h = match tree::read(b, &mut places, &mut ends) {
        Ok(h) => h,
        Err(why) => {
            out.put_refused(why.number() as u32);
            return;
        }
    };
    header(out, h);
    let n = h.regions as usize;
    lines(out, b, &places[..n], &ends[..n], h.regions);
}

fn main(rt: HostRuntime) {
    let mut input = streams::buffer();
    let Some(n) = streams::read_input(&rt, &mut rt.stdin(), &mut input) else {
        return;
    };
    let mut out: Text<65536> = Text::new();
    report(&input[..n], &mut out);
    streams::write_output(&rt, &mut rt.stdout(), out.as_bytes());
}
