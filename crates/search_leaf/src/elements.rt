// A leaf's list: f and the bound of each of its yards, and which leaves next.
ghost use Rattle.std.specs.Prelude.{◌≡◌, List, ℕ, ◌+◌, ◌≤◌, ◌<◌, length};
ghost use Rattle.book.specs.Bytes.{u16_at};
ghost use Rattle.road_layout.specs.Road.{junctions};
ghost use Rattle.book.specs.Open.{version};
ghost use Rattle.tree_layout.specs.Sizes.{header_size, list_size, leaf_mark_size};
ghost use Rattle.tree_layout.specs.Decode.{read_list, landmark_count};
ghost use Rattle.search_bounds.specs.code.Rows.{Rows};
ghost use Rattle.search_bounds.specs.code.Bounds.{Crews};
ghost use Rattle.search_bounds.specs.code.Measures.{Short, Driven, IsDriven, to_crews};
ghost use Rattle.search_state.specs.code.State.{word_count, value_count, fs_in, gone_in};
ghost use Rattle.search_leaf.specs.code.Next.{IsNext};
ghost use Rattle.search_leaf.specs.code.Leaves.{Near, by_yards, ShortList, f_in, bound_in, element_word};
ghost use Rattle.search_leaf.specs.code.Leaves.{f_word, pass_over, list_at, elements_of, FormedList};

use crate::{Form, Next, parts};
use book::Junction;
use search_queue::UNQUEUED;
use tree_layout::{Header, records};

// What stands for the f of a yard that is not wanted: no f is so great.
const UNWANTED: u32 = 4294967295;

// Sets f and the bound of each yard of a landmark's list, given the landmark's distances to the crews.
fn fill(
    list: &[u8],
    form: Form,
    table: &[u32],
    rows: usize,
    crews: &[u16],
    out: &[u32],
    code: u8,
    values: &mut [u32],
)
    requires { FormedList list.now form × Rows table.now rows × Crews crews.now
        × (length out.now ≡ length crews.now) × Short out.now × Near 1024 (elements_of list.now form)
        × ShortList table.now rows crews.now (elements_of list.now form)
        × (length values.old ≡ value_count) }
    ensures { values.new ≡ by_yards (f_in code out.now)
        (bound_in code table.now rows crews.now out.now)
        (elements_of list.now form) values.old }
{
    let v = form.version;
    for k in 0..form.yards {
        let e = records::element(list, v, k);
        let y = e.yard;
        let f = search_bounds::yards::f_of(out, code, e.distance);
        let bound = search_bounds::yards::yard_bound(table, rows, crews, out, code, y, e.distance);
        let f_place = parts::f_at(y);
        let bound_place = parts::bound_at(y);
        values[f_place] = f;
        values[bound_place] = bound;
    }
}

// Passes over the yards of a leaf's first list that have no wanted kind: the mark of no wanted yard is set for their f.
pub fn pass_over(list: &[u8], form: Form, wanted: u8, values: &mut [u32])
    requires { FormedList list.now form × Near 1024 (elements_of list.now form)
        × (length values.old ≡ value_count) }
    ensures { values.new
        ≡ pass_over wanted (elements_of list.now form) values.old }
{
    let v = form.version;
    for k in 0..form.yards {
        let e = records::element(list, v, k);
        if !kinds::shares(wanted, e.kinds) {
            let place = parts::f_at(e.yard);
            values[place] = UNWANTED;
        }
    }
}

// Opens a leaf by its landmark that stands at a place of the tree book: sets f and the bound of each yard of its list.
pub fn open(
    tree: &[u8],
    at: usize,
    yards: usize,
    table: &[u32],
    drives: &[u32],
    crews: &[u16],
    code: u8,
    values: &mut [u32],
)
    requires { IsDriven crews.now drives.now (u16_at tree.now at) × Rows table.now (landmark_count tree.now)
        × (header_size ≤ length tree.now) × (yards ≤ 65535)
        × (at + leaf_mark_size (version tree.now) yards ≤ length tree.now)
        × Near 1024 (list_at tree.now at yards)
        × ShortList table.now (landmark_count tree.now) crews.now (list_at tree.now at yards)
        × (length values.old ≡ value_count) }
    ensures { (road : List ℕ) → Driven road crews.now drives.now
        → u16_at tree.now at < junctions road
        → values.new ≡ by_yards (f_in code (to_crews road (u16_at tree.now at) crews.now))
        (bound_in code table.now (landmark_count tree.now) crews.now
        (to_crews road (u16_at tree.now at) crews.now))
        (list_at tree.now at yards) values.old }
{
    let mut out = [0u32; 16];
    let q = crews.len();
    let l = records::junction(tree, at);
    search_bounds::yards::to_crews(drives, crews, l, &mut out[..q]);
    let list = records::list(tree, at, yards);
    let h = records::header(tree);
    let rows = h.landmarks as usize;
    let form = Form {
        version: h.version,
        yards,
    };
    fill(list, form, table, rows, crews, &out[..q], code, values);
}

// The word of what stands among the f's: UNQUEUED for a yard that is not wanted.
fn f_word(x: u32) -> u64
    ensures { result ≡ f_word x }
{
    if x == UNWANTED {
        return UNQUEUED;
    }
    u64::from(x)
}

// A yard's f, or UNQUEUED if it has left or is not wanted.
fn word_of(h: Header, words: &[u64], values: &[u32], y: Junction) -> u64
    requires { (y.number < h.junctions) × (length words.now ≡ word_count h.regions h.junctions)
        × (h.junctions ≤ 1024) × (length values.now ≡ value_count) }
    ensures { result ≡ element_word (fs_in h.junctions values.now)
        (gone_in h.regions h.junctions words.now) y.number }
{
    let g = parts::gone_at(h, y);
    if words[g] == 0 {
        return UNQUEUED;
    }
    let i = parts::f_at(y);
    f_word(values[i])
}

// "Its list's elements leave by f .., then by place": the next of at least one, or none if none remains.
pub fn next_element(
    list: &[u8],
    yards: usize,
    h: Header,
    words: &[u64],
    values: &[u32],
) -> Option<Next>
    requires { (1 ≤ yards) × (yards ≤ 65535) × (list_size h.version yards ≤ length list.now)
        × Near h.junctions (read_list h.version list.now yards 0)
        × (length words.now ≡ word_count h.regions h.junctions)
        × (h.junctions ≤ 1024) × (length values.now ≡ value_count) }
    ensures { IsNext (fs_in h.junctions values.now) (gone_in h.regions h.junctions words.now)
        (read_list h.version list.now yards 0) yards result }
{
    let mut place: usize = 0;
    let v = h.version;
    let mut f = word_of(h, words, values, records::element(list, v, 0).yard);
    for k in 1..yards {
        let w = word_of(h, words, values, records::element(list, v, k).yard);
        if w < f {
            place = k;
            f = w;
        }
    }
    if f == UNQUEUED {
        return None;
    }
    Some(Next { place, f })
}
