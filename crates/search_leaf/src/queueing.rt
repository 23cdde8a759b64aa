// The next yard of a leaf whose yards have their f and their bounds.
ghost use Rattle.std.specs.Prelude.{◌≡◌, ◌≤◌, ◌<◌, length};
ghost use Rattle.tree_layout.specs.Sizes.{list_size};
ghost use Rattle.tree_layout.specs.Decode.{read_list};
ghost use Rattle.search_rules.specs.Step.{again_key};
ghost use Rattle.search_state.specs.code.State.{word_count, value_count};
ghost use Rattle.search_leaf.specs.code.Leaves.{Near};
ghost use Rattle.search_leaf.specs.code.Next.{word_in, leaf_queued};

use crate::{Next, elements, parts};
use tree_layout::{Header, Region, records};

// The leaf's key when it is queued again: "if any remain, itself, with the greater of its first key and the next f".
fn again_key(first: u64, next: Option<Next>) -> u64
    ensures { result ≡ again_key first (word_in next) }
{
    match next {
        None => search_queue::UNQUEUED,
        Some(element) => first.max(element.f),
    }
}

// "A leaf queues its next yard and, if any remain, itself": leaf r, by its landmark's list of so many yards. "A leaf
// without any wanted yard queues nothing when taken."
pub fn queue_next(
    list: &[u8],
    yards: usize,
    h: Header,
    words: &mut [u64],
    values: &[u32],
    r: Region,
)
    requires { (1 ≤ yards) × (yards ≤ 65535) × (list_size h.version yards ≤ length list.now)
        × Near h.junctions (read_list h.version list.now yards 0)
        × (length words.old ≡ word_count h.regions h.junctions) × (r.number < h.regions)
        × (h.junctions ≤ 1024) × (length values.now ≡ value_count) }
    ensures { words.new ≡ leaf_queued h.regions h.junctions
        (read_list h.version list.now yards 0) yards words.old values.now
        r.number }
{
    let first = words[parts::first_at(h, r)];
    let Some(next) = elements::next_element(list, yards, h, words, values) else {
        words[r.number as usize] = search_queue::UNQUEUED;
        return;
    };
    let y = records::element(list, h.version, next.place).yard;
    let bound = u64::from(values[parts::bound_at(y)]);
    let gone_place = parts::gone_at(h, y);
    words[gone_place] = 0;
    let key_place = parts::key_at(h, y);
    words[key_place] = bound.max(first);
    let after = elements::next_element(list, yards, h, words, values);
    words[r.number as usize] = again_key(first, after);
}
