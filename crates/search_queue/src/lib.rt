#![tactic(auto)]
// The queue: a word for each number, its key or the word of what is not queued.
ghost use Rattle.std.specs.Prelude.{◌≡◌, ◌+◌, ◌≤◌, length};
ghost use Rattle.search_rules.specs.Queue.{pick};
ghost use Rattle.search_queue.specs.code.Eights.{least_of_four, least_of_eight, eight_pass};

// The word of what is not queued.
pub const UNQUEUED: u64 = 18446744073709551615;

// The least of the four words from number j on.
fn least_of_four(words: &[u64], j: usize) -> u64
    requires { j + 4 ≤ length words.now }
    ensures { result ≡ least_of_four words.now j }
{
    let pair = words[j].min(words[j + 1]);
    pair.min(words[j + 2].min(words[j + 3]))
}

// The least of the eight words from number j on.
fn least_of_eight(words: &[u64], j: usize) -> u64
    requires { j + 8 ≤ length words.now }
    ensures { result ≡ least_of_eight words.now j }
{
    least_of_four(words, j).min(least_of_four(words, j + 4))
}

// Whether there are eight words from number j on and none of them is less than w.
fn eight_pass(words: &[u64], j: usize, w: u64) -> bool
    requires { j ≤ length words.now }
    ensures { result ≡ eight_pass words.now j w }
{
    if words.len() - j < 8 {
        return false;
    }
    w <= least_of_eight(words, j)
}

// The number of the least word, the lowest of equal ones. Eight words that are no less are passed over at once.
pub fn pick(words: &[u64]) -> usize
    ensures { result ≡ pick words.now (length words.now) }
{
    if words.len() == 0 {
        return 0;
    }
    let mut p: usize = 0;
    let mut least = words[0];
    let mut j: usize = 1;
    while j < words.len() {
        if eight_pass(words, j, least) {
            j += 8;
        } else {
            let w = words[j];
            if w < least {
                least = w;
                p = j;
            }
            j += 1;
        }
    }
    p
}
