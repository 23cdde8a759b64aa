#![tactic(auto)]

ghost use Rattle.std.specs.Prelude.{◌≡◌, ℕ, ◌≤◌, ◌<◌, min, length, replicate};
ghost use Rattle.tournament.specs.code.Tournament.{queue_words, leaf, top, least_beside, put_leaf, Tournament};

// The number of a tree's words.
pub const WORDS: usize = 2048;

// The levels of words above the leaves.
const LEVELS: usize = 5;

// Makes every word x.
pub fn clear(tree: &mut [u64], x: u64)
    requires { length tree.old ≡ queue_words }
    ensures { tree.new ≡ replicate queue_words x }
{
    tree.fill(x);
}

// The least of the three words beside word i: the other of its pair, and the pair across.
fn least_beside(tree: &[u64], i: usize) -> u64
    requires { (length tree.now ≡ queue_words) × (i < queue_words) }
    ensures { result ≡ least_beside tree.now i }
{
    let across = 4 * (i / 4) + (i + 2) % 4;
    let pair = tree[across].min(tree[2 * (across / 2) + (across + 1) % 2]);
    pair.min(tree[2 * (i / 2) + (i + 1) % 2])
}

// Stores x at leaf v, and makes each word above it the least of its four again.
pub fn put(tree: &mut [u64], v: usize, x: u64)
    requires { (length tree.old ≡ queue_words) × (v < 1024) }
    ensures { tree.new ≡ put_leaf tree.old v x }
{
    let mut i = 1024 + v;
    let mut word = x;
    tree[i] = word;
    for _ in 0..LEVELS {
        word = word.min(least_beside(tree, i));
        i /= 4;
        tree[i] = word;
    }
}

// Stores x, which is at most leaf v's word, at leaf v, and makes each word above it the lesser of itself and x.
pub fn lower(tree: &mut [u64], v: usize, x: u64)
    requires { (length tree.old ≡ queue_words) × (v < 1024) × Tournament tree.old × (x ≤ leaf tree.old v) }
    ensures { tree.new ≡ put_leaf tree.old v x }
{
    let mut i = 1024 + v;
    tree[i] = x;
    for _ in 0..LEVELS {
        i /= 4;
        tree[i] = tree[i].min(x);
    }
}

// The top word.
pub fn least(tree: &[u64]) -> u64
    requires { length tree.now ≡ queue_words }
    ensures { result ≡ top tree.now }
{
    tree[1]
}
