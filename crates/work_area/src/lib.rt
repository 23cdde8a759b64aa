#![tactic(auto)]
// The lent work area of a call.
ghost use Rattle.std.specs.Prelude.{◌≡◌, ◌≤◌, length};
ghost use Rattle.work_area.specs.Work.{work_words, zeroed};

// The words of a work area that a call wants.
pub const WORDS: usize = 16384;

// Zeroes the first 16,384 words, and leaves any after them.
pub fn zero_words(work: &mut [u32])
    requires { work_words ≤ length work.old }
    ensures { work.new ≡ zeroed work_words work.old }
{
    work[..WORDS].fill(0);
}
