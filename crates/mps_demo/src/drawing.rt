// Numbers that random words give.
ghost use Rattle.std.specs.Prelude.{◌≡◌, ◌+◌, ◌<◌, ◌≤◌, ◌^◌};
ghost use Rattle.mps_demo.specs.Drawn.{drawn, place_in};

use path_stream::{WordCursor, Words};

// The stream of the words. It is above that of every realisation at every level.
const STREAM: u64 = 1 << 32;

/// The words of a seed, from the first on.
pub fn words_of(seed: u32) -> WordCursor
    ensures { result ≡ place_in seed 0 }
{
    Words::new(u64::from(seed), STREAM).from(0)
}

/// The number from 0 up, and below the limit, that the next word gives: `floor(w * limit / 2^32)`.
pub fn draw(words: &mut WordCursor, limit: u32) -> u32
    requires some { 1 ≤ limit }
    requires stream { words.old.number ≡ STREAM }
    requires place { words.old.place < 2 ^ 32 }
    ensures number { result ≡ drawn limit words.old.seed words.old.place }
    ensures inside { result < limit }
    ensures words { words.new ≡ place_in words.old.seed (words.old.place + 1) }
{
    let word = u64::from(words.next_word());
    (word * u64::from(limit) >> 32) as u32
}
