// The random words: those of ChaCha20 under a seed, a stream number and a place.
ghost use Rattle.std.specs.Prelude.{◌≡◌, ◌+◌, ◌<◌, ◌≤◌, ◌^◌};
ghost use Rattle.path_stream.specs.Words.{key_bytes, word_of, stream_of as number_of};

use rand_chacha::ChaCha20Rng;
use rand_core::SeedableRng;
use rand_core::utils::NextWord;
use std::marker::Model;

/// The random words of a seed and a stream: those of ChaCha20 (RFC 8439), with a 64-bit counter and
/// the stream's number as a 64-bit nonce. The seed fills the first 8 bytes of the key, the low byte
/// first, and the other 24 are zero.
#[derive(Clone, Copy)]
pub struct Words {
    seed: u64,
    stream: u64,
}

impl Model for Words {
    ghost use Rattle.path_stream.specs.Words.{Stream};

    ghost Value = { Stream };

    ghost view = { λ w. record { seed = w.seed; number = w.stream } };

    ghost inverse = { λ w. record { seed = w.seed; stream = w.number } };
}

impl Words {
    /// The words of this seed and this stream number.
    pub fn new(seed: u64, stream: u64) -> Words
        ensures { result ≡ record { seed = seed; number = stream } }
    {
        Words { seed, stream }
    }

    /// The word at a place of the stream, counted from 0. Each call runs the cipher anew: for words
    /// one after another take `from`.
    pub fn at(&self, place: u64) -> u32
        requires { place < 2 ^ 32 }
        ensures { result ≡ word_of self.now.seed self.now.number place }
    {
        self.from(place).next_word()
    }

    /// A cursor over the words from a place on.
    pub fn from(&self, place: u64) -> WordCursor
        requires { place < 2 ^ 32 }
        ensures { result
            ≡ record { seed = self.now.seed; number = self.now.number; place = place } }
    {
        let mut generator = ChaCha20Rng::from_seed(seed_bytes(self.seed));
        generator.set_stream(self.stream);
        generator.set_word_pos(u128::from(place));
        WordCursor {
            words: *self,
            generator,
        }
    }
}

/// A place in a stream of words that moves by one at each word. It keeps 64 words at a time, so
/// words in order cost far less than by `Words::at`.
#[derive(Drop)]
pub struct WordCursor {
    words: Words,
    generator: ChaCha20Rng,
}

impl Model for WordCursor {
    ghost use Rattle.std.specs.Prelude.{◌≡◌};
    ghost use Rattle.rand_chacha.specs.ChaCha.{key_of};
    ghost use Rattle.path_stream.specs.Words.{Place, key_bytes};

    ghost Value = { Place };

    ghost view = { λ c. record {
      seed = c.words.seed;
      number = c.words.number;
      place = c.generator.word_pos;
    } };

    ghost invariant = { λ c. (c.generator.key ≡ key_of (key_bytes c.words.seed))
        × (c.generator.stream ≡ c.words.number) };
}

impl WordCursor {
    /// The word at this place. Afterwards the place is one further.
    pub fn next_word(&mut self) -> u32
        requires { self.old.place < 2 ^ 32 }
        ensures word { result ≡ word_of self.old.seed self.old.number self.old.place }
        ensures place { self.new ≡ record self.old { place = self.old.place + 1 } }
    {
        self.generator.next_word()
    }
}

/// The stream number of a realisation, counted from 0, at a level, counted from 1. With at most 16
/// levels no two pairs of a realisation and a level share a stream.
pub fn stream_of(realisation: u32, level: u8) -> u64
    requires { 1 ≤ level }
    ensures { result ≡ number_of realisation level }
{
    16 * u64::from(realisation) + u64::from(level) - 1
}

// The key of a seed.
fn seed_bytes(seed: u64) -> [u8; 32]
    ensures { result ≡ key_bytes seed }
{
    let mut bytes = [0; 32];
    bytes[..8].copy_from_slice(&seed.to_le_bytes());
    bytes
}
