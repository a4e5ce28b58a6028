// The random words of the draws, in order.
ghost use Rattle.std.specs.Prelude.{◌≡◌, ◌+◌, ◌<◌, ◌^◌};
ghost use Rattle.path_stream.specs.Words.{word_of};

use path_stream::WordCursor;
use std::marker::Model;

/// Words one after another, with the next one at hand: it can be read before it is known whether it
/// will be used up.
#[derive(Drop)]
pub struct WordsAhead {
    next: u32,
    // From the word after it on.
    rest: WordCursor,
}

impl Model for WordsAhead {
    ghost use Rattle.std.specs.Prelude.{◌≡◌, ◌-◌, ◌≤◌};
    ghost use Rattle.path_stream.specs.Words.{Place, word_of};

    ghost Value = { Place };

    ghost view = { λ w. record { seed = w.rest.seed; number = w.rest.number; place = w.rest.place - 1 } };

    ghost invariant = { λ w. (1 ≤ w.rest.place) × (w.next ≡ word_of w.rest.seed w.rest.number (w.rest.place - 1)) };
}

impl WordsAhead {
    /// The words from the cursor's place on.
    pub fn new(mut cursor: WordCursor) -> WordsAhead
        requires { cursor.place < 2 ^ 32 }
        ensures { result ≡ cursor }
    {
        let next = cursor.next_word();
        WordsAhead { next, rest: cursor }
    }

    /// The word at this place.
    pub fn next(&self) -> u32
        ensures { result ≡ word_of self.now.seed self.now.number self.now.place }
    {
        self.next
    }

    /// Goes on to the place after it.
    pub fn advance(&mut self)
        requires { self.old.place + 1 < 2 ^ 32 }
        ensures { self.new ≡ record self.old { place = self.old.place + 1 } }
    {
        self.next = self.rest.next_word();
    }
}
