// Which items of a block have a datum.
ghost use Rattle.std.specs.Prelude.{◌≡◌, slice_index};
ghost use Rattle.pattern_blocks.specs.Rows.{word_at};

use std::marker::Model;
use ti_scan::Datum;

/// For each block, template position and category a word: bit s is set where item s of the block
/// has the category at the position.
#[derive(Drop)]
pub struct Rows {
    reach: u8,
    cats: u8,
    words: Vec<u64>,
}

impl Model for Rows {
    ghost use Rattle.pattern_blocks.specs.Rows.{BitRows};

    ghost Value = { BitRows };

    ghost view = { λ r. record { reach = r.reach; cats = r.cats; words = r.words.items } };
}

/// A word of a list, or 0 past its end.
pub fn word_or_zero(words: &[u64], index: usize) -> u64
    ensures { result ≡ slice_index words.now index }
{
    match words.get(index) {
        Some(word) => *word,
        None => 0,
    }
}

impl Rows {
    /// The rows of these words: for each block one for each category at each template position,
    /// the positions in order.
    pub fn of(reach: u8, cats: u8, words: Vec<u64>) -> Rows
        ensures { result ≡ record { reach = reach; cats = cats; words = words.items } }
    {
        Rows { reach, cats, words }
    }

    /// How many template positions there are.
    pub fn reach(&self) -> u8
        ensures { result ≡ self.now.reach }
    {
        self.reach
    }

    /// All words.
    pub fn words(&self) -> &[u64]
        ensures { result.now ≡ self.now.words }
    {
        self.words.as_slice()
    }

    /// How many categories there are.
    pub fn cats(&self) -> u8
        ensures { result ≡ self.now.cats }
    {
        self.cats
    }

    /// The items of a block that have a datum: none where there is no such category or position.
    pub fn word(&self, block: u32, datum: &Datum) -> u64
        ensures { result ≡ word_at self.now block datum.now }
    {
        let before = datum.position.saturating_sub(1);
        if datum.cat.0 < self.cats && before < self.reach {
            let place = block as usize * self.reach as usize + before as usize;
            word_or_zero(
                self.words.as_slice(),
                place * self.cats as usize + datum.cat.0 as usize,
            )
        } else {
            0
        }
    }
}
