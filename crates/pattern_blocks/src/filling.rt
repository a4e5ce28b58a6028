// Setting the bits of a table.
ghost use Rattle.std.specs.Prelude.{◌≡◌, ℕ, ◌<◌, length, slice_index};
ghost use Rattle.pattern_blocks.specs.Drawn.{AddsShown, word_place};
ghost use Rattle.pattern_blocks.specs.Rows.{MarksItem};

// Marks an item in a word.
fn mark_item(words: &mut [u64], index: usize, item: u32)
    requires index { index < length words.old }
    requires item { item < 64 }
    ensures { MarksItem words.old index item words.new }
{
    words[index] |= 1 << item;
}

/// Marks at each place, at a template position, the category that is shown there.
pub fn mark_shown(
    places: &[u32],
    shown: &[u8],
    reach: u8,
    cats: u8,
    position: u8,
    words: &mut [u64],
)
    requires same { length shown.now ≡ length places.now }
    requires position { position < reach }
    requires shown { (i : ℕ) → i < length places.now → slice_index shown.now i < cats }
    requires words { (i : ℕ) → i < length places.now → word_place reach cats (slice_index places.now i) position (slice_index shown.now i) < length words.old }
    ensures { AddsShown (slice_index places.now) (slice_index shown.now) reach cats position (length places.now) words.old words.new }
{
    for i in 0..places.len() {
        let place = places[i];
        let before = (place / 64) as usize * reach as usize + position as usize;
        let at = before * cats as usize + shown[i] as usize;
        mark_item(words, at, place % 64);
    }
}
