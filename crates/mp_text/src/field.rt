// The fields of a text, and texts without the blanks at their ends.
ghost use Rattle.std.specs.Prelude.{◌≡◌, ◌==◌, ◌≤◌, ◌<◌, ◌-◌, [], ◌∷◌, length, slice_get, nat_le, IfNone, IfSome};
ghost use Rattle.std.specs.List.{after_first, before_first, position, position_or_len};
ghost use Rattle.std.specs.Option.{option_copied};
ghost use Rattle.mp_text.specs.Fields.{fields_of, from_visible, is_blank, is_skipped, is_visible, to_visible, trimmed};

/// The field in a column, counted from 1, or nothing where there are fewer.
pub fn field_at(text: &[u8], column: usize) -> Option<&[u8]>
    requires { 1 ≤ column }
    ensures { option_copied result ≡ slice_get (fields_of text.now) (column - 1) }
{
    let mut rest = text;
    for _ in 1..column {
        let (_, behind) = next_field(rest)?;
        rest = behind;
    }
    let (field, _) = next_field(rest)?;
    Some(field)
}

/// Whether there are at least so many fields.
pub fn has_fields(text: &[u8], count: usize) -> bool
    ensures { result ≡ nat_le count (length (fields_of text.now)) }
{
    count == 0 || field_at(text, count).is_some()
}

/// The first field and what stands behind it, or nothing exactly where there is none.
pub fn next_field(text: &[u8]) -> Option<(&[u8], &[u8])>
    ensures none { IfNone result (fields_of text.now ≡ []) }
    ensures some { IfSome result (λ cut. fields_of text.now ≡ cut.0.now ∷ fields_of cut.1.now) }
    ensures less { IfSome result (λ cut. length cut.1.now < length text.now) }
{
    let text = from_visible(text);
    if text.is_empty() {
        return None;
    }
    Some(text.split_at(blank_at(text)))
}

/// The text without the blanks at its ends.
pub fn trimmed(text: &[u8]) -> &[u8]
    ensures { result.now ≡ trimmed text.now }
{
    to_visible(from_visible(text))
}

/// The text from its first byte that isn't a blank.
pub fn from_visible(text: &[u8]) -> &[u8]
    ensures { result.now ≡ from_visible text.now }
{
    &text[visible_at(text)..]
}

// The text without the blanks at its end.
fn to_visible(text: &[u8]) -> &[u8]
    ensures { result.now ≡ to_visible text.now }
{
    let mut end = text.len();
    while end > 0 && is_blank(text[end - 1]) {
        end -= 1;
    }
    &text[..end]
}

// The place of the first blank, or the end.
fn blank_at(text: &[u8]) -> usize
    ensures place { result ≡ position_or_len is_blank text.now }
    ensures within { result ≤ length text.now }
{
    for (place, byte) in text.iter().enumerate() {
        if is_blank(*byte) {
            return place;
        }
    }
    text.len()
}

// The place of the first byte that isn't a blank, or the end.
fn visible_at(text: &[u8]) -> usize
    ensures place { result ≡ position_or_len is_visible text.now }
    ensures within { result ≤ length text.now }
{
    for (place, byte) in text.iter().enumerate() {
        if !is_blank(*byte) {
            return place;
        }
    }
    text.len()
}

/// Whether a byte is a space or a tab.
pub fn is_blank(byte: u8) -> bool
    ensures { result ≡ is_blank byte }
{
    byte == b' ' || byte == b'\t'
}

/// Whether a line has blanks alone, or begins a remark: its first byte other than a blank is `#`.
pub fn is_skipped(line: &[u8]) -> bool
    ensures { result ≡ is_skipped line.now }
{
    match from_visible(line) {
        [] => true,
        [first, ..] => *first == b'#',
    }
}

/// What stands before and behind the first such byte, or nothing exactly where there is none.
pub fn cut(text: &[u8], at: u8) -> Option<(&[u8], &[u8])>
    ensures none { IfNone result (position_or_len (λ b. b == at) text.now ≡ length text.now) }
    ensures some { IfSome result (λ _. position_or_len (λ b. b == at) text.now < length text.now) }
    ensures before { IfSome result (λ parts. parts.0.now ≡ before_first (λ b. b == at) text.now) }
    ensures behind { IfSome result (λ parts. parts.1.now ≡ after_first (λ b. b == at) text.now) }
{
    let Some(place) = place_of(text, at) else {
        return None;
    };
    Some((&text[..place], &text[place + 1..]))
}

// The place of the first such byte.
fn place_of(text: &[u8], wanted: u8) -> Option<usize>
    ensures { result ≡ position (λ b. b == wanted) text.now }
{
    text.iter().position(|byte| *byte == wanted)
}
