// The names of files.
ghost use Rattle.std.specs.Prelude.{◌≡◌, ◌-◌, ◌&&◌, None, Some, if◌then◌else◌, length, slice_index, true};
ghost use Rattle.std.specs.String.{string_bytes};
ghost use Rattle.std.specs.List.{list_all};
ghost use Rattle.mp_text.specs.Fields.{is_visible};
ghost use Rattle.mp_values.specs.Values.{is_line_byte, is_name};

use mp_text::is_blank;
use std::marker::Model;

// The greatest length of a name.
const MAX_LENGTH: usize = 255;

/// The name of a file: 1 to 255 bytes that a line of a parameter file may hold, with no blank at
/// either end.
#[derive(Debug, Drop)]
pub struct Name {
    text: String,
}

impl Model for Name {
    ghost use Rattle.std.specs.Prelude.{◌≡◌, ℕ, List, true};
    ghost use Rattle.std.specs.String.{string_bytes};
    ghost use Rattle.mp_values.specs.Values.{is_name};

    ghost Value = { List ℕ };

    ghost view = { λ n. string_bytes n.text };

    ghost invariant = { λ n. is_name (string_bytes n.text) ≡ true };
}

impl Name {
    /// The name of this text, or nothing exactly where it is no name.
    pub fn new(text: String) -> Option<Name>
        ensures { result ≡ (if is_name (string_bytes text) then Some (string_bytes text) else None) }
    {
        if !is_name(text.as_bytes()) {
            return None;
        }
        Some(Name { text })
    }

    /// The bytes of the name.
    pub fn as_slice(&self) -> &[u8]
        ensures bytes { result.now ≡ self.now }
        ensures name { is_name result.now ≡ true }
    {
        self.text.as_bytes()
    }

    /// The name as text.
    pub fn as_str(&self) -> &str
        ensures text { result.now ≡ self.now }
        ensures name { is_name result.now ≡ true }
    {
        self.text.as_str()
    }

    /// The text as it was given.
    pub fn into_inner(self) -> String
        ensures { string_bytes result ≡ self }
    {
        self.text
    }
}

/// Whether these bytes are a name.
pub fn is_name(text: &[u8]) -> bool
    ensures { result ≡ is_name text.now }
{
    1 <= text.len() && text.len() <= MAX_LENGTH && are_line_bytes(text) && has_visible_ends(text)
}

// Whether no blank stands at either end.
fn has_visible_ends(text: &[u8]) -> bool
    ensures { result ≡ (is_visible (slice_index text.now 0) && is_visible (slice_index text.now (length text.now - 1))) }
{
    text.is_empty() || (!is_blank(text[0]) && !is_blank(text[text.len() - 1]))
}

/// Whether a line may hold these bytes.
pub fn are_line_bytes(text: &[u8]) -> bool
    ensures { result ≡ list_all is_line_byte text.now }
{
    text.iter().all(|byte| is_line_byte(*byte))
}

// Whether a line may hold a byte: a tab, or a printable byte of ASCII.
fn is_line_byte(byte: u8) -> bool
    ensures { result ≡ is_line_byte byte }
{
    byte == b'\t' || (b' '..=b'~').contains(&byte)
}
