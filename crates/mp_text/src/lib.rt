//! Texts as files and words hold them: lines, fields between blanks, and what stands before and behind
//! a byte. Nothing here takes memory.
#![tactic(auto)]

mod field;
mod line;

pub use field::{
    cut, field_at, from_visible, has_fields, is_blank, is_skipped, next_field, trimmed,
};
pub use line::{line_end, line_text, next_line, without_line_feed};

#[cfg(test)]
mod tests;
