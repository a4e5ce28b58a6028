// The words of `scan` after the parameter file.
ghost use Rattle.std.specs.Prelude.{◌≡◌, ◌≤◌, Some, None, IfSome, true, if◌then◌else◌};
ghost use Rattle.mp_base.specs.Number.{short_number};
ghost use Rattle.multigrid.specs.Levels.{IsLevel};
ghost use Rattle.mps_scan.specs.Coded.{positions_rise};
ghost use Rattle.mps_scan.specs.Words.{code_of, data_in, datum_of, event_in, scan_words, up_to, with_part};

use crate::coded::{CodedDatum, CodedEvent};
use mp_base::short_number;
use mp_text::cut;

// The greatest level and the greatest position of a template.
const MAX_LEVEL: u8 = 8;

const MAX_POSITION: u8 = 64;

/// What the two words after the parameter file ask for: a level, counted from 1, and an event.
#[derive(Drop)]
pub struct ScanWords {
    pub level: u8,
    pub event: CodedEvent,
}

/// The level and the event that two words are, or nothing exactly where they are none. A level is
/// one to four digits with a value from 1 to 8. An event is `none`, or data with single commas
/// between: each a position of one or two digits from 1 to 64, a `=` and a code of one to nine
/// digits, which may have a `-` in front. Positions rise.
#[tactic(auto, unfolding(crate::specs::Words::scan_words))]
pub fn read_scan_words(level: &[u8], event: &[u8]) -> Option<ScanWords>
    ensures words { result ≡ scan_words level.now event.now }
    ensures level { IfSome result (λ words. IsLevel words.level) }
{
    let Some(level) = number_up_to(level, 4, MAX_LEVEL) else {
        return None;
    };
    let Some(event) = event_of(event) else {
        return None;
    };
    Some(ScanWords { level, event })
}

fn event_of(word: &[u8]) -> Option<CodedEvent>
    ensures { result ≡ event_in word.now }
{
    if word == b"none".as_slice() {
        Some(CodedEvent::empty())
    } else {
        data_of(word)
    }
}

// The data between the commas of a word.
fn data_of(word: &[u8]) -> Option<CodedEvent>
    ensures { result ≡ data_in word.now }
{
    let mut event = CodedEvent::empty();
    let mut rest = word;
    while let Some((part, more)) = cut(rest, b',') {
        if !push_part(&mut event, part) {
            return None;
        }
        rest = more;
    }
    if push_part(&mut event, rest) {
        Some(event)
    } else {
        None
    }
}

// Adds the datum that a text is, where it is one at a position beyond all others, and says whether
// it did.
fn push_part(event: &mut CodedEvent, text: &[u8]) -> bool
    ensures part { with_part event.old text.now ≡ (if result then Some event.new else None) }
    ensures rise { positions_rise 1 event.new ≡ true }
{
    let next = event.next_position();
    let Some(datum) = datum_of(text) else {
        return false;
    };
    if datum.position < next {
        return false;
    }
    event.push(datum);
    true
}

#[tactic(auto, unfolding(crate::specs::Words::datum_of))]
fn datum_of(text: &[u8]) -> Option<CodedDatum>
    ensures value { result ≡ datum_of text.now }
    ensures few { IfSome result (λ datum. datum.position ≤ 64) }
{
    let Some((position, code)) = cut(text, b'=') else {
        return None;
    };
    let Some(position) = number_up_to(position, 2, MAX_POSITION) else {
        return None;
    };
    let Some(code) = code_of(code) else {
        return None;
    };
    Some(CodedDatum { position, code })
}

#[tactic(auto, unfolding(crate::specs::Words::code_of))]
fn code_of(text: &[u8]) -> Option<i32>
    ensures { result ≡ code_of text.now }
{
    match text {
        [b'-', digits @ ..] => match short_number(digits, 9) {
            Some(size) => Some(-(size as i32)),
            None => None,
        },
        _ => match short_number(text, 9) {
            Some(size) => Some(size as i32),
            None => None,
        },
    }
}

/// The number from 1 to `last` that one to `most` digits write.
pub fn number_up_to(text: &[u8], most: usize, last: u8) -> Option<u8>
    requires { most ≤ 9 }
    ensures value { result ≡ up_to last (short_number most text.now) }
    ensures some { IfSome result (λ number. 1 ≤ number) }
    ensures few { IfSome result (λ number. number ≤ last) }
{
    let Some(number) = short_number(text, most) else {
        return None;
    };
    if 1 <= number && number <= u128::from(last) {
        Some(number as u8)
    } else {
        None
    }
}
