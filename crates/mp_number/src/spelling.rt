// The parts of a number's spelling: a sign, digits with a point, and an exponent.
ghost use Rattle.std.specs.Prelude.{◌≡◌, ◌≤◌, ◌+◌, IfSome, length, drop};
ghost use Rattle.std.specs.List.{position_or_len};
ghost use Rattle.std.specs.Str.Parse.{starts_with_minus, without_leading_sign};
ghost use Rattle.mp_number.specs.Number.{are_digits, exponent_in, is_mark, is_point, moved_by, moves_of, parts_of, spelling_of};

use crate::digit_text::{all_digits, short_number};
use std::marker::Model;

// The greatest length of a number's text.
const MAX_LENGTH: usize = 64;

// The greatest number of digits of an exponent.
const MAX_EXPONENT: usize = 3;

/// How many places an exponent moves the point to the right or to the left.
#[derive(Clone, Copy, Debug, PartialEq, Eq)]
pub struct Moves {
    pub right: u32,
    pub left: u32,
}

/// A number's spelling, cut into its parts.
#[derive(Drop)]
pub struct Spelling<'a> {
    pub negative: bool,
    pub whole: &'a [u8],
    pub fraction: &'a [u8],
    pub moves: Moves,
}

impl<'a> Model for Spelling<'a> {
    ghost use Rattle.mp_number.specs.Number.{Spelling, IsSpelling};

    ghost Value = { Spelling };

    ghost view = { λ s. record { negative = s.negative; whole = s.whole.now; fraction = s.fraction.now; moves = s.moves } };

    ghost invariant = { λ s. IsSpelling (record { negative = s.negative; whole = s.whole.now; fraction = s.fraction.now; moves = s.moves }) };
}

/// The parts of a text, or nothing exactly where it isn't the spelling of a number.
pub fn spelled(text: &[u8]) -> Option<Spelling<'_>>
    ensures { result ≡ spelling_of text.now }
{
    if text.len() > MAX_LENGTH {
        return None;
    }
    parts(has_minus(text), without_sign(text))
}

// The parts of a text whose sign is taken off.
fn parts(negative: bool, text: &[u8]) -> Option<Spelling<'_>>
    ensures { result ≡ parts_of negative text.now }
{
    let mark = mark_at(text);
    let mantissa = &text[..mark];
    let point = point_at(mantissa);
    let whole = &mantissa[..point];
    let fraction = after(mantissa, point);
    if !are_digits(whole, fraction) {
        return None;
    }
    let Some(moves) = moves_behind(text, mark) else {
        return None;
    };
    Some(Spelling {
        negative,
        whole,
        fraction,
        moves,
    })
}

// How far the exponent moves the point, where the mark is at this place or else there is none.
fn moves_behind(text: &[u8], mark: usize) -> Option<Moves>
    requires mark { mark ≡ position_or_len is_mark text.now }
    requires within { mark ≤ length text.now }
    ensures moves { result ≡ moves_of (exponent_in text.now) }
    ensures few { IfSome result (λ m. m.right + m.left ≤ 999) }
{
    if mark == text.len() {
        return Some(moved_by(false, 0));
    }
    moves_by(&text[mark + 1..])
}

// How far an exponent moves the point.
fn moves_by(exponent: &[u8]) -> Option<Moves>
    ensures moves { result ≡ moves_of (Some exponent.now) }
    ensures few { IfSome result (λ m. m.right + m.left ≤ 999) }
{
    let Some(places) = short_number(without_sign(exponent), MAX_EXPONENT) else {
        return None;
    };
    Some(moved_by(has_minus(exponent), places as u32))
}

// A move to the right, or back to the left.
fn moved_by(back: bool, places: u32) -> Moves
    ensures moves { result ≡ moved_by back places }
    ensures sum { result.right + result.left ≡ places }
{
    if back {
        Moves {
            right: 0,
            left: places,
        }
    } else {
        Moves {
            right: places,
            left: 0,
        }
    }
}

// Whether digits stand before the point and behind it, and at least one.
fn are_digits(whole: &[u8], fraction: &[u8]) -> bool
    ensures { result ≡ are_digits whole.now fraction.now }
{
    all_digits(whole) && all_digits(fraction) && !(whole.is_empty() && fraction.is_empty())
}

// Whether a minus stands first.
fn has_minus(text: &[u8]) -> bool
    ensures { result ≡ starts_with_minus text.now }
{
    !text.is_empty() && text[0] == b'-'
}

// The text without the sign that may stand first.
fn without_sign(text: &[u8]) -> &[u8]
    ensures { result.now ≡ without_leading_sign text.now }
{
    if !text.is_empty() && (text[0] == b'-' || text[0] == b'+') {
        &text[1..]
    } else {
        text
    }
}

// What stands behind a place.
fn after(text: &[u8], place: usize) -> &[u8]
    requires { place ≤ length text.now }
    ensures { result.now ≡ drop (place + 1) text.now }
{
    if place < text.len() {
        &text[place + 1..]
    } else {
        &text[place..]
    }
}

// The place of the first mark of an exponent, or the end.
fn mark_at(text: &[u8]) -> usize
    ensures place { result ≡ position_or_len is_mark text.now }
    ensures within { result ≤ length text.now }
{
    for (place, byte) in text.iter().enumerate() {
        if is_mark(*byte) {
            return place;
        }
    }
    text.len()
}

// The place of the first point, or the end.
fn point_at(text: &[u8]) -> usize
    ensures place { result ≡ position_or_len is_point text.now }
    ensures within { result ≤ length text.now }
{
    for (place, byte) in text.iter().enumerate() {
        if *byte == b'.' {
            return place;
        }
    }
    text.len()
}

// Whether a byte begins an exponent.
fn is_mark(byte: u8) -> bool
    ensures { result ≡ is_mark byte }
{
    matches!(byte, b'e' | b'E' | b'd' | b'D')
}
