// Lists of numbers, as they stand in a value.
ghost use Rattle.std.specs.Prelude.{◌≡◌, ◌≤◌, ◌<◌, ℕ, IfSome, length, option_map, slice_index, true};
ghost use Rattle.std.specs.List.{list_all};
ghost use Rattle.mp_values.specs.Values.{code_of, coordinate_of, few_read, is_between, is_coordinate, is_number, number_in};

use arrayvec::ArrayVec;
use mp_base::{read_micro, read_whole};
use mp_text::next_field;

/// The number of a text, where it is one from `low` to `high`.
#[tactic(auto, unfolding(crate::specs::Values::number_in))]
pub fn number_in(text: &[u8], low: u32, high: u32) -> Option<u32>
    ensures value { result ≡ number_in low high text.now }
    ensures range { IfSome result (λ n. (low ≤ n) × (n ≤ high)) }
    ensures between { IfSome result (λ n. is_between low high n ≡ true) }
{
    let Ok(number) = read_whole(text) else {
        return None;
    };
    if number < 0 {
        return None;
    }
    let number = number as u32;
    if low <= number && number <= high {
        Some(number)
    } else {
        None
    }
}

/// The numbers from `low` to `high` of a text, where it has no others and at most eight fields.
pub fn numbers_in(text: &[u8], low: u32, high: u32) -> Option<ArrayVec<u32, 8>>
    ensures value { option_map (λ v. v.items) result ≡ few_read (number_in low high) text.now }
    ensures range { IfSome result (λ v. (k : ℕ) → k < length v.items → slice_index v.items k ≤ high) }
    ensures all { IfSome result (λ v. list_all (is_between low high) v.items ≡ true) }
{
    let mut numbers = ArrayVec::new();
    let mut rest = text;
    while let Some((field, more)) = next_field(rest) {
        if numbers.is_full() {
            return None;
        }
        let Some(number) = number_in(field, low, high) else {
            return None;
        };
        numbers.push(number);
        rest = more;
    }
    Some(numbers)
}

/// The code of a text.
#[tactic(auto, unfolding(crate::specs::Values::code_of))]
pub fn code(text: &[u8]) -> Option<i32>
    ensures value { result ≡ code_of text.now }
    ensures number { IfSome result (λ z. is_number z ≡ true) }
{
    let Ok(code) = read_whole(text) else {
        return None;
    };
    Some(code)
}

/// The codes of a text, where each field is one and there are at most eight.
pub fn codes(text: &[u8]) -> Option<ArrayVec<i32, 8>>
    ensures value { option_map (λ v. v.items) result ≡ few_read code_of text.now }
    ensures all { IfSome result (λ v. list_all is_number v.items ≡ true) }
{
    let mut codes = ArrayVec::new();
    let mut rest = text;
    while let Some((field, more)) = next_field(rest) {
        if codes.is_full() {
            return None;
        }
        let Some(code) = code(field) else {
            return None;
        };
        codes.push(code);
        rest = more;
    }
    Some(codes)
}

// The coordinate of a text.
#[tactic(auto, unfolding(crate::specs::Values::coordinate_of))]
fn coordinate(text: &[u8]) -> Option<i64>
    ensures value { result ≡ coordinate_of text.now }
    ensures coordinate { IfSome result (λ z. is_coordinate z ≡ true) }
{
    let Ok(coordinate) = read_micro(text) else {
        return None;
    };
    Some(coordinate)
}

/// The coordinates of a text, where each field is one and there are at most eight.
pub fn coordinates(text: &[u8]) -> Option<ArrayVec<i64, 8>>
    ensures value { option_map (λ v. v.items) result ≡ few_read coordinate_of text.now }
    ensures all { IfSome result (λ v. list_all is_coordinate v.items ≡ true) }
{
    let mut coordinates = ArrayVec::new();
    let mut rest = text;
    while let Some((field, more)) = next_field(rest) {
        if coordinates.is_full() {
            return None;
        }
        let Some(coordinate) = coordinate(field) else {
            return None;
        };
        coordinates.push(coordinate);
        rest = more;
    }
    Some(coordinates)
}
