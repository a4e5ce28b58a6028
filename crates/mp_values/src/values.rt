// What a value's text stands for, by the form of its key.
ghost use Rattle.std.specs.Prelude.{◌≡◌, ◌≤◌, IfOk, IfSome, length, nat_abs, option_map, slice_index, true};
ghost use Rattle.std.specs.List.{list_all};
ghost use Rattle.mp_base.specs.Grid.{IsShape};
ghost use Rattle.mp_values.specs.Values.{are_codes, are_columns, are_distinct, are_sizes, codes_of, columns_of, is_between, is_coordinate, is_name as is_name_text, is_number, is_size, name_of, origin_of, radii_of, seed_of, shape_of, sizes_of, store_of, targets_of, version_of};

use crate::choice::StoreChoice;
use crate::lists::{codes, coordinates, numbers_in};
use crate::names::{Name, is_name};
use crate::shares::Targets;
use mp_base::{CodeList, NoMemory, Shape, short_number};
use std::alloc::Global;
use std::str;

// The greatest number that can be read.
const MAX_NUMBER: u32 = 999_999_999;

// The greatest column and the greatest radius.
const MAX_COLUMN: u32 = 64;

const MAX_RADIUS: u32 = 64;

// The whole that targets are parts of.
const MILLION: u32 = 1_000_000;

// The greatest length of a cell, in millionths.
const MAX_SIZE: i64 = 1_000_000_000_000_000;

// The greatest number of digits of a seed.
const MAX_SEED_DIGITS: usize = 20;

/// The name that a text is, if it is one.
pub fn name(alloc: Global, text: &[u8]) -> Result<Option<Name>, NoMemory>
    ensures value { IfOk result (λ n. n ≡ name_of text.now) }
    ensures name { IfOk result (λ n. IfSome n (λ n. is_name_text n ≡ true)) }
{
    if !is_name(text) {
        return Ok(None);
    }
    let Ok(text) = str::from_utf8(text) else {
        return Ok(None);
    };
    Ok(Name::new(String::from_str(alloc, text)?))
}

/// The version that a text is.
pub fn version(text: &[u8]) -> Option<u8>
    ensures value { result ≡ version_of text.now }
    ensures one { IfSome result (λ v. v ≡ 1) }
{
    if text == b"1".as_slice() {
        Some(1)
    } else {
        None
    }
}

/// The shape that a text is.
pub fn shape(text: &[u8]) -> Option<Shape>
    ensures value { result ≡ shape_of text.now }
    ensures shape { IfSome result IsShape }
{
    let Some(numbers) = numbers_in(text, 0, MAX_NUMBER) else {
        return None;
    };
    if numbers.len() != 3 {
        return None;
    }
    Shape::new(numbers[0], numbers[1], numbers[2]).ok()
}

/// The codes of categories that a text is.
pub fn categories(text: &[u8]) -> Option<CodeList>
    ensures value { result ≡ codes_of text.now }
    ensures codes { IfSome result (λ cs. are_codes cs ≡ true) }
    ensures numbers { IfSome result (λ cs. list_all is_number cs ≡ true) }
    ensures few { IfSome result (λ cs. length cs ≤ 8) }
{
    let Some(codes) = codes(text) else {
        return None;
    };
    if codes.is_empty() || !are_distinct(codes.as_slice()) {
        return None;
    }
    Some(CodeList::new(codes))
}

// Whether no code stands twice.
fn are_distinct(codes: &[i32]) -> bool
    ensures { result ≡ are_distinct codes.now }
{
    match codes {
        [] => true,
        [first, rest @ ..] => !rest.contains(first) && are_distinct(rest),
    }
}

/// The origin that a text is, in millionths.
pub fn origin(text: &[u8]) -> Option<[i64; 3]>
    ensures value { result ≡ origin_of text.now }
    ensures three { IfSome result (λ zs. length zs ≡ 3) }
    ensures coordinates { IfSome result (λ zs. list_all is_coordinate zs ≡ true) }
{
    let Some(places) = coordinates(text) else {
        return None;
    };
    if places.len() != 3 {
        return None;
    }
    Some([places[0], places[1], places[2]])
}

/// The size of a cell that a text is, in millionths.
pub fn sizes(text: &[u8]) -> Option<[i64; 3]>
    ensures value { result ≡ sizes_of text.now }
    ensures sizes { IfSome result (λ zs. are_sizes zs ≡ true) }
{
    let Some(sizes) = coordinates(text) else {
        return None;
    };
    if sizes.len() != 3 || !sizes.iter().all(|size| is_size(*size)) {
        return None;
    }
    Some([sizes[0], sizes[1], sizes[2]])
}

// Whether a cell may have this length, in millionths.
fn is_size(size: i64) -> bool
    ensures { result ≡ is_size size }
{
    1 <= size && size <= MAX_SIZE
}

/// The columns of a point file that a text is.
pub fn columns(text: &[u8]) -> Option<[u16; 4]>
    ensures value { result ≡ columns_of text.now }
    ensures columns { IfSome result (λ ns. are_columns ns ≡ true) }
    ensures between { IfSome result (λ ns. list_all (is_between 0 64) ns ≡ true) }
{
    let Some(numbers) = numbers_in(text, 0, MAX_COLUMN) else {
        return None;
    };
    if numbers.len() != 4 || numbers[3] == 0 {
        return None;
    }
    Some([
        numbers[0] as u16,
        numbers[1] as u16,
        numbers[2] as u16,
        numbers[3] as u16,
    ])
}

/// The radii that a text is.
pub fn radii(text: &[u8]) -> Option<[u8; 3]>
    ensures value { result ≡ radii_of text.now }
    ensures three { IfSome result (λ ns. length ns ≡ 3) }
    ensures between { IfSome result (λ ns. list_all (is_between 0 64) ns ≡ true) }
{
    let Some(numbers) = numbers_in(text, 0, MAX_RADIUS) else {
        return None;
    };
    if numbers.len() != 3 {
        return None;
    }
    Some([numbers[0] as u8, numbers[1] as u8, numbers[2] as u8])
}

/// The targets that a text is.
pub fn targets(text: &[u8]) -> Option<Targets>
    ensures value { result ≡ targets_of text.now }
    ensures some { IfSome result (λ ns. 1 ≤ length ns) }
    ensures few { IfSome result (λ ns. length ns ≤ 8) }
    ensures between { IfSome result (λ ns. list_all (is_between 0 1000000) ns ≡ true) }
{
    let Some(numbers) = numbers_in(text, 0, MILLION) else {
        return None;
    };
    if numbers.is_empty() {
        return None;
    }
    Some(Targets::new(numbers))
}

/// The seed that a text is.
#[tactic(auto, unfolding(crate::specs::Values::seed_of))]
pub fn seed(text: &[u8]) -> Option<u64>
    ensures { result ≡ seed_of text.now }
{
    match short_number(text, MAX_SEED_DIGITS) {
        Some(seed) if seed <= u128::from(u64::MAX) => Some(seed as u64),
        _ => None,
    }
}

/// The store that a text is.
pub fn store(text: &[u8]) -> Option<StoreChoice>
    ensures { result ≡ store_of text.now }
{
    if text == b"tree".as_slice() {
        Some(StoreChoice::Tree)
    } else if text == b"list".as_slice() {
        Some(StoreChoice::List)
    } else {
        None
    }
}
