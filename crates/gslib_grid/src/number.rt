// The numbers of a row, and the number of variables.
ghost use Rattle.std.specs.Prelude.{◌≡◌, ◌≤◌, ◌<◌, ◌∷◌, [], IfSome, Some, length, pos};
ghost use Rattle.std.specs.List.{position};
ghost use Rattle.std.specs.Ordering.{int_eq};
ghost use Rattle.mp_text.specs.Fields.{fields_of};
ghost use Rattle.gslib_grid.specs.Table.{coordinate_in, code_in, category_of, count_in};
ghost use Rattle.std.specs.Result.{result_ok};
ghost use Rattle.mp_base.specs.Number.{whole_of};
ghost use Rattle.mp_base.specs.Grid.{IsBelow};

use crate::want::Wanted;
use mp_base::{Cat, Codes, read_micro, read_whole, short_number};
use mp_text::field_at;

// The most digits of the number of variables, and the most variables.
const MAX_DIGITS: usize = 9;

const MAX_VARIABLES: u128 = 64;

/// The wanted numbers of a row: the coordinates that are read, and the category's code.
#[derive(Clone, Copy, Debug, PartialEq, Eq)]
pub struct Numbers {
    pub x: Option<i64>,
    pub y: Option<i64>,
    pub z: Option<i64>,
    pub code: i32,
}

impl Numbers {
    ghost use Rattle.gslib_grid.specs.Table.{numbers_in};
    ghost use Rattle.gslib_grid.specs.Steps.{code_alone};

    /// The numbers of a row of which the category's code alone is read.
    pub fn of_code(code: i32) -> Numbers
        ensures { result ≡ code_alone code }
    {
        Numbers {
            x: None,
            y: None,
            z: None,
            code,
        }
    }

    /// The wanted numbers of a row, or nothing where a wanted field isn't a number of its kind.
    #[tactic(auto, unfolding(crate::specs::Table::numbers_in))]
    pub fn read(text: &[u8], wanted: &Wanted) -> Option<Numbers>
        requires { 1 ≤ wanted.now.category }
        ensures { result ≡ numbers_in wanted.now (fields_of text.now) }
    {
        let x = coordinate(text, wanted.x)?;
        let y = coordinate(text, wanted.y)?;
        let z = coordinate(text, wanted.z)?;
        let code = code(text, wanted.category)?;
        Some(Numbers { x, y, z, code })
    }
}

// The coordinate in a column, or nothing where it isn't a number. It is nothing where the column is 0.
fn coordinate(text: &[u8], column: u16) -> Option<Option<i64>>
    ensures { result ≡ coordinate_in (fields_of text.now) column }
{
    if column == 0 {
        return Some(None);
    }
    let field = field_at(text, column as usize)?;
    match read_micro(field) {
        Ok(value) => Some(Some(value)),
        Err(_) => None,
    }
}

/// The code in a column, or nothing where it isn't a whole number.
pub fn code(text: &[u8], column: u16) -> Option<i32>
    requires { 1 ≤ column }
    ensures { result ≡ code_in (fields_of text.now) column }
{
    let field = field_at(text, column as usize)?;
    whole(field)
}

// The whole number that a field spells. Most codes are one digit, which needs no look at the grammar.
fn whole(field: &[u8]) -> Option<i32>
    ensures { result ≡ result_ok (whole_of field.now) }
{
    if let Some(digit) = lone_digit(field) {
        return Some(i32::from(digit));
    }
    match read_whole(field) {
        Ok(value) => Some(value),
        Err(_) => None,
    }
}

/// The number of a text that is one digit, which is its only field.
pub fn lone_digit(text: &[u8]) -> Option<u8>
    ensures value { IfSome result (λ digit. result_ok (whole_of text.now) ≡ Some (pos digit)) }
    ensures field { IfSome result (λ _. fields_of text.now ≡ text.now ∷ []) }
{
    if text.len() == 1 && text[0].is_ascii_digit() {
        return Some(text[0] - b'0');
    }
    None
}

/// The category of a code, which is nothing for the missing code; or nothing where the code is neither
/// listed nor the missing one.
#[tactic(auto, unfolding(crate::specs::Table::category_of))]
pub fn category(codes: &Codes, code: i32) -> Option<Option<Cat>>
    ensures value { result ≡ category_of codes.now code }
    ensures below { IfSome result (IsBelow 8) }
{
    match place_of(codes.categories.as_slice(), code) {
        Some(place) => Some(Some(Cat(place as u8))),
        None if is_missing(codes, code) => Some(None),
        None => None,
    }
}

// The place of a code in a list. All of it is looked at: where codes follow each other at random, a way out
// of the loop that is guessed wrong costs more than the rest of at most eight codes.
fn place_of(codes: &[i32], code: i32) -> Option<usize>
    ensures place { result ≡ position (int_eq code) codes.now }
    ensures within { IfSome result (λ place. place < length codes.now) }
{
    let mut place = codes.len();
    let mut at = codes.len();
    while at > 0 {
        at -= 1;
        if is_same(code, &codes[at]) {
            place = at;
        }
    }
    if place < codes.len() {
        Some(place)
    } else {
        None
    }
}

// Whether a code is a listed one.
fn is_same(code: i32, listed: &i32) -> bool
    ensures { result ≡ int_eq code listed.now }
{
    code == *listed
}

// Whether a code is the missing one.
fn is_missing(codes: &Codes, code: i32) -> bool
    ensures { result ≡ int_eq code codes.now.missing }
{
    code == codes.missing
}

/// The number of variables that the second line tells, from 1 to 64: its first field is one to nine
/// digits.
#[tactic(auto, unfolding(crate::specs::Table::count_in))]
pub fn variables(text: &[u8]) -> Option<u32>
    ensures value { result ≡ count_in (fields_of text.now) }
    ensures few { IfSome result (λ v. v ≤ 64) }
{
    let field = field_at(text, 1)?;
    match short_number(field, MAX_DIGITS) {
        Some(count) if 1 <= count && count <= MAX_VARIABLES => Some(count as u32),
        _ => None,
    }
}
