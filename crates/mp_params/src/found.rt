// The values of keys, where settings are whole: their texts have the forms of their keys, and no required
// key is absent.
ghost use Rattle.std.specs.Prelude.{◌≡◌, [], IfOk, IfSome, pos, true};
ghost use Rattle.std.specs.List.{find};
ghost use Rattle.mp_base.specs.Grid.{IsShape};
ghost use Rattle.mp_params.specs.Reading.{first_absent, no_sides, number, optional, text_for, value};
ghost use Rattle.mp_params.specs.Table.{form_of, keys};
ghost use Rattle.mp_params.specs.Whole.{IsWhole, has_value, is_absent, is_number_form};
ghost use Rattle.mp_values.specs.Forms.{AreCategories, AreColumns, AreParts, AreRadii, IsOrigin, is_number_of, number_of};
ghost use Rattle.mp_values.specs.Values.{are_sizes, code_of, codes_of, columns_of, is_name, is_number, name_of, origin_of, radii_of, seed_of, shape_of, sizes_of, store_of, targets_of, version_of};

use crate::settings::{Setting, given};
use crate::table::{KEYS, Key};
use mp_base::{CodeList, NoMemory, Shape};
use mp_values as values;
use mp_values::{Form, Name, StoreChoice, Targets};
use std::alloc::Global;

/// The first of the required keys that no line has.
pub fn first_absent(settings: &[Setting<'_>]) -> Option<Key>
    ensures { result ≡ first_absent settings.now }
{
    first_of_keys(settings)
}

// The first of all keys that is required and that no line has.
fn first_of_keys(settings: &[Setting<'_>]) -> Option<Key>
    ensures { result ≡ find (is_absent settings.now) keys }
{
    KEYS.iter().copied().find(|key| is_absent(settings, *key))
}

// Whether a key is required, and no line has it.
fn is_absent(settings: &[Setting<'_>], key: Key) -> bool
    ensures { result ≡ is_absent settings.now key }
{
    key.row().is_required && given(settings, key.name().as_bytes()).is_none()
}

// The text of a key's value: what the settings give, or else the default.
fn text_for<'a>(settings: &[Setting<'a>], key: Key) -> &'a [u8]
    ensures { result.now ≡ text_for key settings.now }
{
    match given(settings, key.name().as_bytes()) {
        Some(text) => text,
        None => key.default().unwrap_or(b""),
    }
}

/// The number of a key.
pub fn number(settings: &[Setting<'_>], key: Key) -> u32
    requires whole { IsWhole settings.now }
    requires form { is_number_form (form_of key) ≡ true }
    requires some { has_value key ≡ true }
    ensures value { result ≡ number key settings.now }
    ensures range { is_number_of (form_of key) result ≡ true }
{
    let Some(number) = number_of(key.form(), text_for(settings, key)) else {
        unreachable!()
    };
    number
}

// The number of this form that a text is.
fn number_of(form: Form, text: &[u8]) -> Option<u32>
    ensures value { result ≡ number_of form text.now }
    ensures range { IfSome result (λ n. is_number_of form n ≡ true) }
{
    match form {
        Form::Number(low, high) => values::number_in(text, low, high),
        _ => None,
    }
}

/// The version of a key.
pub fn version(settings: &[Setting<'_>], key: Key) -> u8
    requires whole { IsWhole settings.now }
    requires form { form_of key ≡ Form.Version }
    requires some { has_value key ≡ true }
    ensures value { result ≡ value 0 version_of key settings.now }
    ensures one { result ≡ 1 }
{
    let Some(value) = values::version(text_for(settings, key)) else {
        unreachable!()
    };
    value
}

/// The shape of a key.
pub fn shape(settings: &[Setting<'_>], key: Key) -> Shape
    requires whole { IsWhole settings.now }
    requires form { form_of key ≡ Form.Shape }
    requires some { has_value key ≡ true }
    ensures value { result ≡ value no_sides shape_of key settings.now }
    ensures shape { IsShape result }
{
    let Some(value) = values::shape(text_for(settings, key)) else {
        unreachable!()
    };
    value
}

/// The codes of the categories of a key.
pub fn categories(settings: &[Setting<'_>], key: Key) -> CodeList
    requires whole { IsWhole settings.now }
    requires form { form_of key ≡ Form.Codes }
    requires some { has_value key ≡ true }
    ensures value { result ≡ value [] codes_of key settings.now }
    ensures categories { AreCategories result }
{
    let Some(value) = values::categories(text_for(settings, key)) else {
        unreachable!()
    };
    value
}

/// The code of a key.
pub fn code(settings: &[Setting<'_>], key: Key) -> i32
    requires whole { IsWhole settings.now }
    requires form { form_of key ≡ Form.Code }
    requires some { has_value key ≡ true }
    ensures value { result ≡ value (pos 0) code_of key settings.now }
    ensures number { is_number result ≡ true }
{
    let Some(value) = values::code(text_for(settings, key)) else {
        unreachable!()
    };
    value
}

/// The origin, in millionths of a key.
pub fn origin(settings: &[Setting<'_>], key: Key) -> [i64; 3]
    requires whole { IsWhole settings.now }
    requires form { form_of key ≡ Form.Origin }
    requires some { has_value key ≡ true }
    ensures value { result ≡ value [] origin_of key settings.now }
    ensures origin { IsOrigin result }
{
    let Some(value) = values::origin(text_for(settings, key)) else {
        unreachable!()
    };
    value
}

/// The size of a cell, in millionths of a key.
pub fn sizes(settings: &[Setting<'_>], key: Key) -> [i64; 3]
    requires whole { IsWhole settings.now }
    requires form { form_of key ≡ Form.Sizes }
    requires some { has_value key ≡ true }
    ensures value { result ≡ value [] sizes_of key settings.now }
    ensures sizes { are_sizes result ≡ true }
{
    let Some(value) = values::sizes(text_for(settings, key)) else {
        unreachable!()
    };
    value
}

/// The columns of a key.
pub fn columns(settings: &[Setting<'_>], key: Key) -> [u16; 4]
    requires whole { IsWhole settings.now }
    requires form { form_of key ≡ Form.Columns }
    requires some { has_value key ≡ true }
    ensures value { result ≡ value [] columns_of key settings.now }
    ensures columns { AreColumns result }
{
    let Some(value) = values::columns(text_for(settings, key)) else {
        unreachable!()
    };
    value
}

/// The radii of a key.
pub fn radii(settings: &[Setting<'_>], key: Key) -> [u8; 3]
    requires whole { IsWhole settings.now }
    requires form { form_of key ≡ Form.Radii }
    requires some { has_value key ≡ true }
    ensures value { result ≡ value [] radii_of key settings.now }
    ensures radii { AreRadii result }
{
    let Some(value) = values::radii(text_for(settings, key)) else {
        unreachable!()
    };
    value
}

/// The seed of a key.
pub fn seed(settings: &[Setting<'_>], key: Key) -> u64
    requires whole { IsWhole settings.now }
    requires form { form_of key ≡ Form.Seed }
    requires some { has_value key ≡ true }
    ensures { result ≡ value 0 seed_of key settings.now }
{
    let Some(value) = values::seed(text_for(settings, key)) else {
        unreachable!()
    };
    value
}

/// The store of a key.
pub fn store(settings: &[Setting<'_>], key: Key) -> StoreChoice
    requires whole { IsWhole settings.now }
    requires form { form_of key ≡ Form.Store }
    requires some { has_value key ≡ true }
    ensures { result ≡ value StoreChoice.Tree store_of key settings.now }
{
    let Some(value) = values::store(text_for(settings, key)) else {
        unreachable!()
    };
    value
}

/// The name of a key.
pub fn name(alloc: Global, settings: &[Setting<'_>], key: Key) -> Result<Name, NoMemory>
    requires whole { IsWhole settings.now }
    requires form { form_of key ≡ Form.Name }
    requires some { has_value key ≡ true }
    ensures value { IfOk result (λ n. n ≡ text_for key settings.now) }
    ensures name { IfOk result (λ n. is_name n ≡ true) }
{
    match values::name(alloc, text_for(settings, key))? {
        Some(name) => Ok(name),
        None => unreachable!(),
    }
}

/// The name of a key that needs none.
pub fn name_if_any(
    alloc: Global,
    settings: &[Setting<'_>],
    key: Key,
) -> Result<Option<Name>, NoMemory>
    ensures value { IfOk result (λ n. n ≡ optional name_of key settings.now) }
    ensures name { IfOk result (λ n. IfSome n (λ n. is_name n ≡ true)) }
{
    match given(settings, key.name().as_bytes()) {
        Some(text) => values::name(alloc, text),
        None => Ok(None),
    }
}

/// The targets of a key that needs none.
pub fn targets_if_any(settings: &[Setting<'_>], key: Key) -> Option<Targets>
    ensures value { result ≡ optional targets_of key settings.now }
    ensures parts { IfSome result AreParts }
{
    match given(settings, key.name().as_bytes()) {
        Some(text) => values::targets(text),
        None => None,
    }
}
