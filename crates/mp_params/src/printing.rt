// The text of parameters.
ghost use Rattle.std.specs.Prelude.{◌≡◌, ◌++◌, ◌∷◌, [], IfOk, OnOk, is_some, unwrap_or};
ghost use Rattle.mp_params.specs.Reading.{params_of};
ghost use Rattle.mp_params.specs.Printing.{lines_text, print_text, value_text};

use crate::params::Params;
use crate::table::{KEYS, Key};
use mp_base::{NoMemory, push_spaced, push_whole};
use mp_values::{
    push_columns, push_coordinates, push_name, push_name_if_any, push_number, push_radii,
    push_shape, push_store, push_targets_if_any,
};
use std::alloc::Global;

/// The text of parameters: for each key in the order of the table a line with the key, ` = ` and
/// the value. The lines of `points` and `targets` are left out where there are none; all other
/// keys are written, also where they have their default. A file with this text is accepted, and
/// gives the same parameters.
#[tactic(auto, unfolding(crate::specs::Printing::print_text))]
pub fn print_params(alloc: Global, params: &Params) -> Result<Vec<u8>, NoMemory>
    ensures text { IfOk result (λ v. v.items ≡ print_text params.now) }
    ensures read_back { params_of (print_text params.now) ≡ Ok params.now }
{
    // What is true of all parameters is needed for the second clause.
    let _ = &params.version;
    printed(alloc, params, &KEYS)
}

// The lines of these keys.
fn printed(alloc: Global, params: &Params, keys: &[Key]) -> Result<Vec<u8>, NoMemory>
    ensures { IfOk result (λ v. v.items ≡ lines_text params.now keys.now) }
{
    let mut text = Vec::new(alloc);
    for key in keys {
        push_line(&mut text, params, *key)?;
    }
    Ok(text)
}

// Appends the line of a key, if it has a value.
fn push_line(to: &mut Vec<u8>, params: &Params, key: Key) -> Result<(), NoMemory>
    ensures { OnOk result (to.new.items ≡ to.old.items ++ lines_text params.now (key ∷ [])) }
{
    if !has_value(params, key) {
        return Ok(());
    }
    to.extend_from_slice(key.name().as_bytes())?;
    to.extend_from_slice(b" = ")?;
    push_value(to, params, key)?;
    to.push(b'\n')?;
    Ok(())
}

// Whether a key has a value.
fn has_value(params: &Params, key: Key) -> bool
    ensures { result ≡ is_some (value_text params.now key) }
{
    match key {
        Key::Points => params.points.is_some(),
        Key::Targets => params.targets.is_some(),
        _ => true,
    }
}

// Appends the value of a key, if it has one.
fn push_value(to: &mut Vec<u8>, params: &Params, key: Key) -> Result<(), NoMemory>
    ensures { OnOk result (to.new.items ≡ to.old.items ++ unwrap_or (value_text params.now key) []) }
{
    match key {
        Key::Version => push_number(to, u64::from(params.version)),
        Key::Image => push_name(to, &params.image),
        Key::ImageShape => push_shape(to, params.image_shape),
        Key::ImageColumn => push_number(to, u64::from(params.image_column)),
        Key::Categories => push_spaced(to, params.categories.as_slice()),
        Key::Missing => push_whole(to, i128::from(params.missing)),
        Key::Grid => push_shape(to, params.grid),
        Key::Origin => push_coordinates(to, params.origin),
        Key::Size => push_coordinates(to, params.size),
        Key::Points => push_name_if_any(to, &params.points),
        Key::PointColumns => push_columns(to, params.point_columns),
        Key::Radii => push_radii(to, params.radii),
        Key::Template => push_number(to, u64::from(params.template)),
        Key::MaxData => push_number(to, u64::from(params.max_data)),
        Key::MinReplicates => push_number(to, u64::from(params.min_replicates)),
        Key::Levels => push_number(to, u64::from(params.levels)),
        Key::Servo => push_number(to, u64::from(params.servo)),
        Key::Targets => push_targets_if_any(to, &params.targets),
        Key::Seed => push_number(to, params.seed),
        Key::Realisations => push_number(to, u64::from(params.realisations)),
        Key::Store => push_store(to, params.store),
        Key::Window => push_number(to, u64::from(params.window)),
        Key::Output => push_name(to, &params.output),
    }
}
