// The texts of values. Without memory for it the vector may have a part of a text.
ghost use Rattle.std.specs.Prelude.{◌≡◌, ◌++◌, [], OnOk, option_map, unwrap_or};
ghost use Rattle.mp_base.specs.Number.{micro_text};
ghost use Rattle.mp_base.specs.Spaced.{spaced};
ghost use Rattle.mp_values.specs.Texts.{number_text, sides_text, store_text};

use crate::choice::StoreChoice;
use crate::names::Name;
use crate::shares::Targets;
use mp_base::{Micro, NoMemory, Shape, push_spaced, push_whole};

/// Appends a number.
pub fn push_number(to: &mut Vec<u8>, number: u64) -> Result<(), NoMemory>
    ensures { OnOk result (to.new.items ≡ to.old.items ++ number_text number) }
{
    push_whole(to, i128::from(number))
}

/// Appends the sides of a shape.
pub fn push_shape(to: &mut Vec<u8>, shape: Shape) -> Result<(), NoMemory>
    ensures { OnOk result (to.new.items ≡ to.old.items ++ sides_text shape) }
{
    push_spaced(to, &[shape.nx, shape.ny, shape.nz])
}

/// Appends three coordinates in millionths.
pub fn push_coordinates(to: &mut Vec<u8>, coordinates: [i64; 3]) -> Result<(), NoMemory>
    ensures { OnOk result (to.new.items ≡ to.old.items ++ spaced micro_text coordinates) }
{
    let [x, y, z] = coordinates;
    push_spaced(to, &[Micro(x), Micro(y), Micro(z)])
}

/// Appends the columns of points.
pub fn push_columns(to: &mut Vec<u8>, columns: [u16; 4]) -> Result<(), NoMemory>
    ensures { OnOk result (to.new.items ≡ to.old.items ++ spaced number_text columns) }
{
    let [x, y, z, category] = columns;
    push_spaced(
        to,
        &[
            u32::from(x),
            u32::from(y),
            u32::from(z),
            u32::from(category),
        ],
    )
}

/// Appends radii.
pub fn push_radii(to: &mut Vec<u8>, radii: [u8; 3]) -> Result<(), NoMemory>
    ensures { OnOk result (to.new.items ≡ to.old.items ++ spaced number_text radii) }
{
    let [x, y, z] = radii;
    push_spaced(to, &[u32::from(x), u32::from(y), u32::from(z)])
}

/// Appends a name.
pub fn push_name(to: &mut Vec<u8>, name: &Name) -> Result<(), NoMemory>
    ensures { OnOk result (to.new.items ≡ to.old.items ++ name.now) }
{
    to.extend_from_slice(name.as_slice())?;
    Ok(())
}

/// Appends a name, if there is one.
pub fn push_name_if_any(to: &mut Vec<u8>, name: &Option<Name>) -> Result<(), NoMemory>
    ensures { OnOk result (to.new.items ≡ to.old.items ++ unwrap_or name.now []) }
{
    match name {
        Some(name) => push_name(to, name),
        None => Ok(()),
    }
}

/// Appends targets, if there are any.
pub fn push_targets_if_any(to: &mut Vec<u8>, targets: &Option<Targets>) -> Result<(), NoMemory>
    ensures { OnOk result (to.new.items ≡ to.old.items ++ unwrap_or (option_map (spaced number_text) targets.now) []) }
{
    match targets {
        Some(targets) => push_spaced(to, targets.as_slice()),
        None => Ok(()),
    }
}

/// Appends the word for a store.
pub fn push_store(to: &mut Vec<u8>, store: StoreChoice) -> Result<(), NoMemory>
    ensures { OnOk result (to.new.items ≡ to.old.items ++ store_text store) }
{
    to.extend_from_slice(match store {
        StoreChoice::Tree => b"tree",
        StoreChoice::List => b"list",
    })?;
    Ok(())
}
