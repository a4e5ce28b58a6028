//! The values of parameters: the forms that their texts have, what a text stands for, and the text of a
//! value.
#![tactic(auto)]

mod choice;
mod form;
mod lists;
mod names;
mod shares;
mod texts;
mod values;

pub use choice::StoreChoice;
pub use form::{Form, fits};
pub use lists::{code, number_in};
pub use names::{Name, are_line_bytes};
pub use shares::Targets;
pub use texts::{
    push_columns, push_coordinates, push_name, push_name_if_any, push_number, push_radii,
    push_shape, push_store, push_targets_if_any,
};
pub use values::{
    categories, columns, name, origin, radii, seed, shape, sizes, store, targets, version,
};
