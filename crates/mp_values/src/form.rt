// The forms of values.
ghost use Rattle.std.specs.Prelude.{◌≡◌};
ghost use Rattle.mp_values.specs.Forms.{fits as fits_form};

use crate::lists::{code, number_in};
use crate::names::is_name;
use crate::values::{
    categories, columns, origin, radii, seed, shape, sizes, store, targets, version,
};

/// What a value looks like.
#[derive(Clone, Copy, Debug, PartialEq, Eq)]
pub enum Form {
    /// The version of the file's format.
    Version,
    /// The name of a file.
    Name,
    /// Three numbers that are the sides of a grid.
    Shape,
    /// A number from the first to the second.
    Number(u32, u32),
    /// One to eight different numbers.
    Codes,
    /// A number.
    Code,
    /// Three coordinates.
    Origin,
    /// Three coordinates that are lengths of a cell.
    Sizes,
    /// Three columns or none, and a column.
    Columns,
    /// Three radii.
    Radii,
    /// One to eight parts of a million.
    Targets,
    /// A seed of 64 bits.
    Seed,
    /// `tree` or `list`.
    Store,
}

/// Whether a text is a value of this form.
pub fn fits(form: Form, text: &[u8]) -> bool
    ensures { result ≡ fits_form form text.now }
{
    match form {
        Form::Version => version(text).is_some(),
        Form::Name => is_name(text),
        Form::Shape => shape(text).is_some(),
        Form::Number(low, high) => number_in(text, low, high).is_some(),
        Form::Codes => categories(text).is_some(),
        Form::Code => code(text).is_some(),
        Form::Origin => origin(text).is_some(),
        Form::Sizes => sizes(text).is_some(),
        Form::Columns => columns(text).is_some(),
        Form::Radii => radii(text).is_some(),
        Form::Targets => targets(text).is_some(),
        Form::Seed => seed(text).is_some(),
        Form::Store => store(text).is_some(),
    }
}
