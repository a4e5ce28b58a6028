// The table of keys: their order, and what is told of each.
ghost use Rattle.std.specs.Prelude.{◌≡◌};
ghost use Rattle.mp_params.specs.Table.{key_of, optional, or_else, required};

use mp_values::Form;
use std::marker::Model;

/// A key of a parameter file.
#[derive(Clone, Copy, Debug, PartialEq, Eq)]
pub enum Key {
    Version,
    Image,
    ImageShape,
    ImageColumn,
    Categories,
    Missing,
    Grid,
    Origin,
    Size,
    Points,
    PointColumns,
    Radii,
    Template,
    MaxData,
    MinReplicates,
    Levels,
    Servo,
    Targets,
    Seed,
    Realisations,
    Store,
    Window,
    Output,
}

/// What is told of a key: its name in a file, the form of its value, whether a line has to have it,
/// and the text of the value that stands where no line has it.
#[derive(Drop)]
pub struct Row {
    pub name: &'static str,
    pub form: Form,
    pub is_required: bool,
    pub default: Option<&'static [u8]>,
}

impl Model for Row {
    ghost use Rattle.std.specs.Prelude.{option_map};
    ghost use Rattle.mp_params.specs.Table.{Row};

    ghost Value = { Row };

    ghost view = { λ r. record { name = r.name.now; form = r.form; is_required = r.is_required; default = option_map (λ t. t.now) r.default } };
}

/// The keys, in the order in which they are printed and looked for.
pub const KEYS: [Key; 23] = [
    Key::Version,
    Key::Image,
    Key::ImageShape,
    Key::ImageColumn,
    Key::Categories,
    Key::Missing,
    Key::Grid,
    Key::Origin,
    Key::Size,
    Key::Points,
    Key::PointColumns,
    Key::Radii,
    Key::Template,
    Key::MaxData,
    Key::MinReplicates,
    Key::Levels,
    Key::Servo,
    Key::Targets,
    Key::Seed,
    Key::Realisations,
    Key::Store,
    Key::Window,
    Key::Output,
];

impl Key {
    ghost use Rattle.std.specs.Prelude.{◌≤◌, length, option_map};
    ghost use Rattle.mp_params.specs.Table.{default_of, form_of, key_name, row_of};

    /// What is told of the key.
    pub fn row(self) -> Row
        ensures { result ≡ row_of self }
    {
        match self {
            Key::Version => or_else(b"1", "version", Form::Version),
            Key::Image => required("image", Form::Name),
            Key::ImageShape => required("image_shape", Form::Shape),
            Key::ImageColumn => or_else(b"1", "image_column", Form::Number(1, 64)),
            Key::Categories => required("categories", Form::Codes),
            Key::Missing => or_else(b"-9966699", "missing", Form::Code),
            Key::Grid => required("grid", Form::Shape),
            Key::Origin => or_else(b"0 0 0", "origin", Form::Origin),
            Key::Size => or_else(b"1 1 1", "size", Form::Sizes),
            Key::Points => optional("points", Form::Name),
            Key::PointColumns => or_else(b"1 2 3 4", "point_columns", Form::Columns),
            Key::Radii => required("radii", Form::Radii),
            Key::Template => required("template", Form::Number(1, 64)),
            Key::MaxData => or_else(b"64", "max_data", Form::Number(1, 64)),
            Key::MinReplicates => or_else(b"10", "min_replicates", Form::Number(1, 1_000_000)),
            Key::Levels => or_else(b"1", "levels", Form::Number(1, 8)),
            Key::Servo => or_else(b"0", "servo", Form::Number(0, 999)),
            Key::Targets => optional("targets", Form::Targets),
            Key::Seed => or_else(b"0", "seed", Form::Seed),
            Key::Realisations => or_else(b"1", "realisations", Form::Number(1, 1000)),
            Key::Store => or_else(b"tree", "store", Form::Store),
            Key::Window => or_else(b"64", "window", Form::Number(1, 256)),
            Key::Output => required("output", Form::Name),
        }
    }

    /// The name of the key in a file.
    pub fn name(self) -> &'static str
        ensures name { result.now ≡ key_name self }
        ensures short { length result.now ≤ 20 }
    {
        self.row().name
    }

    /// The form that the key's value has to have.
    pub fn form(self) -> Form
        ensures { result ≡ form_of self }
    {
        self.row().form
    }

    /// The text of the value that stands where no line has the key. Nothing where the key is
    /// required, and where its value is optional.
    pub fn default(self) -> Option<&'static [u8]>
        ensures { option_map (λ t. t.now) result ≡ default_of self }
    {
        self.row().default
    }
}

// A key that a file has to have.
fn required(name: &'static str, form: Form) -> Row
    ensures { result ≡ required name.now form }
{
    Row {
        name,
        form,
        is_required: true,
        default: None,
    }
}

// A key that has no value where no line has it.
fn optional(name: &'static str, form: Form) -> Row
    ensures { result ≡ optional name.now form }
{
    Row {
        name,
        form,
        is_required: false,
        default: None,
    }
}

// A key whose value has this text where no line has it.
fn or_else(text: &'static [u8], name: &'static str, form: Form) -> Row
    ensures { result ≡ or_else text.now name.now form }
{
    Row {
        name,
        form,
        is_required: false,
        default: Some(text),
    }
}

/// The key of this name, or nothing where no key has it. Names are lowercase.
pub fn key_of(name: &[u8]) -> Option<Key>
    ensures { result ≡ key_of name.now }
{
    KEYS.iter()
        .copied()
        .find(|key| key.name().as_bytes() == name)
}
