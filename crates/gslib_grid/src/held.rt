// How the rows of a table are held: without coordinates in 8 bytes, and with them in 40.
ghost use Rattle.std.specs.Prelude.{◌≡◌, ◌++◌, ◌∷◌, [], OnOk, OnErr};
ghost use Rattle.gslib_grid.specs.Held.{bare_row, coordinate, has_coordinate as is_point, point_row};

use crate::row::Row;
use mp_base::{Cat, NoMemory};

/// A row without coordinates.
#[derive(Clone, Copy)]
pub struct BareRow {
    line: u32,
    cat: Option<Cat>,
}

/// A row with its coordinates. Whether one is there takes a byte here, where an option would take eight;
/// one that isn't there is held as 0.
#[derive(Clone, Copy)]
pub struct PointRow {
    line: u32,
    cat: Option<Cat>,
    has_x: bool,
    has_y: bool,
    has_z: bool,
    x: i64,
    y: i64,
    z: i64,
}

const _: () = prove!(size_of::<BareRow>() == 8);

const _: () = prove!(size_of::<PointRow>() == 40);

/// Whether a row has a coordinate.
pub fn has_coordinate(row: &Row) -> bool
    ensures { result ≡ is_point row.now }
{
    row.x.is_some() || row.y.is_some() || row.z.is_some()
}

/// Appends a row without coordinates. After an error all is as it was.
pub fn push_bare(rows: &mut Vec<BareRow>, line: u32, cat: Option<Cat>) -> Result<(), NoMemory>
    ensures ok { OnOk result (rows.new.items ≡ rows.old.items ++ (record { line = line; cat = cat }) ∷ []) }
    ensures err { OnErr result (rows.new.items ≡ rows.old.items) }
{
    rows.push(BareRow { line, cat })?;
    Ok(())
}

impl BareRow {
    /// The row.
    pub fn row(&self) -> Row
        ensures { result ≡ bare_row self.now }
    {
        Row {
            line: self.line,
            x: None,
            y: None,
            z: None,
            cat: self.cat,
        }
    }
}

impl PointRow {
    /// Any row.
    pub fn of(row: &Row) -> PointRow
        ensures { point_row result ≡ row.now }
    {
        PointRow {
            line: row.line,
            cat: row.cat,
            has_x: row.x.is_some(),
            has_y: row.y.is_some(),
            has_z: row.z.is_some(),
            x: row.x.unwrap_or(0),
            y: row.y.unwrap_or(0),
            z: row.z.unwrap_or(0),
        }
    }

    /// The row.
    pub fn row(&self) -> Row
        ensures { result ≡ point_row self.now }
    {
        Row {
            line: self.line,
            x: coordinate(self.has_x, self.x),
            y: coordinate(self.has_y, self.y),
            z: coordinate(self.has_z, self.z),
            cat: self.cat,
        }
    }
}

// A coordinate that is held, if it is there.
fn coordinate(is_there: bool, held: i64) -> Option<i64>
    ensures { result ≡ coordinate is_there held }
{
    if is_there { Some(held) } else { None }
}
