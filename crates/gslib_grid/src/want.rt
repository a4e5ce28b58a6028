// What is asked of a table.
ghost use Rattle.std.specs.Prelude.{◌≡◌};

/// What is asked of a table. Columns count from 1.
#[derive(Clone, Copy, Debug, PartialEq, Eq)]
pub enum Want {
    /// One column as categories, in as many rows.
    Image { column: u16, rows: u32 },
    /// The columns of x, y, z and the category, in at most 2^20 rows. A coordinate whose column is 0
    /// isn't read.
    Points { columns: [u16; 4] },
}

// The most rows of a table of points.
const MOST_POINTS: u32 = 1 << 20;

/// The columns that are read, 0 for none, and how many rows there may be.
#[derive(Clone, Copy, Debug, PartialEq, Eq)]
pub struct Wanted {
    pub x: u16,
    pub y: u16,
    pub z: u16,
    pub category: u16,
    pub least: u32,
    pub most: u32,
}

impl Wanted {
    ghost use Rattle.gslib_grid.specs.Table.{wanted_of};
    ghost use Rattle.gslib_grid.specs.Steps.{is_first_alone};

    /// The columns and numbers of rows that are asked for.
    pub fn of(want: &Want) -> Wanted
        ensures { result ≡ wanted_of want.now }
    {
        match want {
            Want::Image { column, rows } => Wanted {
                x: 0,
                y: 0,
                z: 0,
                category: *column,
                least: *rows,
                most: *rows,
            },
            Want::Points { columns } => Wanted {
                x: columns[0],
                y: columns[1],
                z: columns[2],
                category: columns[3],
                least: 0,
                most: MOST_POINTS,
            },
        }
    }

    /// Whether the first column alone is read, as the category.
    pub fn is_first_alone(&self) -> bool
        ensures { result ≡ is_first_alone self.now }
    {
        self.x == 0 && self.y == 0 && self.z == 0 && self.category == 1
    }
}
