// Coordinates on one axis of a frame.
ghost use Rattle.std.specs.Prelude.{◌≡◌, ◌<◌, ◌≤◌, ◌*◌, ◌^◌, IfSome, pos, ◌-ℤ◌, ◌*ℤ◌, ◌≤ℤ◌, unsigned_abs};
ghost use Rattle.hard_data.specs.Points.{HasSizes, apart_on, cell_on, nearest_on, offset_on, x_axis, y_axis, z_axis};

use mp_base::Frame;

/// The cells of a frame along an axis: how many there are, the centre of the first, and the size of
/// each, in millionths.
#[derive(Clone, Copy, Debug, PartialEq, Eq)]
pub struct Axis {
    cells: u32,
    origin: i64,
    size: i64,
}

impl Axis {
    /// The x axis of a frame.
    pub fn x(frame: &Frame) -> Axis
        requires sizes { HasSizes frame.now }
        ensures axis { result ≡ x_axis frame.now }
        ensures size { pos 1 ≤ℤ result.size }
    {
        Axis {
            cells: frame.shape.nx,
            origin: frame.origin[0],
            size: frame.size[0],
        }
    }

    /// The y axis of a frame.
    pub fn y(frame: &Frame) -> Axis
        requires sizes { HasSizes frame.now }
        ensures axis { result ≡ y_axis frame.now }
        ensures size { pos 1 ≤ℤ result.size }
    {
        Axis {
            cells: frame.shape.ny,
            origin: frame.origin[1],
            size: frame.size[1],
        }
    }

    /// The z axis of a frame.
    pub fn z(frame: &Frame) -> Axis
        requires sizes { HasSizes frame.now }
        ensures axis { result ≡ z_axis frame.now }
        ensures size { pos 1 ≤ℤ result.size }
    {
        Axis {
            cells: frame.shape.nz,
            origin: frame.origin[2],
            size: frame.size[2],
        }
    }

    /// The cell that a coordinate is in, or nothing exactly where that is outside.
    pub fn cell(self, coordinate: Option<i64>) -> Option<u32>
        requires size { pos 1 ≤ℤ self.size }
        ensures cell { result ≡ cell_on self coordinate }
        ensures inside { IfSome result (λ cell. cell < self.cells) }
    {
        let nearest = self.nearest(coordinate);
        if nearest < 0 || nearest >= i128::from(self.cells) {
            return None;
        }
        Some(nearest as u32)
    }

    /// How far a coordinate is from the centre of the cell that it is in, in millionths.
    pub fn apart(self, coordinate: Option<i64>) -> u128
        requires size { pos 1 ≤ℤ self.size }
        ensures value { result ≡ apart_on self coordinate }
        ensures few { result ≤ 2 ^ 62 }
    {
        let offset = self.offset(coordinate);
        let centre = self.nearest(coordinate) * i128::from(self.size);
        (offset - centre).unsigned_abs()
    }

    // The number of the cell whose centre is nearest, of two the upper one.
    fn nearest(self, coordinate: Option<i64>) -> i128
        requires size { pos 1 ≤ℤ self.size }
        ensures value { result ≡ nearest_on self coordinate }
        ensures half { unsigned_abs (offset_on self coordinate -ℤ nearest_on self coordinate *ℤ self.size) * 2 ≤ unsigned_abs self.size }
    {
        let size = i128::from(self.size);
        (2 * self.offset(coordinate) + size).div_euclid(2 * size)
    }

    // How far a coordinate is from the centre of the first cell.
    fn offset(self, coordinate: Option<i64>) -> i128
        ensures value { result ≡ offset_on self coordinate }
        ensures few { unsigned_abs result < 2 ^ 65 }
    {
        i128::from(coordinate.unwrap_or(self.origin)) - i128::from(self.origin)
    }
}
