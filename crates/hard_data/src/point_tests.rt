// Points in the cells of small grids.
ghost use Rattle.std.specs.Prelude.{◌≡◌, pos, negsuc, [], ◌∷◌};

use crate::{Placed, points_to_cells};
use arrayvec::ArrayVec;
use gslib_grid::{Table, Want, read_table};
use mp_base::{Cat, CellId, CodeList, Codes, Frame, Shape};
use std::alloc::Global;
use std::process::Abort;

const ORIGIN: &[u8] = b"wells\n4\nX\nY\nZ\nfacies\n0 0 0 1\n1 0 0 0\n2 0 0 1\n";

const TIES: &[u8] =
    b"wells\n4\nX\nY\nZ\nfacies\n0.5 0 0 1\n0.4 0 0 0\n-0.2 0 0 1\n0.2 0 0 0\n-0.6 0 0 0\n3.5 0 0 1\n";

const MISSING: &[u8] =
    b"wells\n4\nX\nY\nZ\nfacies\n0 0 0 -9966699\n-0.5 0.4 -0.5 1\n9 9 9 -9966699\n";

const FLAT: &[u8] = b"wells\n4\nX\nY\nZ\nfacies\n1 77 88 0\n1.2 0 0 1\n";

// The points, their columns, the cells of a row (8 where one is unknown), the used cells and the
// skipped points.
const PLACED: [(&[u8], [u16; 4], &[u8], u32, u32); 4] = [
    (ORIGIN, [1, 2, 3, 4], &[1, 0, 1], 3, 0),
    (TIES, [1, 2, 3, 4], &[1, 1, 8, 8], 2, 2),
    (MISSING, [1, 2, 3, 4], &[1, 8], 1, 2),
    (FLAT, [1, 0, 0, 4], &[8, 0], 1, 0),
];

fn codes() -> Codes
    ensures categories { result.categories ≡ pos 0 ∷ pos 1 ∷ [] }
    ensures missing { result.missing ≡ negsuc 9966698 }
{
    let mut categories = ArrayVec::new();
    categories.push(0);
    categories.push(1);
    Codes {
        categories: CodeList::new(categories),
        missing: -9_966_699,
    }
}

// The points of a file of three coordinates and a category.
fn points(alloc: Global, bytes: &[u8], columns: [u16; 4]) -> Option<Table> {
    if columns[3] == 0 {
        return None;
    }
    let want = Want::Points { columns };
    let codes = codes();
    read_table(alloc, bytes, &want, &codes).ok()
}

// The points placed in a row of so many cells. All points are counted.
fn placed(rt: &impl Abort, alloc: Global, bytes: &[u8], columns: [u16; 4], cells: u32) -> Placed {
    let table = points(alloc, bytes, columns).expect(rt, "the points are accepted");
    let frame = Frame {
        shape: Shape::new(cells, 1, 1).expect(rt, "it is a shape"),
        origin: [0, 0, 0],
        size: [1_000_000, 1_000_000, 1_000_000],
    };
    let placed = points_to_cells(alloc, &table, &frame).expect(rt, "memory is left");
    assert!(rt; placed.rows as usize == table.rows.len());
    placed
}

#[test]
fn the_nearest_point_gives_a_cell_its_datum(rt: HostRuntime) {
    for (bytes, columns, cells, used, skipped) in PLACED {
        let placed = placed(&rt, rt.alloc(), bytes, columns, cells.len() as u32);
        assert!(rt; placed.used == used && placed.skipped == skipped);
        assert!(rt; placed.cells.as_bytes() == cells);
    }
}
