// Worked starts of levels.
ghost use Rattle.std.specs.Prelude.{◌≡◌, IfOk};

use crate::{Move, Start, relocate, take_away};
use mp_base::{Cat, CellId, Entry, Grid, NoMemory, Shape};
use std::alloc::Global;
use std::process::Abort;

// A row of cells of which some have a category, by cell and category.
fn row(alloc: Global, shape: Shape, known: &[(u32, u8)]) -> Result<Grid, NoMemory>
    ensures { IfOk result (λ grid. grid.sides ≡ shape) }
{
    let mut grid = Grid::unknown(alloc, shape)?;
    for (cell, cat) in known {
        if *cell < shape.cells() && *cat < 8 {
            grid.set(CellId(*cell), Some(Cat(*cat)));
        }
    }
    Ok(grid)
}

// The data of a row of so many cells, the values that are there, the level, its start (8 where a cell
// is unknown), and the moves, each from a cell to a node, with the category.
#[derive(Drop)]
struct Worked {
    cells: u32,
    hard: &'static [(u32, u8)],
    values: &'static [(u32, u8)],
    level: u8,
    start: &'static [u8],
    moves: &'static [(u32, u32, u8)],
}

const WORKED: [Worked; 4] = [
    // Of cell 6 the datum is put aside: node 4 takes the nearer one of cell 3.
    Worked {
        cells: 9,
        hard: &[(3, 1), (6, 0)],
        values: &[],
        level: 3,
        start: &[8, 8, 8, 8, 1, 8, 8, 8, 8],
        moves: &[(3, 4, 1)],
    },
    Worked {
        cells: 9,
        hard: &[(3, 1), (6, 0)],
        values: &[(0, 1), (8, 0)],
        level: 2,
        start: &[1, 8, 1, 8, 8, 8, 0, 8, 0],
        moves: &[(3, 2, 1)],
    },
    Worked {
        cells: 9,
        hard: &[(3, 1), (6, 0)],
        values: &[(0, 1), (4, 0), (8, 0)],
        level: 1,
        start: &[1, 8, 8, 1, 0, 8, 0, 8, 0],
        moves: &[],
    },
    // A tie goes to the lower node, and node 8 is outside.
    Worked {
        cells: 8,
        hard: &[(2, 1), (7, 0)],
        values: &[],
        level: 3,
        start: &[1, 8, 8, 8, 0, 8, 8, 8],
        moves: &[(2, 0, 1), (7, 4, 0)],
    },
];

fn start_of(rt: &impl Abort, alloc: Global, worked: &Worked) -> Start {
    let shape = Shape::new(worked.cells, 1, 1).expect(rt, "it is a shape");
    let hard = row(alloc, shape, worked.hard).expect(rt, "memory is left");
    let values = row(alloc, shape, worked.values).expect(rt, "memory is left");
    let level = worked.level.clamp(1, 8);
    relocate(alloc, &hard, &values, level).expect(rt, "memory is left")
}

fn are_moves(moves: &[Move], expected: &[(u32, u32, u8)]) -> bool {
    moves.len() == expected.len()
        && moves.iter().zip(expected).all(|(datum, expected)| (
            datum.from.0,
            datum.to.0,
            datum.cat.0,
        ) == *expected)
}

#[test]
fn data_move_to_the_nearest_node(rt: HostRuntime) {
    for worked in &WORKED {
        let found = start_of(&rt, rt.alloc(), worked);
        assert!(rt; found.grid.as_bytes() == worked.start);
        assert!(rt; are_moves(found.moves.as_slice(), worked.moves));
    }
}

#[test]
fn moved_data_are_taken_away(rt: HostRuntime) {
    let shape = Shape::new(5, 1, 1).expect(&rt, "it is a shape");
    let hard = row(rt.alloc(), shape, &[(1, 1)]).expect(&rt, "memory is left");
    let mut values = row(rt.alloc(), shape, &[]).expect(&rt, "memory is left");
    let start = relocate(rt.alloc(), &hard, &values, 3).expect(&rt, "memory is left");
    assert!(rt; start.grid.as_bytes() == [1, 8, 8, 8, 8].as_slice());
    let log = [Entry {
        cell: CellId(4),
        cat: Cat(0),
    }];
    take_away(start.moves, &log, &mut values);
    assert!(rt; values.as_bytes() == [8, 8, 8, 8, 0].as_slice());
}
