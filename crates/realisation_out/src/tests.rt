// The texts of a file of one realisation.
use crate::{LevelPositions, RealisationCounts, Report, push_head, push_report, push_rows};
use arrayvec::ArrayVec;
use mp_base::{Cat, CellId, CodeList, Codes, Counts, Grid, Shape};
use servo_fraction::Target;
use std::test::Fail;

#[test]
fn a_file_opens_with_its_shape_and_lists_the_codes(rt: HostRuntime) -> Result<(), Fail> {
    let shape = Shape::new(2, 1, 1)?;
    let mut grid = Grid::unknown(rt.alloc(), shape)?;
    assert_eq!(rt; grid.shape().cells(), 2);
    grid.set(CellId(0), Some(Cat(1)));
    grid.set(CellId(1), Some(Cat(0)));
    let mut categories = ArrayVec::new();
    categories.push(7);
    categories.push(-30);
    let codes = Codes {
        categories: CodeList::new(categories),
        missing: -99,
    };
    let mut text = Vec::new(rt.alloc());
    push_head(&mut text, shape, 1, 5)?;
    push_rows(&mut text, &grid, &codes)?;
    assert_eq!(rt;
        text.as_slice(),
        b"mpsim 2 1 1 realisations 1 seed 5\n1\ncategory\n-30\n7\n".as_slice()
    );
    Ok(())
}

fn categories() -> Codes {
    let mut categories = ArrayVec::new();
    categories.push(0);
    categories.push(1);
    Codes {
        categories: CodeList::new(categories),
        missing: -99,
    }
}

#[test]
fn a_report_has_its_lines_in_order(rt: HostRuntime) -> Result<(), Fail> {
    let mut counts = Vec::new(rt.alloc());
    counts.push(Counts::of(&[1, 3]))?;
    let mut positions = ArrayVec::new();
    positions.push(4);
    let report = Report {
        codes: categories(),
        shape: Shape::new(4, 1, 1)?,
        rows: 0,
        used: 0,
        skipped: 0,
        target: Target::new(Counts::of(&[2, 4])),
        positions: LevelPositions::new(positions),
        counts: RealisationCounts::new(counts),
    };
    let mut text = Vec::new(rt.alloc());
    push_report(&mut text, &report)?;
    assert_eq!(rt;
        text.as_slice(),
        b"categories 0 1\ngrid 4 1 1\npoints 0 used 0 skipped 0\ntarget 2 4\nlevel 1 nodes 4 positions 4\nrealisation 0 counts 1 3\ndone\n".as_slice()
    );
    Ok(())
}

#[test]
fn a_report_tells_of_points_and_of_the_coarsest_level_first(rt: HostRuntime) -> Result<(), Fail> {
    let mut counts = Vec::new(rt.alloc());
    counts.push(Counts::of(&[0, 3]))?;
    counts.push(Counts::of(&[2, 1]))?;
    let mut positions = ArrayVec::new();
    positions.push(10);
    positions.push(8);
    positions.push(4);
    let report = Report {
        codes: categories(),
        shape: Shape::new(3, 1, 1)?,
        rows: 6,
        used: 3,
        skipped: 2,
        target: Target::new(Counts::of(&[0, 12])),
        positions: LevelPositions::new(positions),
        counts: RealisationCounts::new(counts),
    };
    let mut text = Vec::new(rt.alloc());
    text.push(b'>')?;
    push_report(&mut text, &report)?;
    assert_eq!(rt;
        text.as_slice(),
        b">categories 0 1\ngrid 3 1 1\npoints 6 used 3 skipped 2\ntarget 0 12\nlevel 3 nodes 1 positions 4\nlevel 2 nodes 2 positions 8\nlevel 1 nodes 3 positions 10\nrealisation 0 counts 0 3\nrealisation 1 counts 2 1\ndone\n".as_slice()
    );
    Ok(())
}
