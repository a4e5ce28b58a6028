ghost use Rattle.std.specs.Prelude.{◌≡◌, ◌<◌, ◌≤◌, ◌∷◌, [], All, IfOk, length};
ghost use Rattle.mp_base.specs.Grid.{IsBelow};

use crate::{CountStore, Datum, Eroded, Event, cat_from, count_positions};
use mp_base::{Cat, CellId, Grid, NoMemory, Shape, Vector};
use std::alloc::Global;
use std::process::Abort;
use std::test::Fail;
use template_order::Template;

// An image of which no cell is known yet.
fn blank(alloc: Global, shape: Shape) -> Result<Grid, NoMemory>
    ensures sides { IfOk result (λ g. g.sides ≡ shape) }
    ensures below { IfOk result (λ g. All (IsBelow 2) g.cells) }
{
    Grid::unknown(alloc, shape)
}

// An image of one row, of two categories.
fn row(alloc: Global, cats: &[u8]) -> Result<Grid, NoMemory>
    requires some { 1 ≤ length cats.now }
    requires few { length cats.now ≤ 100 }
    requires below { All (λ k. k < 2) cats.now }
    ensures { IfOk result (λ g. All (IsBelow 2) g.cells) }
{
    let shape = Shape {
        nx: cats.len() as u32,
        ny: 1,
        nz: 1,
    };
    let mut image = blank(alloc, shape)?;
    for i in 0..cats.len() {
        image.set(CellId(i as u32), Some(Cat(cats[i])));
    }
    Ok(image)
}

// Calls what an eroded row of six cells answers.
fn answers_of_six_cells(rt: &impl Abort, eroded: &Eroded<'_>) {
    let cells = [CellId(1), CellId(2), CellId(3), CellId(4)];
    assert_eq!(rt; eroded.positions(), cells.as_slice());
    assert_eq!(rt; eroded.cats(), 2);
    assert_eq!(rt; eroded.template().len(), 2);
    let image = eroded.image();
    assert_eq!(rt; image.shape().nx, 6);
    let left = Vector {
        dx: -1,
        dy: 0,
        dz: 0,
    };
    assert_eq!(rt; cat_from(image, CellId(1), left), Some(Cat(0)));
    assert_eq!(rt; cat_from(image, CellId(0), left), None);
}

#[test]
fn eroded_positions_have_their_template_inside(rt: HostRuntime) -> Result<(), Fail> {
    let image = row(rt.alloc(), &[0, 1, 1, 0, 1, 1])?;
    let template = Template::new(rt.alloc(), [1, 0, 0], 2)?;
    assert_eq!(rt; count_positions(&image, &template), 4);
    answers_of_six_cells(&rt, &Eroded::new(rt.alloc(), &image, &template, 2)?);
    Ok(())
}

// An event of two data.
fn event_of(first: Datum, second: Datum) -> Event
    requires first { (1 ≤ first.position) × (first.position < second.position) }
    requires last { second.position ≤ 64 }
    ensures { result ≡ first ∷ second ∷ [] }
{
    let mut event = Event::empty();
    event.push(first);
    event.push(second);
    event
}

fn datum(position: u8, cat: u8) -> Datum
    ensures { result ≡ record { position = position; cat = cat } }
{
    Datum {
        position,
        cat: Cat(cat),
    }
}

// The replicates of the first data of an event in a row of six cells.
fn replicates_of_six_cells(rt: &impl Abort, eroded: &Eroded<'_>)
    requires { length eroded.now.template ≡ 2 }
{
    let event = event_of(datum(1, 1), datum(2, 0));
    let none = eroded.scan_counts(&Event::empty());
    assert_eq!(rt; none.as_slice(), [1, 3].as_slice());
    let first = eroded.scan_counts(&event.prefix(1));
    assert_eq!(rt; first.as_slice(), [1, 1].as_slice());
    assert_eq!(rt; eroded.scan_counts(&event).as_slice(), [0, 1].as_slice());
    assert_eq!(rt; event.len(), 2);
    assert!(rt; !event.is_empty());
    assert!(rt; Event::empty().is_empty());
}

#[test]
fn replicates_are_counted_by_the_category_at_their_centre(rt: HostRuntime) -> Result<(), Fail> {
    let image = row(rt.alloc(), &[0, 1, 1, 0, 1, 1])?;
    let template = Template::new(rt.alloc(), [1, 0, 0], 2)?;
    let eroded = Eroded::new(rt.alloc(), &image, &template, 2)?;
    assert_eq!(rt; template.len(), 2);
    replicates_of_six_cells(&rt, &eroded);
    Ok(())
}

// The counts and the longest prefixes of an event of two data in a row of eight cells.
fn prefixes_of_eight_cells(rt: &impl Abort, eroded: &Eroded<'_>)
    requires { length eroded.now.template ≡ 4 }
{
    let event = event_of(datum(1, 0), datum(3, 1));
    let first = eroded.counts(&event.prefix(1));
    assert_eq!(rt; first.as_slice(), [0, 2].as_slice());
    assert_eq!(rt; eroded.counts(&event).as_slice(), [0, 1].as_slice());
    let longest = eroded.longest_prefix(&event, 2, 2);
    assert_eq!(rt; longest.len, 1);
    assert_eq!(rt; longest.counts.as_slice(), [0, 2].as_slice());
    for (most, min_replicates, len) in [(2, 1, 2), (1, 1, 1), (2, 5, 0)] {
        assert_eq!(rt;
            eroded.longest_prefix(&event, most, min_replicates).len,
            len
        );
    }
}

#[test]
fn the_longest_prefix_has_enough_replicates(rt: HostRuntime) -> Result<(), Fail> {
    let image = row(rt.alloc(), &[0, 0, 1, 1, 0, 1, 0, 0])?;
    let template = Template::new(rt.alloc(), [2, 0, 0], 4)?;
    let eroded = Eroded::new(rt.alloc(), &image, &template, 2)?;
    let cells = [CellId(2), CellId(3), CellId(4), CellId(5)];
    assert_eq!(rt; eroded.positions(), cells.as_slice());
    assert_eq!(rt; template.len(), 4);
    prefixes_of_eight_cells(&rt, &eroded);
    Ok(())
}

// A square of a hundred cells a side, all of category 1.
fn square(alloc: Global) -> Result<Grid, NoMemory>
    ensures sides { IfOk result (λ g. g.sides ≡ record { nx = 100; ny = 100; nz = 1 }) }
    ensures below { IfOk result (λ g. All (IsBelow 2) g.cells) }
{
    let shape = Shape {
        nx: 100,
        ny: 100,
        nz: 1,
    };
    let mut image = blank(alloc, shape)?;
    for number in 0..10_000 {
        image.set(CellId(number), Some(Cat(1)));
    }
    Ok(image)
}

// All positions of the square have the neighbours 1 and 4 of category 1.
fn ones_are_scanned(rt: &impl Abort, eroded: &Eroded<'_>)
    requires { length eroded.now.template ≡ 4 }
{
    assert_eq!(rt; eroded.positions().len(), 98 * 98 - 5);
    let ones = eroded.scan_counts(&event_of(datum(1, 1), datum(4, 1)));
    assert_eq!(rt; ones.as_slice(), [0, 98 * 98 - 5].as_slice());
    let mixed = eroded.scan_counts(&event_of(datum(1, 1), datum(4, 0)));
    assert_eq!(rt; mixed.as_slice(), [0, 0].as_slice());
}

// The template has the four neighbours of a cell, so the square's rim is left out. A hole takes
// away itself and its neighbours.
#[test]
fn blocks_of_cells_are_eroded_and_scanned_together(rt: HostRuntime) -> Result<(), Fail> {
    let mut image = square(rt.alloc())?;
    let template = Template::new(rt.alloc(), [1, 1, 0], 4)?;
    assert_eq!(rt; template.len(), 4);
    assert_eq!(rt; count_positions(&image, &template), 98 * 98);
    image.set(CellId(5_050), None);
    assert_eq!(rt; count_positions(&image, &template), 98 * 98 - 5);
    ones_are_scanned(&rt, &Eroded::new(rt.alloc(), &image, &template, 2)?);
    Ok(())
}
