// The sequential simulation once more, as plainly as it can be written: every position of the image
// is looked at for every prefix of every event. It shares no code with the engine but the template
// and the random words.
ghost use Rattle.std.specs.Prelude.{◌<◌, All, IfOk};
ghost use Rattle.mp_base.specs.Grid.{IsBelow};

use crate::StoreKind;
use crate::tests::{realised_by, setup_over};
use mp_base::{Cat, CellId, Grid, NoMemory, Shape, Vector};
use path_stream::Words;
use std::alloc::{AllocError, Global};
use std::test::Fail;
use template_order::Template;

// The sides of the image and of the grid.
const IMAGE_SIDE: u32 = 60;

const GRID_SIDE: u32 = 50;

const MIN_REPLICATES: u32 = 12;

const SEED: u64 = 11;

// The category of the image at a place: bands that bend.
fn category(x: u32, y: u32) -> u8
    ensures { result < 2 }
{
    let band = x.wrapping_mul(3).wrapping_add(y.wrapping_mul(y) / 5) % 11;
    u8::from(band < 4)
}

#[derive(Clone, Copy)]
struct Place {
    x: u32,
    y: u32,
}

#[derive(Clone, Copy)]
struct Seen {
    v: Vector,
    category: u8,
}

// The place at a vector from another, where it is inside a square of this side.
fn moved(from: Place, v: Vector, side: u32) -> Option<Place> {
    let x = u32::try_from(i64::from(from.x) + i64::from(v.dx)).ok()?;
    let y = u32::try_from(i64::from(from.y) + i64::from(v.dy)).ok()?;
    if x < side && y < side {
        Some(Place { x, y })
    } else {
        None
    }
}

// The place of a cell of the grid.
fn place_of(cell: usize) -> Place {
    let cell = cell as u64 % u64::from(GRID_SIDE * GRID_SIDE);
    Place {
        x: (cell % u64::from(GRID_SIDE)) as u32,
        y: (cell / u64::from(GRID_SIDE)) as u32,
    }
}

fn cell_of(place: Place) -> usize {
    place.x as usize + GRID_SIDE as usize * place.y as usize
}

// The places of the image around which the whole template is inside.
fn positions(alloc: Global, template: &[Vector]) -> Result<Vec<Place>, AllocError> {
    let mut positions = Vec::new(alloc);
    for cell in 0..IMAGE_SIDE * IMAGE_SIDE {
        let at = Place {
            x: cell % IMAGE_SIDE,
            y: cell / IMAGE_SIDE,
        };
        if template.iter().all(|v| moved(at, *v, IMAGE_SIDE).is_some()) {
            positions.push(at)?;
        }
    }
    Ok(positions)
}

// How many of these places have each category and show all that was seen.
fn counts_of(positions: &[Place], seen: &[Seen]) -> [u32; 2] {
    let mut counts = [0u32; 2];
    for at in positions {
        if shows(seen, *at) {
            let which = category(at.x, at.y) as usize % 2;
            counts[which] = counts[which].wrapping_add(1);
        }
    }
    counts
}

fn shows(seen: &[Seen], at: Place) -> bool {
    for one in seen {
        let Some(there) = moved(at, one.v, IMAGE_SIDE) else {
            return false;
        };
        if category(there.x, there.y) != one.category {
            return false;
        }
    }
    true
}

// What is seen around a cell, nearest first.
fn seen_around(
    alloc: Global,
    template: &[Vector],
    grid: &[Option<u8>],
    cell: usize,
) -> Result<Vec<Seen>, AllocError> {
    let mut seen = Vec::new(alloc);
    for v in template {
        if let Some(there) = moved(place_of(cell), *v, GRID_SIDE) {
            if let Some(category) = grid.get(cell_of(there)).copied().flatten() {
                seen.push(Seen { v: *v, category })?;
            }
        }
    }
    Ok(seen)
}

// The counts of the longest part of what is seen that has enough replicates.
fn retained_counts(positions: &[Place], seen: &[Seen]) -> [u32; 2] {
    for len in (0..seen.len()).rev() {
        let counts = counts_of(positions, &seen[..len + 1]);
        if counts[0].wrapping_add(counts[1]) >= MIN_REPLICATES {
            return counts;
        }
    }
    counts_of(positions, &[])
}

// With no servosystem the weights are in proportion to the counts, so the word picks among them.
fn picked(counts: [u32; 2], word: u32) -> u8 {
    let all = u64::from(counts[0]).wrapping_add(u64::from(counts[1]));
    let point = u64::from(word).wrapping_mul(all) >> 32;
    u8::from(point >= u64::from(counts[0]))
}

// The cells of the grid in the order of the random path.
fn path(alloc: Global, words: &Words) -> Result<Vec<usize>, AllocError> {
    let count = GRID_SIDE as usize * GRID_SIDE as usize;
    let mut path: Vec<usize> = (0..count).collect(alloc)?;
    for i in (1..count).rev() {
        let word = words.at((count - 1 - i) as u64);
        let other = (u64::from(word).wrapping_mul(i as u64 + 1) >> 32) as usize;
        if i < path.len() && other < path.len() {
            path.swap(i, other);
        }
    }
    Ok(path)
}

// The categories of the grid after all its nodes were simulated.
fn recounted(alloc: Global, template: &[Vector]) -> Result<Vec<Option<u8>>, AllocError> {
    let words = Words::new(SEED, 0);
    let path = path(alloc, &words)?;
    let positions = positions(alloc, template)?;
    let mut grid = vec![in alloc; None; GRID_SIDE as usize * GRID_SIDE as usize]?;
    for (index, cell) in path.iter().enumerate() {
        let seen = seen_around(alloc, template, &grid, *cell)?;
        let place = (path.len() as u64).wrapping_add(index as u64) % (1 << 32);
        let category = picked(retained_counts(&positions, &seen), words.at(place));
        if let Some(slot) = grid.get_mut(*cell) {
            *slot = Some(category);
        }
    }
    Ok(grid)
}

fn banded_image(alloc: Global, shape: Shape) -> Result<Grid, NoMemory>
    ensures { IfOk result (λ image. All (IsBelow 2) image.cells) }
{
    let mut image = Grid::unknown(alloc, shape)?;
    for number in 0..shape.cells() {
        let cat = category(number % IMAGE_SIDE, number / IMAGE_SIDE);
        image.set(CellId(number), Some(Cat(cat)));
    }
    Ok(image)
}

#[test]
fn a_realisation_equals_a_plain_recount(rt: HostRuntime) -> Result<(), Fail> {
    let image = banded_image(rt.alloc(), Shape::new(IMAGE_SIDE, IMAGE_SIDE, 1)?)?;
    let template = Template::new(rt.alloc(), [2, 1, 0], 6)?;
    let hard = Grid::unknown(rt.alloc(), Shape::new(GRID_SIDE, GRID_SIDE, 1)?)?;
    let setup = setup_over(image, template, hard, 1, MIN_REPLICATES, SEED);
    let recounted = recounted(rt.alloc(), setup.template.vectors())?;
    let realisation = realised_by(&rt, rt.alloc(), &setup, 0, StoreKind::Scan)?;
    assert_eq!(rt; realisation.shape().cells() as usize, recounted.len());
    let mut categories = [0u32; 2];
    for (number, expected) in recounted.iter().enumerate() {
        let cat = realisation.get(CellId(number as u32)).map(|cat| cat.0);
        assert_eq!(rt; cat, *expected, "in cell {number}");
        let which = cat.map_or(0, |cat| cat as usize % 2);
        categories[which] = categories[which].wrapping_add(1);
    }
    // Both categories come, so the test sees more than one pattern.
    assert!(rt; categories[0] > 100 && categories[1] > 100);
    Ok(())
}
