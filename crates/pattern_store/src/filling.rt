// What the image shows around each eroded position.
ghost use Rattle.std.specs.Prelude.{◌≡◌, ◌-◌, ◌<◌, ◌≤◌, Some, length, slice_get, true};
ghost use Rattle.mp_base.specs.declared.cell.Vector.{Vector};
ghost use Rattle.mp_base.specs.Grid.{cat_of, cell_at, cells_of};
ghost use Rattle.ti_scan.specs.Eroded.{is_eroded, positions_of};
ghost use Rattle.pattern_store.specs.Levels.{AreCentres, AreEroded, AreShown};

use mp_base::CellId;
use ti_scan::Eroded;

// Writes the category at a position of the template around each of these eroded positions. From `from`
// the cell there is `to`, and from each other cell it lies as far away.
fn read_moved(
    eroded: &Eroded<'_>,
    cells: &[CellId],
    position: u8,
    from: u32,
    to: u32,
    shown: &mut [u8],
)
    requires cells { AreEroded eroded.now cells.now }
    requires first { 1 ≤ position }
    requires last { position ≤ length eroded.now.template }
    requires moved { (v : Vector) → slice_get eroded.now.template (position - 1) ≡ Some v → cell_at eroded.now.image.sides from v ≡ Some to }
    requires same { length shown.old ≡ length cells.now }
    ensures { AreShown eroded.now position cells.now shown.new }
{
    let _ = eroded.positions();
    let bytes = eroded.image().as_bytes();
    for i in 0..cells.len() {
        let cell = cells[i];
        shown[i] = bytes[cell.0 as usize + to as usize - from as usize];
    }
}

/// Writes the category at a position of the template around each of these eroded positions.
pub fn read_around(eroded: &Eroded<'_>, cells: &[CellId], position: u8, shown: &mut [u8])
    requires cells { AreEroded eroded.now cells.now }
    requires first { 1 ≤ position }
    requires last { position ≤ length eroded.now.template }
    requires same { length shown.old ≡ length cells.now }
    ensures { AreShown eroded.now position cells.now shown.new }
{
    if cells.is_empty() {
        return;
    }
    let v = eroded.template().vectors()[position as usize - 1];
    let first = cells[0];
    match eroded.image().shape().step(first, v) {
        Some(to) => read_moved(eroded, cells, position, first.0, to.0, shown),
        None => unreachable!(),
    }
}

/// Writes the category at a position of the template around each eroded position.
pub fn read_shown(eroded: &Eroded<'_>, position: u8, shown: &mut [u8])
    requires first { 1 ≤ position }
    requires last { position ≤ length eroded.now.template }
    requires same { length shown.old ≡ length (positions_of eroded.now.image eroded.now.template) }
    ensures { AreShown eroded.now position (positions_of eroded.now.image eroded.now.template) shown.new }
{
    let cells = eroded.positions();
    read_around(eroded, cells, position, shown);
}

// The category of an eroded position.
fn category_at(eroded: &Eroded<'_>, cell: CellId) -> u8
    requires cell { cell < cells_of eroded.now.image.sides }
    requires eroded { is_eroded eroded.now.image eroded.now.template cell ≡ true }
    ensures { cat_of eroded.now.image.cells cell ≡ Some result }
{
    match eroded.image().get(cell) {
        Some(cat) => cat.0,
        None => unreachable!(),
    }
}

/// Writes the category of each eroded position.
pub fn read_centres(eroded: &Eroded<'_>, centres: &mut [u8])
    requires same { length centres.old ≡ length (positions_of eroded.now.image eroded.now.template) }
    ensures { AreCentres eroded.now (positions_of eroded.now.image eroded.now.template) centres.new }
{
    let cells = eroded.positions();
    for i in 0..cells.len() {
        centres[i] = category_at(eroded, cells[i]);
    }
}
