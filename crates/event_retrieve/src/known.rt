// The known template cells around a node.
ghost use Rattle.std.specs.Prelude.{◌≡◌, ◌↔◌, ℕ, ◌+◌, ◌<◌, ◌≤◌, ◌++◌, IfSome, Some, length, option_to_list};
ghost use Rattle.mp_base.specs.Grid.{cells_of, cat_at, cat_of};
ghost use Rattle.ti_scan.specs.Event.{IsEvent};
ghost use Rattle.ti_scan.specs.Rising.{next_position};
ghost use Rattle.event_retrieve.specs.Around.{vector_between as vector_there};
ghost use Rattle.event_retrieve.specs.Plan.{IsFront, cell_at_position as cell_there, data_by, datum_at, grid_at, known};

use crate::plan::LevelPlan;
use mp_base::{Cat, CellId, Entry, Grid, Shape, Vector};
use ti_scan::{Datum, Event, cat_from};

/// The known template cells around a cell of a grid, in template order.
pub fn event_on(grid: &Grid, vectors: &[Vector], cell: CellId) -> Event
    requires cell { cell < cells_of grid.now.sides }
    requires short { length vectors.now ≤ 64 }
    ensures data_ { result ≡ data_by (λ _ v. cat_at grid.now cell v) vectors.now }
    ensures event { IsEvent (length vectors.now) result }
{
    let mut event = Event::empty();
    for (i, v) in vectors.iter().enumerate() {
        push_found(&mut event, i, cat_from(grid, cell, *v));
    }
    event
}

/// The known event of a path node once the entries of the log are set: the template cells around it
/// that are known at the start or have an entry, in template order. The log has the first nodes of
/// the path. No grid is copied.
pub fn known_event(plan: &LevelPlan<'_>, index: u32, log: &[Entry]) -> Event
    requires index { index < length plan.now.path }
    requires front { IsFront plan.now log.now }
    ensures data_ { result ≡ known plan.now log.now (length log.now) index }
    ensures event { IsEvent (length plan.now.source.template) result }
{
    let cell = plan.cell_of(index);
    let vectors = plan.eroded().template().vectors();
    let mut event = Event::empty();
    for (i, v) in vectors.iter().enumerate() {
        push_found(&mut event, i, cat_near(plan, log, cell, *v));
    }
    event
}

/// Adds the datum of a template vector, by the number of that vector counted from 0, where a category
/// was found there.
pub fn push_found(event: &mut Event, number: usize, found: Option<Cat>)
    requires after { next_position event.old ≤ number + 1 }
    requires last { number < 64 }
    ensures { event.new ≡ event.old ++ option_to_list (datum_at (number + 1) found) }
{
    if let Some(cat) = found {
        event.push(Datum {
            position: number as u8 + 1,
            cat,
        });
    }
}

// The category at a vector from a cell once the log's entries are set.
fn cat_near(plan: &LevelPlan<'_>, log: &[Entry], cell: CellId, v: Vector) -> Option<Cat>
    requires cell { cell < cells_of plan.now.start.sides }
    requires front { IsFront plan.now log.now }
    ensures { result ≡ cat_at (grid_at plan.now log.now (length log.now)) cell v }
{
    let other = plan.start().shape().step(cell, v)?;
    cat_after(plan, log, other)
}

/// The category of a cell once the log's entries are set: its category at the start, or else that
/// of its entry. The log has the first nodes of the path.
pub fn cat_after(plan: &LevelPlan<'_>, log: &[Entry], cell: CellId) -> Option<Cat>
    requires cell { cell < cells_of plan.now.start.sides }
    requires front { IsFront plan.now log.now }
    ensures { result ≡ cat_of (grid_at plan.now log.now (length log.now)).cells cell }
{
    let at_start = plan.start().get(cell);
    if at_start.is_some() {
        return at_start;
    }
    let rank = plan.rank_of(cell)? as usize;
    if rank < log.len() {
        Some(log[rank].cat)
    } else {
        None
    }
}

/// The cell at a template position of a path node, or nothing exactly where that is outside.
pub fn cell_at_position(plan: &LevelPlan<'_>, index: u32, position: u8) -> Option<CellId>
    requires index { index < length plan.now.path }
    requires position { (1 ≤ position) × (position ≤ length plan.now.source.template) }
    ensures cell { result ≡ cell_there plan.now index position }
    ensures inside { IfSome result (λ c. c < cells_of plan.now.start.sides) }
{
    let vector = plan.eroded().template().vectors()[position as usize - 1];
    plan.start().shape().step(plan.cell_of(index), vector)
}

/// The template position of a path node at which a cell lies, or nothing exactly where it lies at
/// none: the inverse of `cell_at_position`.
pub fn position_of_cell(plan: &LevelPlan<'_>, index: u32, cell: CellId) -> Option<u8>
    requires index { index < length plan.now.path }
    requires cell { cell < cells_of plan.now.start.sides }
    ensures { (q : ℕ) → (result ≡ Some q) ↔ ((1 ≤ q) × (cell_there plan.now index q ≡ Some cell)) }
{
    let _ = plan.length();
    let vector = vector_between(plan.start().shape(), plan.cell_of(index), cell);
    plan.eroded().template().position_of(vector)
}

// The vector from one cell to another.
fn vector_between(shape: Shape, from: CellId, to: CellId) -> Vector
    requires from { from < cells_of shape }
    requires to { to < cells_of shape }
    ensures { result ≡ vector_there shape from to }
{
    let (x, y, z) = shape.place(from);
    let (to_x, to_y, to_z) = shape.place(to);
    let _ = shape.cells();
    Vector {
        dx: to_x as i32 - x as i32,
        dy: to_y as i32 - y as i32,
        dz: to_z as i32 - z as i32,
    }
}
