// Tests.
ghost use Rattle.std.specs.Prelude.{◌≡◌, ◌<◌, ◌≤◌, ◌∷◌, [], All, IfOk, length};
ghost use Rattle.mp_base.specs.Grid.{IsBelow};
ghost use Rattle.ti_scan.specs.Event.{IsEvent};
ghost use Rattle.impala_list.specs.List.{list_reach};

use crate::EventList;
use mp_base::{Cat, CellId, Grid, NoMemory, Shape};
use std::alloc::Global;
use std::test::Fail;
use std::thread::Threads;
use template_order::Template;
use ti_scan::{CountStore, Datum, Eroded, Event};

// An image of which no cell is known yet.
fn blank(alloc: Global, shape: Shape) -> Result<Grid, NoMemory>
    ensures sides { IfOk result (λ g. g.sides ≡ shape) }
    ensures below { IfOk result (λ g. All (IsBelow 3) g.cells) }
{
    Grid::unknown(alloc, shape)
}

// An image of one row, of three categories.
fn row(alloc: Global, cats: &[u8]) -> Result<Grid, NoMemory>
    requires some { 1 ≤ length cats.now }
    requires few { length cats.now ≤ 100 }
    requires below { All (λ k. k < 3) cats.now }
    ensures { IfOk result (λ g. All (IsBelow 3) g.cells) }
{
    let shape = Shape {
        nx: cats.len() as u32,
        ny: 1,
        nz: 1,
    };
    let mut image = blank(alloc, shape)?;
    for i in 0..cats.len() {
        image.set(CellId(i as u32), Some(Cat(cats[i])));
    }
    Ok(image)
}

fn datum(position: u8, cat: u8) -> Datum
    ensures { result ≡ record { position = position; cat = cat } }
{
    Datum {
        position,
        cat: Cat(cat),
    }
}

// An event of one datum.
fn event_of_one(first: Datum) -> Event
    requires { (1 ≤ first.position) × (first.position ≤ 64) }
    ensures { result ≡ first ∷ [] }
{
    let mut event = Event::empty();
    event.push(first);
    event
}

// An event of two data.
fn event_of_two(first: Datum, second: Datum) -> Event
    requires first { (1 ≤ first.position) × (first.position < second.position) }
    requires last { second.position ≤ 64 }
    ensures { result ≡ first ∷ second ∷ [] }
{
    let mut event = Event::empty();
    event.push(first);
    event.push(second);
    event
}

// The list of a row of cells under the four cells nearest to a cell of it.
fn list_of_a_row(rt: &(impl Threads + Sync), alloc: Global, cats: &[u8]) -> Result<EventList, Fail>
    requires some { 1 ≤ length cats.now }
    requires few { length cats.now ≤ 100 }
    requires below { All (λ k. k < 3) cats.now }
    ensures { IfOk result (λ list. list_reach list ≡ 4) }
{
    let image = row(alloc, cats)?;
    let template = Template::new(alloc, [2, 0, 0], 4)?;
    if template.len() != 4 {
        return Err(Fail::new("the template has other cells"));
    }
    let eroded = Eroded::new(alloc, &image, &template, 3)?;
    Ok(EventList::build(rt, alloc, &eroded)?)
}

// A row of 50 cells, of the categories by turns between the first and the last cell.
fn turns(alloc: Global, first: u8, last: u8) -> Result<Grid, NoMemory>
    requires first { first < 3 }
    requires last { last < 3 }
    ensures { IfOk result (λ g. All (IsBelow 3) g.cells) }
{
    let shape = Shape {
        nx: 50,
        ny: 1,
        nz: 1,
    };
    let mut image = blank(alloc, shape)?;
    for i in 0..50u32 {
        image.set(CellId(i), Some(Cat((i % 3) as u8)));
    }
    image.set(CellId(0), Some(Cat(first)));
    image.set(CellId(49), Some(Cat(last)));
    Ok(image)
}

// How many entries the list of such a row has under the 42 cells nearest to a cell of it.
fn wide_entries(
    rt: &(impl Threads + Sync),
    alloc: Global,
    first: u8,
    last: u8,
) -> Result<u32, NoMemory>
    requires first { first < 3 }
    requires last { last < 3 }
{
    let image = turns(alloc, first, last)?;
    let template = Template::new(alloc, [21, 0, 0], 42)?;
    let eroded = Eroded::new(alloc, &image, &template, 3)?;
    Ok(EventList::build(rt, alloc, &eroded)?.entries())
}

// Whether so many replicates of the event have each category at their centre.
fn has_counts(list: &EventList, event: &Event, wanted: &[u32]) -> bool
    requires { IsEvent (list_reach list.now) event.now }
{
    list.counts(event).as_slice() == wanted
}

// Whether the longest prefix with at least `min` replicates has so many data and these counts.
fn has_longest(list: &EventList, event: &Event, min: u32, len: u8, wanted: &[u32]) -> bool
    requires { IsEvent (list_reach list.now) event.now }
{
    let longest = list.longest_prefix(event, event.len(), min);
    longest.len == len && longest.counts.as_slice() == wanted
}

// Whether each of the events, counted together, has these counts.
fn have_counts(
    rt: &(impl Threads + Sync),
    alloc: Global,
    list: &EventList,
    events: &[Event],
    wanted: &[[u32; 3]],
) -> Result<bool, NoMemory>
    requires { All (IsEvent (list_reach list.now)) events.now }
{
    let many = list.counts_many(rt, alloc, events)?;
    if many.len() != wanted.len() {
        return Ok(false);
    }
    for i in 0..wanted.len() {
        if many[i].as_slice() != wanted[i].as_slice() {
            return Ok(false);
        }
    }
    Ok(true)
}

#[test]
fn unknown_positions_are_answered_by_all_entries(rt: HostRuntime) -> Result<(), Fail> {
    let list = list_of_a_row(&rt, rt.alloc(), &[0, 0, 1, 1, 0, 1, 0, 0])?;
    assert_eq!(rt; list.entries(), 4);
    let one = event_of_one(datum(1, 0));
    let two = event_of_two(datum(1, 0), datum(3, 1));
    assert!(rt; has_counts(&list, &two, &[0, 1, 0]));
    assert!(rt; has_longest(&list, &two, 1, 2, &[0, 1, 0]));
    assert!(rt; has_longest(&list, &two, 2, 1, &[0, 2, 0]));
    assert!(rt; has_longest(&list, &two, 5, 0, &[1, 3, 0]));
    assert!(rt; has_longest(&list, &one, 1, 1, &[0, 2, 0]));
    Ok(())
}

#[test]
fn many_events_are_answered_in_their_order(rt: HostRuntime) -> Result<(), Fail> {
    let list = list_of_a_row(&rt, rt.alloc(), &[0, 0, 1, 1, 0, 1, 0, 0])?;
    let events = [
        Event::empty(),
        event_of_one(datum(1, 0)),
        event_of_two(datum(1, 0), datum(3, 1)),
    ];
    let wanted = [[1, 3, 0], [0, 2, 0], [0, 1, 0]];
    assert!(rt; have_counts(&rt, rt.alloc(), &list, &events, &wanted)?);
    Ok(())
}

#[test]
fn equal_patterns_are_one_entry(rt: HostRuntime) -> Result<(), Fail> {
    let list = list_of_a_row(&rt, rt.alloc(), &[2, 2, 2, 2, 2, 2, 2, 2])?;
    assert_eq!(rt; list.entries(), 1);
    assert!(rt; has_counts(&list, &Event::empty(), &[0, 0, 4]));
    Ok(())
}

// Patterns of three categories at 42 cells are more than 64 bits have numbers for. Of the eight
// positions of a row of 50 cells, those three apart have one pattern; the first cell of the row belongs
// to the pattern of the first one alone, and the last to that of the last.
#[test]
fn patterns_that_differ_at_the_last_cells_are_apart(rt: HostRuntime) -> Result<(), Fail> {
    assert_eq!(rt; wide_entries(&rt, rt.alloc(), 0, 1)?, 3);
    assert_eq!(rt; wide_entries(&rt, rt.alloc(), 2, 1)?, 4);
    assert_eq!(rt; wide_entries(&rt, rt.alloc(), 2, 0)?, 5);
    Ok(())
}
