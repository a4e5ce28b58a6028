// The cells of a level as words.
ghost use Rattle.std.specs.Prelude.{◌≡◌, ◌+◌, ◌≤◌, ◌<◌, max, length, slice_get, IfOk, IfSome, IfNone, Some};
ghost use Rattle.event_retrieve.specs.Plan.{IsLog, IsPlan};
ghost use Rattle.shared_grid.specs.Names.{start_of, HasCell};
ghost use Rattle.shared_grid.specs.Reads.{ShowsSince, IsOfStory, IsUnknownTo};

use crate::names::{Naming, Site};
use crate::passes::{Reader, Writer};
use crate::rule::{Law, LoadsCell, LoadsFront, Meets, Notes, StoresCell, StoresFront, View};
use crate::words::{category_from, word_from, words_of};
use atomic_table::{Seat, Table};
use mp_base::{Cat, CellId, Entry, Grid, NoMemory};
use std::alloc::Global;
use std::marker::{Model, PhantomData};

type Words<N> = Table<(), View, (), Law<N>, Global>;

/// The words of a level before their site is chosen. Contracts see them as which words they are.
#[derive(Drop)]
pub struct Cells<N: Naming> {
    table: Words<N>,
}

impl<N: Naming> Model for Cells<N> {
    ghost use Rattle.std.specs.Prelude.{◌≡◌};
    ghost use Rattle.atomic_table.specs.Seated.{TableId};
    ghost use Rattle.shared_grid.specs.Names.{IsNamed, words_in};

    ghost Value = { TableId };

    ghost view = { λ c. c.table.shared.table_id };

    ghost invariant = { λ c. (c.table.shared.table_id.words ≡ words_in N.plan)
        × IsNamed N.plan N.story };
}

/// The writer of a level's words before their site is chosen. Contracts see it as which words they
/// are.
#[derive(Drop)]
pub struct CellsWriter<N: Naming> {
    seat: Seat<(), View>,
    of: PhantomData<N>,
}

impl<N: Naming> Model for CellsWriter<N> {
    ghost use Rattle.std.specs.Prelude.{◌≡◌, []};
    ghost use Rattle.atomic_table.specs.Seated.{TableId};
    ghost use Rattle.shared_grid.specs.declared.rule.View.TheVariants.{Writes};

    ghost Value = { TableId };

    ghost view = { λ w. w.seat.table_id };

    ghost invariant = { λ w. w.seat.me ≡ (Writes 0 0, []) };
}

impl<N: Naming> Cells<N> {
    /// The words of a level's start, and their writer. The name is of a plan with this start, and
    /// its story has the plan's path. A cell takes eight bytes.
    pub fn new(alloc: Global, start: &Grid) -> Result<(Cells<N>, CellsWriter<N>), NoMemory>
        requires plan { IsPlan N.plan }
        requires start { start.now ≡ start_of N.plan }
        requires story { IsLog N.plan N.story }
        ensures { IfOk result (λ made. made.1 ≡ made.0) }
    {
        let words = words_of(alloc, start)?;
        let (table, seat) = Table::of_words(alloc, words.as_slice(), &())?;
        let writer = CellsWriter {
            seat,
            of: PhantomData,
        };
        Ok((Cells { table }, writer))
    }
}

/// The cells of one level and the front, which is how many entries of the story are shown. Any
/// thread may load them while the writer stores. Contracts see it as which words they are.
#[derive(Drop)]
pub struct SharedGrid<N: Naming, T: Site> {
    table: Words<N>,
    of: PhantomData<T>,
}

impl<N: Naming, T: Site> Model for SharedGrid<N, T> {
    ghost use Rattle.std.specs.Prelude.{◌≡◌};
    ghost use Rattle.atomic_table.specs.Seated.{TableId};
    ghost use Rattle.shared_grid.specs.Names.{IsNamed, words_in};

    ghost Value = { TableId };

    ghost view = { λ g. g.table.shared.table_id };

    ghost invariant = { λ g. (g.table.shared.table_id ≡ T.words)
        × (g.table.shared.table_id.words ≡ words_in N.plan)
        × IsNamed N.plan N.story };
}

impl<N: Naming, T: Site> SharedGrid<N, T> {
    /// The words under their site, and their writer. Nothing is stored yet.
    pub fn new(cells: Cells<N>, writer: CellsWriter<N>) -> (SharedGrid<N, T>, Writer<N, T>)
        requires cells { cells ≡ T.words }
        requires writer { writer ≡ T.words }
        ensures { result.1 ≡ record { stored = 0; front = 0 } }
    {
        let Cells { table } = cells;
        let CellsWriter { seat, of: _ } = writer;
        let grid = SharedGrid {
            table,
            of: PhantomData,
        };
        let writer = Writer {
            front: 0,
            seat,
            of: PhantomData,
        };
        (grid, writer)
    }

    /// How many entries are shown: one load. The pass has seen them afterwards. It is no fewer than
    /// the pass had seen.
    pub fn front(&self, pass: &mut Reader<N, T>) -> u32
        ensures seen { pass.new ≡ result }
        ensures later { pass.old ≤ result }
        ensures within { result ≤ length N.story }
    {
        let front = self.table.shared.load::<LoadsFront<N>>(&mut pass.seat, 0);
        front as u32
    }

    /// The category of a cell, or nothing: one load. It is what the start shows there with some
    /// number of entries of the story, at least as many as the pass has seen. So a category is the
    /// start's or the story's, and nothing is answered only where the cell is unknown at the start
    /// and its entry wasn't seen.
    pub fn read(&self, pass: &mut Reader<N, T>, cell: CellId) -> Option<Cat>
        requires { HasCell N.plan cell }
        ensures same { pass.new ≡ pass.old }
        ensures moment { ShowsSince N.plan N.story pass.old cell result }
        ensures some { IfSome result (λ k. IsOfStory N.plan N.story cell k) }
        ensures none { IfNone result (IsUnknownTo N.plan pass.old cell) }
    {
        let place = cell.0 as usize + 1;
        let word = self
            .table
            .shared
            .load::<LoadsCell<N>>(&mut pass.seat, place);
        category_from(word)
    }

    /// Stores the next entry of the story and shows it: one store of its cell, then one of the
    /// front.
    pub fn publish(&self, writer: &mut Writer<N, T>, entry: Entry)
        requires even { writer.old.stored ≡ writer.old.front }
        requires next { slice_get N.story writer.old.stored ≡ Some entry }
        ensures { writer.new
            ≡ record { stored = writer.old.stored + 1; front = writer.old.front + 1 } }
    {
        let word = word_from(Some(entry.cat));
        let place = entry.cell.0 as usize + 1;
        self.table
            .shared
            .store::<StoresCell>(&mut writer.seat, place, word);
        let front = writer.front + 1;
        self.table
            .shared
            .store::<StoresFront>(&mut writer.seat, 0, u64::from(front));
        writer.front = front;
    }

    /// A pass that has seen all that the writer has shown.
    pub fn note(&self, writer: &mut Writer<N, T>) -> Reader<N, T>
        ensures seen { result ≡ writer.old.front }
        ensures same { writer.new ≡ writer.old }
    {
        let seat = self.table.shared.split_seat::<Notes>(&mut writer.seat);
        Reader {
            seat,
            of: PhantomData,
        }
    }

    /// A pass that has seen as much as another.
    pub fn reader(&self, from: &mut Reader<N, T>) -> Reader<N, T>
        ensures seen { result ≡ from.old }
        ensures same { from.new ≡ from.old }
    {
        let seat = self.table.shared.split_seat::<Notes>(&mut from.seat);
        Reader {
            seat,
            of: PhantomData,
        }
    }

    /// The first pass has afterwards seen what either has. The second stays.
    pub fn meet(&self, into: &mut Reader<N, T>, from: &mut Reader<N, T>)
        ensures into { into.new ≡ max into.old from.old }
        ensures from { from.new ≡ from.old }
    {
        let other = self.reader(from);
        self.give_back(into, other);
    }

    /// The first pass has afterwards seen what either has. The second is gone.
    pub fn give_back(&self, into: &mut Reader<N, T>, from: Reader<N, T>)
        ensures { into.new ≡ max into.old from }
    {
        let Reader { seat, of: _ } = from;
        self.table.shared.join_seat::<Meets>(&mut into.seat, seat);
    }
}
