// What may cross threads: each call here is proved, and none is made when the program runs.
use crate::grid::{Cells, CellsWriter, SharedGrid};
use crate::names::{Naming, Site};
use crate::passes::{Reader, Writer};

fn share<T: Sync>(_value: &T) {}

fn send<T: Send>(_value: &T) {}

fn unsited_sent<N: Naming>(cells: &Cells<N>, writer: &CellsWriter<N>) {
    send(cells);
    send(writer);
}

fn grid_shared<N: Naming, T: Site>(grid: &SharedGrid<N, T>) {
    share(grid);
    send(grid);
}

fn passes_sent<N: Naming, T: Site>(reader: &Reader<N, T>, writer: &Writer<N, T>) {
    send(reader);
    send(writer);
}
