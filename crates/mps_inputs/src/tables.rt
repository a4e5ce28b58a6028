// Tables from files, read piece by piece.
ghost use Rattle.std.specs.Prelude.{◌≡◌, ◌≢◌, ◌≤◌, ◌<◌, ◌+◌, [], AllPairs, Contains, IfErr, IfOk, None, length};
ghost use Rattle.gslib_grid.specs.Reader.{WasFed};
ghost use Rattle.gslib_grid.specs.Table.{wanted_of};
ghost use Rattle.mp_outside.specs.Seen.{OnlyReads};
ghost use Rattle.mps_inputs.specs.Answers.{IsAccepted, IsInputFault};
ghost use Rattle.mps_inputs.specs.Inputs.{read_as};
ghost use Rattle.mps_inputs.specs.Tables.{IsTable, WasFedFile, WasFedTo, error_fault, table_in};

use crate::fault::{Fault, Name};
use gslib_grid::{Table, TableError, TableReader, Want};
use mp_base::Codes;
use mp_outside::Files;
use std::alloc::Global;

// How many bytes one read asks for.
const PIECE: usize = 65_536;

/// Reads a table that the command names, piece by piece, until a read gives nothing or a fault is
/// told. Of the file no more is held than one piece, a part of one line, and the rows.
pub fn read_table_file<F: Files>(
    alloc: Global,
    files: &mut F,
    name: &str,
    want: Want,
    codes: Codes,
) -> Result<Table, Fault>
    requires column { 1 ≤ (wanted_of want).category }
    requires differ { AllPairs (λ a b. a ≢ b) codes.categories }
    requires missing { ¬ (Contains codes.categories codes.missing) }
    requires name { length name.now ≤ 255 }
    ensures read { IsAccepted (read_as (table_in want codes) name.now) (F.seen files.old) result }
    ensures table { IfOk result (IsTable want codes) }
    ensures fault { IfErr result (IsInputFault (read_as (table_in want codes) name.now) (F.seen files.old) (F.seen files.new)) }
    ensures only { OnlyReads (F.seen files.old) (F.seen files.new) }
{
    let mut buffer = vec![in alloc; 0; PIECE]?;
    let mut reader = TableReader::new(alloc, want, codes)?;
    feed_file(files, name, want, &mut reader, buffer.as_mut_slice())?;
    match reader.end() {
        Ok(table) => Ok(table),
        Err(error) => Err(fault_for(want, error)),
    }
}

// Feeds a reader all bytes of a file, each piece through the buffer.
fn feed_file<F: Files>(
    files: &mut F,
    name: &str,
    want: Want,
    reader: &mut TableReader,
    buffer: &mut [u8],
) -> Result<(), Fault>
    requires name { length name.now ≤ 255 }
    requires room { 0 < length buffer.old }
    requires first { WasFed want reader.old.codes reader.old [] }
    requires untold { reader.old.told ≡ None }
    ensures fed { IfOk result (λ _. WasFedFile want reader.old.codes reader.new (F.seen files.old) name.now) }
    ensures fault { IfErr result (IsInputFault (read_as (table_in want reader.old.codes) name.now) (F.seen files.old) (F.seen files.new)) }
    ensures only { OnlyReads (F.seen files.old) (F.seen files.new) }
{
    let mut at = 0_u64;
    loop {
        let count = feed_piece(files, name, want, at, reader, buffer)?;
        if count == 0 {
            return Ok(());
        }
        at += count as u64;
    }
}

// Feeds a reader the bytes of a file from a place on, and answers how many: none at the file's end.
fn feed_piece<F: Files>(
    files: &mut F,
    name: &str,
    want: Want,
    at: u64,
    reader: &mut TableReader,
    buffer: &mut [u8],
) -> Result<usize, Fault>
    requires name { length name.now ≤ 255 }
    requires room { 0 < length buffer.old }
    requires fed { WasFedTo want reader.old.codes reader.old (F.seen files.old) name.now at }
    ensures more { IfOk result (λ count. WasFedTo want reader.old.codes reader.new (F.seen files.new) name.now (at + count)) }
    ensures end { IfOk result (λ count. count ≡ 0 → WasFedFile want reader.old.codes reader.new (F.seen files.old) name.now) }
    ensures fault { IfErr result (IsInputFault (read_as (table_in want reader.old.codes) name.now) (F.seen files.old) (F.seen files.new)) }
    ensures only { OnlyReads (F.seen files.old) (F.seen files.new) }
{
    let Ok(count) = files.read_at(name, at, buffer) else {
        return Err(Fault::CannotRead {
            name: Name::new(name),
        });
    };
    match reader.feed(&buffer[..count]) {
        Ok(()) => Ok(count),
        Err(error) => Err(fault_for(want, error)),
    }
}

// Why no table was read, as a fault of the image or of the points.
fn fault_for(want: Want, error: TableError) -> Fault
    ensures { result ≡ error_fault want error }
{
    match (want, error) {
        (Want::Image { .. }, TableError::Fault(fault)) => Fault::Image(fault),
        (Want::Points { .. }, TableError::Fault(fault)) => Fault::Points(fault),
        (_, TableError::NoMemory) => Fault::OutOfMemory,
    }
}
