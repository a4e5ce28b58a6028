// Reading of tables in pieces.
ghost use Rattle.std.specs.Prelude.{◌≡◌, ◌≢◌, ◌≤◌, ◌<◌, ◌++◌, ◌∷◌, [], ℕ, List, length, AllPairs, Contains, Err, IfErr, IfOk, None, OnOk, Some};
ghost use Rattle.std.specs.Result.{result_err};
ghost use Rattle.mp_base.specs.declared.codes.Codes.{Codes as CodesOf};
ghost use Rattle.mp_text.specs.Lines.{lines_of};
ghost use Rattle.gslib_grid.specs.Reader.{has_ended};

use crate::fault::TableError;
use crate::progress::Progress;
use crate::row::{Rows, Table};
use crate::want::{Want, Wanted};
use mp_base::{Codes, NoMemory};
use mp_text::next_line;
use std::alloc::Global;
use std::marker::Model;

/// A table that is read in pieces: however its bytes are cut, the table is the same. A fault is told
/// as soon as a line has ended that has one, or is too long already.
///
/// It holds the rows so far, and of the bytes only a part of one line: at most 65,537.
#[derive(Drop)]
pub struct TableReader {
    wanted: Wanted,
    codes: Codes,
    progress: Progress,
    begun: Vec<u8>,
    told: Option<TableError>,
}

impl Model for TableReader {
    ghost use Rattle.gslib_grid.specs.Reader.{Reading, IsReading};

    ghost Value = { Reading };

    ghost view = { λ r. record { wanted = r.wanted; codes = r.codes; front = r.progress; begun = r.begun.items; told = r.told } };

    ghost invariant = { λ r. IsReading (record { wanted = r.wanted; codes = r.codes; front = r.progress; begun = r.begun.items; told = r.told }) };
}

impl TableReader {
    ghost use Rattle.gslib_grid.specs.Table.{Gives, Tells, table_of, wanted_of};
    ghost use Rattle.gslib_grid.specs.Reader.{Takes, TellsWith, WasFed, told_so_far, with_part};
    ghost use Rattle.gslib_grid.specs.declared.want.Want.{Want as WantOf};
    ghost use Rattle.gslib_grid.specs.declared.fault.TableError.{TableError as ErrorOf};

    /// A reader that was fed nothing yet.
    pub fn new(alloc: Global, want: Want, codes: Codes) -> Result<TableReader, NoMemory>
        requires column { 1 ≤ (wanted_of want).category }
        requires differ { AllPairs (λ a b. a ≢ b) codes.categories }
        requires missing { ¬ (Contains codes.categories codes.missing) }
        ensures fed { IfOk result (λ reader. WasFed want codes reader []) }
        ensures told { IfOk result (λ reader. reader.told ≡ None) }
    {
        let wanted = Wanted::of(&want);
        let rows = Rows::with_capacity(alloc, wanted.least as usize)?;
        Ok(TableReader {
            wanted,
            codes,
            progress: Progress::new(rows),
            begun: Vec::new(alloc),
            told: None,
        })
    }

    /// Takes the next bytes of the table. The answer is a fault exactly where a line that has ended
    /// in the bytes so far, or one that is too long already, has the fault that decides. After an
    /// error every call answers that error again.
    pub fn feed(&mut self, piece: &[u8]) -> Result<(), TableError>
        ensures fed { Takes self.old self.new piece.now }
        ensures answer { (want : WantOf) (codes : CodesOf) (bytes : List ℕ) → WasFed want codes self.old bytes → Gives result (told_so_far want codes (bytes ++ piece.now)) }
        ensures told { self.new.told ≡ result_err result }
        ensures again { (error : ErrorOf) → self.old.told ≡ Some error → result ≡ Err error }
    {
        if let Some(error) = self.told {
            return Err(error);
        }
        match self.take_piece(piece) {
            Ok(()) => Ok(()),
            Err(error) => {
                self.told = Some(error);
                Err(error)
            }
        }
    }

    /// The table that all bytes are that were fed, or the first fault of its first line with a
    /// fault: the same as of these bytes in one piece.
    pub fn end(self) -> Result<Table, TableError>
        ensures table { (want : WantOf) (codes : CodesOf) (bytes : List ℕ) → WasFed want codes self bytes → Gives result (table_of want codes bytes) }
        ensures again { (error : ErrorOf) → self.told ≡ Some error → result ≡ Err error }
    {
        let TableReader {
            wanted,
            codes,
            mut progress,
            begun,
            told,
        } = self;
        if let Some(error) = told {
            return Err(error);
        }
        if !begun.is_empty() {
            progress.take_line(&wanted, &codes, &begun)?;
        }
        Ok(progress.end(&wanted)?)
    }

    // Takes the lines of a piece, of which the last may go on.
    fn take_piece(&mut self, piece: &[u8]) -> Result<(), TableError>
        requires { self.old.told ≡ None }
        ensures fed { OnOk result (Takes self.old self.new piece.now) }
        ensures fault { IfErr result (TellsWith self.old piece.now) }
        ensures told { self.new.told ≡ None }
    {
        let mut rest = piece;
        while let Some((part, behind)) = next_line(rest) {
            self.take_part(part)?;
            rest = behind;
        }
        Ok(())
    }

    // Takes a part of a line, which may end it. A line that is whole is judged where it stands.
    fn take_part(&mut self, part: &[u8]) -> Result<(), TableError>
        requires { 0 < length part.now }
        ensures ok { OnOk result (with_part self.old part.now ≡ Ok self.new) }
        ensures fault { IfErr result (λ error. Tells error (with_part self.old part.now)) }
        ensures told { self.new.told ≡ self.old.told }
    {
        let has_ended = has_ended(part);
        if has_ended && self.begun.is_empty() {
            return self.progress.take_line(&self.wanted, &self.codes, part);
        }
        if let Some(fault) = self.progress.long_fault(&self.begun, part) {
            return Err(TableError::Fault(fault));
        }
        self.begun.extend_from_slice(part)?;
        if has_ended {
            self.progress
                .take_line(&self.wanted, &self.codes, &self.begun)?;
            self.begun.clear();
        }
        Ok(())
    }
}

// Whether a line has ended.
fn has_ended(line: &[u8]) -> bool
    ensures { result ≡ has_ended line.now }
{
    !line.is_empty() && line[line.len() - 1] == b'\n'
}
