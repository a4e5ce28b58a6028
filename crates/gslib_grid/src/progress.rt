// What was read of a table, line by line.
ghost use Rattle.std.specs.Prelude.{◌≡◌, ◌≤◌, ◌<◌, ◌+◌, ◌^◌, ◌++◌, length, [], IfOk, IfErr, OnOk, OnErr};
ghost use Rattle.mp_text.specs.Fields.{fields_of};
ghost use Rattle.mp_base.specs.Grid.{IsBelow};
ghost use Rattle.gslib_grid.specs.Table.{checked_count, checked_numbers, count_in, has_columns};

use crate::fault::{TableError, TableFault};
use crate::number::{Numbers, category, lone_digit, variables};
use crate::row::{Row, Rows, Table};
use crate::want::Wanted;
use mp_base::Codes;
use mp_text::{has_fields, line_text, without_line_feed};
use std::marker::Model;

// The most bytes of a line before its line feed, and of a file.
const MAX_LINE: usize = 65_536;

const MAX_FILE: usize = 1 << 28;

/// What was read of a table: the number of lines, their bytes, the number of variables, 0 before it
/// is told, and the rows.
#[derive(Drop)]
pub struct Progress {
    lines: u32,
    bytes: usize,
    variables: u32,
    rows: Rows,
}

impl Model for Progress {
    ghost use Rattle.gslib_grid.specs.Table.{Front};
    ghost use Rattle.gslib_grid.specs.Steps.{IsFront};

    ghost Value = { Front };

    ghost view = { λ p. record { lines = p.lines; bytes = p.bytes; variables = p.variables; rows = p.rows } };

    ghost invariant = { λ p. IsFront (record { lines = p.lines; bytes = p.bytes; variables = p.variables; rows = p.rows }) };
}

impl Progress {
    ghost use Rattle.gslib_grid.specs.Table.{Tells, Count, OneRow, ended, is_row, is_too_long, judged_row};
    ghost use Rattle.gslib_grid.specs.Steps.{added_to, with_line};
    ghost use Rattle.gslib_grid.specs.Reader.{long_fault};

    /// Nothing was read yet.
    pub fn new(rows: Rows) -> Progress
        requires { rows ≡ [] }
        ensures { result ≡ record { lines = 0; bytes = 0; variables = 0; rows = [] } }
    {
        Progress {
            lines: 0,
            bytes: 0,
            variables: 0,
            rows,
        }
    }

    /// Takes the next line, which is refused with its first fault. After an error all is as it was.
    pub fn take_line(
        &mut self,
        wanted: &Wanted,
        codes: &Codes,
        line: &[u8],
    ) -> Result<(), TableError>
        requires column { 1 ≤ wanted.now.category }
        requires some { 0 < length line.now }
        ensures ok { OnOk result (with_line wanted.now codes.now self.old line.now ≡ Ok self.new) }
        ensures fault { IfErr result (λ error. Tells error (with_line wanted.now codes.now self.old line.now)) }
        ensures err { OnErr result (self.new ≡ self.old) }
    {
        if self.is_too_long(line) {
            return Err(TableError::Fault(TableFault::TooLong {
                line: self.lines + 1,
            }));
        }
        let text = line_text(line);
        if self.lines == 1 {
            let count = count(wanted, text)?;
            self.pass(line, count);
            return Ok(());
        }
        if !self.is_row(text) {
            self.pass(line, self.variables);
            return Ok(());
        }
        match self.row(wanted, codes, text) {
            Ok(row) => self.take_row(line, row),
            Err(fault) => Err(TableError::Fault(fault)),
        }
    }

    // Takes a line that is no row, and the number of variables.
    fn pass(&mut self, line: &[u8], variables: u32)
        requires few { variables ≤ 64 }
        requires some { 0 < length line.now }
        requires fits { self.old.bytes + length line.now ≤ 2 ^ 28 }
        ensures { self.new ≡ added_to self.old line.now (Count variables) }
    {
        self.lines += 1;
        self.bytes += line.len();
        self.variables = variables;
    }

    // Takes a line that is this row. After an error all is as it was.
    fn take_row(&mut self, line: &[u8], row: Row) -> Result<(), TableError>
        requires below { IsBelow 8 row.cat }
        requires some { 0 < length line.now }
        requires fits { self.old.bytes + length line.now ≤ 2 ^ 28 }
        ensures ok { OnOk result (self.new ≡ added_to self.old line.now (OneRow row)) }
        ensures memory { IfErr result (λ error. error ≡ TableError.NoMemory) }
        ensures err { OnErr result (self.new ≡ self.old) }
    {
        self.rows.push(row)?;
        self.lines += 1;
        self.bytes += line.len();
        Ok(())
    }

    /// That the next line is too long, as far as it goes: two parts of it, of which the second has a
    /// byte.
    pub fn long_fault(&self, begun: &[u8], part: &[u8]) -> Option<TableFault>
        requires { 0 < length part.now }
        ensures { result ≡ long_fault self.now (begun.now ++ part.now) }
    {
        let size = begun.len() + without_line_feed(part).len();
        if size > MAX_LINE || self.bytes + begun.len() + part.len() > MAX_FILE {
            return Some(TableFault::TooLong {
                line: self.lines + 1,
            });
        }
        None
    }

    // Whether the next line has too many bytes, or reaches too far into the file.
    fn is_too_long(&self, line: &[u8]) -> bool
        ensures { result ≡ is_too_long self.now line.now }
    {
        without_line_feed(line).len() > MAX_LINE || self.bytes + line.len() > MAX_FILE
    }

    // Whether the next line is a row: it stands behind the names, and has a field.
    fn is_row(&self, text: &[u8]) -> bool
        ensures { result ≡ is_row self.now (fields_of text.now) }
    {
        self.variables + 2 <= self.lines && has_fields(text, 1)
    }

    // The row of the next line, or its first fault.
    #[tactic(auto, unfolding(crate::specs::Table::judged_row))]
    fn row(&self, wanted: &Wanted, codes: &Codes, text: &[u8]) -> Result<Row, TableFault>
        requires { 1 ≤ wanted.now.category }
        ensures row { result ≡ judged_row wanted.now codes.now self.now (fields_of text.now) }
        ensures below { IfOk result (λ row. IsBelow 8 row.cat) }
    {
        let line = self.lines + 1;
        if wanted.most as usize <= self.rows.len() {
            return Err(TableFault::TooManyRows { line });
        }
        // Most images are one column of digits.
        if self.variables <= 1
            && wanted.is_first_alone()
            && let Some(digit) = lone_digit(text)
        {
            return row_of(codes, line, Some(Numbers::of_code(i32::from(digit))));
        }
        if !has_fields(text, self.variables as usize) {
            return Err(TableFault::ShortRow { line });
        }
        row_of(codes, line, Numbers::read(text, wanted))
    }

    /// The table, after its last line; or what is missing at its end.
    #[tactic(auto, unfolding(crate::specs::Table::ended))]
    pub fn end(self, wanted: &Wanted) -> Result<Table, TableFault>
        ensures { result ≡ ended wanted.now self }
    {
        if self.lines == 0 {
            return Err(TableFault::NoTitle);
        }
        if self.lines < self.variables + 2 {
            return Err(TableFault::BadCount);
        }
        if self.rows.len() < wanted.least as usize {
            return Err(TableFault::TooFewRows { line: self.lines });
        }
        Ok(Table {
            lines: self.lines,
            rows: self.rows,
        })
    }
}

// The number of variables that the second line tells, or what is wrong with it.
fn count(wanted: &Wanted, text: &[u8]) -> Result<u32, TableFault>
    ensures count { result ≡ checked_count wanted.now (count_in (fields_of text.now)) }
    ensures few { IfOk result (λ count. count ≤ 64) }
{
    match variables(text) {
        None => Err(TableFault::BadCount),
        Some(count) if has_columns(wanted, count) => Ok(count),
        Some(_) => Err(TableFault::NoColumn),
    }
}

// Whether each wanted column is there.
fn has_columns(wanted: &Wanted, count: u32) -> bool
    ensures { result ≡ has_columns wanted.now count }
{
    u32::from(wanted.x) <= count
        && u32::from(wanted.y) <= count
        && u32::from(wanted.z) <= count
        && u32::from(wanted.category) <= count
}

// The row of these numbers, or what is wrong with them.
fn row_of(codes: &Codes, line: u32, numbers: Option<Numbers>) -> Result<Row, TableFault>
    ensures row { result ≡ checked_numbers codes.now line numbers }
    ensures below { IfOk result (λ row. IsBelow 8 row.cat) }
{
    let Some(numbers) = numbers else {
        return Err(TableFault::BadNumber { line });
    };
    let Some(cat) = category(codes, numbers.code) else {
        return Err(TableFault::UnknownCategory { line });
    };
    Ok(Row {
        line,
        x: numbers.x,
        y: numbers.y,
        z: numbers.z,
        cat,
    })
}
