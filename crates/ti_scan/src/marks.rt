// Marks of cells one after another. Each loop goes over slices of bytes, so that the compiler
// looks at many cells at a time.
ghost use Rattle.std.specs.Prelude.{◌≡◌, ◌≤◌, ◌<◌, ◌^◌, ◌+◌, ◌++◌, None, OnOk, cond, if◌then◌else◌, length, map, ℕ, slice_index};
ghost use Rattle.ti_scan.specs.Marks.{Keeps, has_byte, has_category, categories_marked, cells_marked, marked, marks_in};
ghost use Rattle.ti_scan.specs.Window.{AddsMarked};
ghost use Rattle.mp_base.specs.Grid.{category_of};

use mp_base::{CellId, NoMemory};

/// Keeps the marks of the cells that have this category.
pub fn keep_category(marks: &mut [bool], bytes: &[u8], wanted: u8)
    requires { length bytes.now ≡ length marks.old }
    ensures { Keeps (has_byte bytes.now wanted) marks.old marks.new }
{
    for i in 0..marks.len() {
        let same = bytes[i] == wanted;
        marks[i] &= same;
    }
}

/// Keeps the marks of the cells that have a category.
pub fn keep_known(marks: &mut [bool], bytes: &[u8])
    requires { length bytes.now ≡ length marks.old }
    ensures { Keeps (has_category bytes.now) marks.old marks.new }
{
    for i in 0..marks.len() {
        let known = bytes[i] < 8;
        marks[i] &= known;
    }
}

// A mark as a number to add.
fn one_if(mark: bool) -> u32
    ensures { result ≡ cond mark 1 0 }
{
    if mark { 1 } else { 0 }
}

/// How many of the marked cells have this category.
pub fn count_category(marks: &[bool], bytes: &[u8], wanted: u8) -> u32
    requires same { length bytes.now ≡ length marks.now }
    requires few { length marks.now < 2 ^ 32 }
    ensures count { result ≡ marked marks.now bytes.now wanted (length marks.now) }
    ensures few { result ≤ length marks.now }
{
    let mut count = 0;
    for i in 0..marks.len() {
        let here = marks[i] & (bytes[i] == wanted);
        count += one_if(here);
    }
    count
}

/// Adds to the number of each category below `cats` the marked cells of that category.
pub fn add_marked(parts: &mut [u32], cats: u8, marks: &[bool], bytes: &[u8])
    requires same { length bytes.now ≡ length marks.now }
    requires few { length marks.now < 2 ^ 32 }
    requires parts { cats ≤ length parts.old }
    requires room { (k : ℕ) → k < cats → slice_index parts.old k + length marks.now < 2 ^ 32 }
    ensures { AddsMarked marks.now bytes.now cats parts.old parts.new }
{
    for k in 0..cats {
        parts[k as usize] += count_category(marks, bytes, k);
    }
}

/// How many cells are marked.
pub fn count_marks(marks: &[bool]) -> u32
    requires { length marks.now < 2 ^ 32 }
    ensures count { result ≡ marks_in marks.now (length marks.now) }
    ensures few { result ≤ length marks.now }
{
    let mut count = 0;
    for i in 0..marks.len() {
        count += one_if(marks[i]);
    }
    count
}

/// Adds the marked cells, of those from `first` on.
pub fn push_marked(first: u32, marks: &[bool], cells: &mut Vec<CellId>) -> Result<(), NoMemory>
    requires { first + length marks.now < 2 ^ 32 }
    ensures { OnOk result (cells.new.items ≡ cells.old.items ++ cells_marked marks.now first (length marks.now)) }
{
    for i in 0..marks.len() {
        if marks[i] {
            cells.push(CellId(first + i as u32))?;
        }
    }
    Ok(())
}

// The byte of a cell that has this byte, if it's marked, and else nothing.
fn if_marked(mark: bool, byte: u8) -> u8
    ensures { category_of result ≡ (if mark then category_of byte else None) }
{
    if mark { byte } else { 8 }
}

/// Adds the categories of the marked cells, and nothing for the others.
pub fn push_categories(marks: &[bool], bytes: &[u8], to: &mut Vec<u8>) -> Result<(), NoMemory>
    requires { length bytes.now ≡ length marks.now }
    ensures { OnOk result (map category_of to.new.items ≡ map category_of to.old.items ++ categories_marked marks.now bytes.now) }
{
    for i in 0..marks.len() {
        to.push(if_marked(marks[i], bytes[i]))?;
    }
    Ok(())
}
