// Words of 64 items of a table.
ghost use Rattle.std.specs.Prelude.{◌≡◌, ℕ, ◌+◌, ◌-◌, ◌*◌, ◌/◌, ◌%◌, ◌^◌, ◌<◌, ◌≤◌, ◌==◌, IfOk, not, slice_index};
ghost use Rattle.std.specs.Int.{bit_at};
ghost use Rattle.pattern_blocks.specs.Bits.{AreMarks};
ghost use Rattle.pattern_blocks.specs.Making.{AreWords, MarksIf, number_at};

use crate::rows::word_or_zero;
use mp_base::NoMemory;
use std::alloc::Global;

// Marks an item if so asked.
fn mark_if(word: u64, item: u32, marks: bool) -> u64
    requires { item < 64 }
    ensures { MarksIf word item marks result }
{
    if marks { word | 1 << item } else { word }
}

// Of 64 words at equal distances, those that aren't 0.
fn some_marked(words: &[u64], from: usize, step: usize) -> u64
    requires { from + 64 * step < 2 ^ 48 }
    ensures { AreMarks (λ s. not (number_at words.now from step s == 0)) result }
{
    let mut marks = 0;
    for item in 0..64u32 {
        let word = word_or_zero(words, from + item as usize * step);
        marks = mark_if(marks, item, word != 0);
    }
    marks
}

// Of 64 words at equal distances, those that have all marks.
fn every_marked(words: &[u64], from: usize, step: usize) -> u64
    requires { from + 64 * step < 2 ^ 48 }
    ensures { AreMarks (λ s. number_at words.now from step s == 2 ^ 64 - 1) result }
{
    let mut marks = 0;
    for item in 0..64u32 {
        let word = word_or_zero(words, from + item as usize * step);
        marks = mark_if(marks, item, word == u64::MAX);
    }
    marks
}

/// A number of a list, or 0 past its end.
pub fn number_or_zero(numbers: &[u32], index: usize) -> u32
    ensures { result ≡ slice_index numbers.now index }
{
    match numbers.get(index) {
        Some(number) => *number,
        None => 0,
    }
}

// Whether a bit of a number is 1.
fn has_bit(number: u32, bit: u32) -> bool
    requires { bit < 32 }
    ensures { result ≡ (bit_at number bit == 1) }
{
    (number >> bit) & 1 == 1
}

/// Of 64 numbers at equal distances, those that have a bit.
pub fn bit_marked(numbers: &[u32], from: usize, step: usize, bit: u32) -> u64
    requires bit { bit < 32 }
    requires range { from + 64 * step < 2 ^ 48 }
    ensures { AreMarks (λ s. bit_at (number_at numbers.now from step s) bit == 1) result }
{
    let mut marks = 0;
    for item in 0..64u32 {
        let number = number_or_zero(numbers, from + item as usize * step);
        marks = mark_if(marks, item, has_bit(number, bit));
    }
    marks
}

/// The greatest of 64 numbers at equal distances.
pub fn greatest_of(numbers: &[u32], from: usize, step: usize) -> u32
    requires { from + 64 * step < 2 ^ 48 }
    ensures { (u : ℕ) → u < 64 → number_at numbers.now from step u ≤ result }
{
    let mut most = 0;
    for item in 0..64u32 {
        let number = number_or_zero(numbers, from + item as usize * step);
        if number > most {
            most = number;
        }
    }
    most
}

/// The place in a table of the first number of a row: 64 items with so many numbers each have as
/// many rows.
pub fn row_start(row: u32, width: u32) -> usize
    requires some { 1 ≤ width }
    requires width { width < 2 ^ 10 }
    requires row { row < 2 ^ 20 }
    ensures start { result ≡ row / width * 64 * width + row % width }
    ensures small { result < 2 ^ 40 }
{
    (row / width) as usize * 64 * width as usize + (row % width) as usize
}

/// For each row of 64 words, those that aren't 0.
pub fn some_rows(alloc: Global, words: &[u64], width: u32, rows: u32) -> Result<Vec<u64>, NoMemory>
    requires some { 1 ≤ width }
    requires width { width < 2 ^ 10 }
    requires rows { rows ≤ 2 ^ 20 }
    ensures { IfOk result (λ marks. AreWords (λ word. not (word == 0)) words.now width rows marks.items) }
{
    let mut marks = Vec::new(alloc);
    for row in 0..rows {
        marks.push(some_marked(words, row_start(row, width), width as usize))?;
    }
    Ok(marks)
}

/// For each row of 64 words, those that have all marks.
pub fn every_rows(alloc: Global, words: &[u64], width: u32, rows: u32) -> Result<Vec<u64>, NoMemory>
    requires some { 1 ≤ width }
    requires width { width < 2 ^ 10 }
    requires rows { rows ≤ 2 ^ 20 }
    ensures { IfOk result (λ marks. AreWords (λ word. word == 2 ^ 64 - 1) words.now width rows marks.items) }
{
    let mut marks = Vec::new(alloc);
    for row in 0..rows {
        marks.push(every_marked(words, row_start(row, width), width as usize))?;
    }
    Ok(marks)
}
