// Numbers of 64 items, as planes of bits.
ghost use Rattle.std.specs.Prelude.{◌≡◌, ℕ, ◌+◌, ◌-◌, ◌*◌, ◌<◌, ◌≤◌, ◌^◌, IfOk, OnOk, length, slice_index};
ghost use Rattle.pattern_blocks.specs.Making.{AddsPlanes, AreRows, number_at, row_number};
ghost use Rattle.pattern_blocks.specs.Planes.{marked_sum, planes_of};

use crate::words::{bit_marked, greatest_of, number_or_zero, row_start};
use mp_base::NoMemory;
use std::alloc::Global;
use std::marker::Model;

/// Rows of 64 numbers each. The planes of a row stand in words from its end up to the next one's:
/// bit s of a plane is a bit of number s, and the highest plane is first.
#[derive(Drop)]
pub struct Planes {
    ends: Vec<u32>,
    words: Vec<u64>,
}

impl Model for Planes {
    ghost use Rattle.pattern_blocks.specs.Planes.{PlaneRows};

    ghost Value = { PlaneRows };

    ghost view = { λ p. record { ends = p.ends.items; words = p.words.items } };
}

// The sum of the numbers of the marked items.
fn marked_in(planes: &[u64], marks: u64) -> u32
    requires { marked_sum planes.now marks < 2 ^ 32 }
    ensures { result ≡ marked_sum planes.now marks }
{
    let mut sum = 0;
    for plane in planes {
        sum = 2 * sum + (*plane & marks).count_ones();
    }
    sum
}

impl Planes {
    // The planes of a row.
    fn row(&self, row: u32) -> &[u64]
        ensures { result.now ≡ planes_of self.now row }
    {
        let from = number_or_zero(self.ends.as_slice(), row as usize) as usize;
        let to = number_or_zero(self.ends.as_slice(), row as usize + 1) as usize;
        if from <= to && to <= self.words.len() {
            &self.words[from..to]
        } else {
            &[]
        }
    }

    /// The sum of the numbers of the marked items of a row.
    pub fn marked(&self, row: u32, marks: u64) -> u32
        requires { marked_sum (planes_of self.now row) marks < 2 ^ 32 }
        ensures { result ≡ marked_sum (planes_of self.now row) marks }
    {
        marked_in(self.row(row), marks)
    }
}

// Adds the planes of 64 numbers at equal distances, as many as the greatest needs.
fn push_planes(
    words: &mut Vec<u64>,
    numbers: &[u32],
    from: usize,
    step: usize,
) -> Result<(), NoMemory>
    requires { from + 64 * step < 2 ^ 48 }
    ensures { OnOk result (AddsPlanes words.old.items (number_at numbers.now from step) words.new.items) }
{
    let most = greatest_of(numbers, from, step);
    let mut bit = 32 - most.leading_zeros();
    while bit > 0 {
        bit -= 1;
        let plane = bit_marked(numbers, from, step, bit);
        words.push(plane)?;
    }
    Ok(())
}

impl Planes {
    /// The planes of a table, which has for each item a number for each category.
    pub fn of(alloc: Global, numbers: &[u32], cats: u8, rows: u32) -> Result<Planes, NoMemory>
        requires cats { 1 ≤ cats }
        requires few { rows ≤ 2 ^ 20 }
        ensures { IfOk result (λ p. AreRows p.ends p.words rows (row_number numbers.now cats)) }
    {
        let mut ends = vec![in alloc; 0u32; 1]?;
        let mut words = Vec::new(alloc);
        for row in 0..rows {
            push_planes(
                &mut words,
                numbers,
                row_start(row, cats as u32),
                cats as usize,
            )?;
            ends.push(words.len() as u32)?;
        }
        Ok(Planes { ends, words })
    }

    /// The sum of each row's numbers.
    pub fn sums(&self, alloc: Global, rows: u32) -> Result<Vec<u32>, NoMemory>
        requires { (r : ℕ) → r < rows → marked_sum (planes_of self.now r) (2 ^ 64 - 1) < 2 ^ 32 }
        ensures count { IfOk result (λ sums. length sums.items ≡ rows) }
        ensures each { IfOk result (λ sums. (r : ℕ) → r < rows → slice_index sums.items r ≡ marked_sum (planes_of self.now r) (2 ^ 64 - 1)) }
    {
        let mut sums = Vec::new(alloc);
        for row in 0..rows {
            sums.push(self.marked(row, u64::MAX))?;
        }
        Ok(sums)
    }
}
