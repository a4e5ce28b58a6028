// Categories as words.
ghost use Rattle.std.specs.Prelude.{◌≡◌, ◌∷◌, ◌≤◌, map, IfOk};
ghost use Rattle.mp_base.specs.Grid.{IsGrid};
ghost use Rattle.shared_grid.specs.Rule.{word_of};

use mp_base::{Cat, CellId, Grid, NoMemory};
use std::alloc::Global;

// The words of a grid of which nothing is shown yet: the front, and then a word for each cell.
pub(crate) fn words_of(alloc: Global, start: &Grid) -> Result<Vec<u64>, NoMemory>
    ensures words { IfOk result (λ words. words.items ≡ 0 ∷ map word_of start.now.cells) }
    ensures grid { IsGrid start.now }
{
    let count = start.shape().cells();
    let mut words = Vec::with_capacity(alloc, count as usize + 1)?;
    words.push(0)?;
    for number in 0..count {
        words.push(word_from(start.get(CellId(number))))?;
    }
    Ok(words)
}

// 0 for nothing, and else one more than the category.
pub(crate) fn word_from(value: Option<Cat>) -> u64
    ensures word { result ≡ word_of value }
    ensures byte { result ≤ 256 }
{
    match value {
        Some(cat) => u64::from(cat.0) + 1,
        None => 0,
    }
}

pub(crate) fn category_from(word: u64) -> Option<Cat>
    requires { word ≤ 256 }
    ensures { word ≡ word_of result }
{
    match word {
        0 => None,
        _ => Some(Cat((word - 1) as u8)),
    }
}
