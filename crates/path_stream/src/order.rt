// The random path.
ghost use Rattle.std.specs.Prelude.{◌≡◌, ◌≤◌, ◌^◌, nat_eq, length, IfOk, IsPermutation};
ghost use Rattle.std.specs.List.{IsDistinct};
ghost use Rattle.std.specs.List.Sorted.{IsStrictlyIncreasing};
ghost use Rattle.path_stream.specs.Words.{word_of};
ghost use Rattle.path_stream.specs.Path.{path_of};

use crate::words::Words;
use mp_base::{CellId, NoMemory};
use std::alloc::Global;

/// The random path over nodes that stand in rising cell number: the nodes after the shuffle of
/// Fisher and Yates (Durstenfeld 1964). Of `n` nodes, the one at index `i`, for `i` falling from
/// `n - 1` to 1, changes places with the one at index `floor(w * (i + 1) / 2^32)`, by the word `w`
/// at place `n - 1 - i`. So a path takes the words at the places 0 to `n - 2`, in order.
pub fn draw_path(alloc: Global, nodes: &[CellId], words: &Words) -> Result<Vec<CellId>, NoMemory>
    requires rising { IsStrictlyIncreasing nodes.now }
    ensures path { let word = word_of words.now.seed words.now.number in
        IfOk result (λ path. path.items ≡ path_of word nodes.now) }
    ensures permutation { IfOk result (λ path. IsPermutation nodes.now path.items) }
    ensures apart { IfOk result (λ path. IsDistinct nat_eq path.items) }
    ensures len { IfOk result (λ path. length path.items ≡ length nodes.now) }
{
    let count = count_of(nodes);
    let mut path = nodes.to_vec(alloc)?;
    let mut cursor = words.from(0);
    for i in (1..count).rev() {
        let word = u64::from(cursor.next_word());
        let other = word * (i as u64 + 1) >> 32;
        path.swap(i, other as usize);
    }
    Ok(path)
}

// How many nodes there are: since they rise, no more than there are numbers for cells. The last
// node's number, which is at least its index, shows it.
fn count_of(nodes: &[CellId]) -> usize
    requires { IsStrictlyIncreasing nodes.now }
    ensures count { result ≡ length nodes.now }
    ensures few { result ≤ 2 ^ 32 }
{
    let count = nodes.len();
    if count > 0 {
        let last = &nodes[count - 1];
        let _ = last.0 as usize;
    }
    count
}
