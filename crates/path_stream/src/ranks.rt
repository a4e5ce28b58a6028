// The ranks of cells on a path.
ghost use Rattle.std.specs.Prelude.{◌≡◌, ◌<◌, nat_eq, length, slice_index, All, IfOk, IfSome};
ghost use Rattle.std.specs.List.{IsDistinct};
ghost use Rattle.mp_base.specs.Grid.{cells_of};
ghost use Rattle.path_stream.specs.Ranks.{comes_later, rank_in};

use mp_base::{CellId, NoMemory, Shape};
use std::alloc::Global;
use std::marker::Model;

/// The inverse of a path: where on it a cell stands. A cell of the grid takes four bytes.
#[derive(Drop)]
pub struct Ranks {
    // By cell: one more than its rank, or 0 where it isn't on the path.
    slots: Vec<u32>,
    // The cells on the path.
    count: u32,
}

impl Model for Ranks {
    ghost use Rattle.std.specs.Prelude.{ℕ, List};
    ghost use Rattle.path_stream.specs.Ranks.{path_from, IsRanked};

    ghost Value = { List ℕ };

    ghost view = { λ r. path_from r.count r.slots.items };

    ghost invariant = { λ r. IsRanked r.slots.items (path_from r.count r.slots.items) };
}

impl Ranks {
    /// The ranks on a path of different cells of a grid of this shape.
    pub fn new(alloc: Global, shape: Shape, path: &[CellId]) -> Result<Ranks, NoMemory>
        requires apart { IsDistinct nat_eq path.now }
        requires inside { All (λ c. c < cells_of shape) path.now }
        ensures { IfOk result (λ ranks. ranks ≡ path.now) }
    {
        let mut slots = vec![in alloc; 0; shape.cells() as usize]?;
        for (i, cell) in path.iter().enumerate() {
            slots[cell.0 as usize] = i as u32 + 1;
        }
        Ok(Ranks {
            slots,
            count: path.len() as u32,
        })
    }

    /// How many cells are on the path.
    pub fn len(&self) -> u32
        ensures { result ≡ length self.now }
    {
        self.count
    }

    /// The rank of a cell: its index in the path, counted from 0, or nothing exactly where the cell
    /// isn't on the path.
    pub fn rank(&self, cell: CellId) -> Option<u32>
        ensures rank { result ≡ rank_in self.now cell }
        ensures here { IfSome result
            (λ i. (i < length self.now) × (slice_index self.now i ≡ cell)) }
    {
        let index = cell.0 as usize;
        if index < self.slots.len() {
            self.slots[index].checked_sub(1)
        } else {
            None
        }
    }

    /// Whether a cell stands on the path at this index or behind it. Of a cell that isn't on the path
    /// the answer is no.
    pub fn comes_later(&self, cell: CellId, index: u32) -> bool
        ensures { result ≡ comes_later self.now index cell }
    {
        let place = cell.0 as usize;
        place < self.slots.len() && index < self.slots[place]
    }
}
