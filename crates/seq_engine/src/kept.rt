// Stores that are kept, each with what it was built from, for further levels over the same.
ghost use Rattle.std.specs.Prelude.{◌≡◌, ◌+◌, ◌≤◌, ◌⊎◌, ◌^◌, [], ◌∷◌, ◌++◌, IfOk, IfSome, IsTrue};
ghost use Rattle.ti_scan.specs.Event.{StandsFor};
ghost use Rattle.seq_engine.specs.Store.{built_bits, built_counts, built_reach};
ghost use Rattle.seq_engine.specs.Kept.{bits_in};

use crate::built::BuiltStore;
use mp_base::{Grid, NoMemory, Vector};
use std::alloc::Global;
use std::marker::Model;
use ti_scan::Eroded;

// How many stores are kept at most: as many as a setup has levels.
const MOST_STORES: usize = 8;

// How many bits the patterns of all kept stores have at most: those of 2^28 bytes.
const MOST_BITS: u64 = 1 << 31;

/// A store with copies of the image and of the template that it was built from.
#[derive(Drop)]
pub struct KeptStore {
    image: Grid,
    vectors: Vec<Vector>,
    cats: u8,
    store: BuiltStore,
}

impl Model for KeptStore {
    ghost use Rattle.ti_scan.specs.Event.{StandsFor};
    ghost use Rattle.seq_engine.specs.Store.{built_bits, built_counts, built_reach};
    ghost use Rattle.seq_engine.specs.Kept.{Kept};

    ghost Value = { Kept };

    ghost view = { λ k. record { source = record { image = k.image; template = k.vectors.items; cats = k.cats }; bits = built_bits k.store } };

    ghost invariant = { λ k. StandsFor built_counts built_reach k.store (record { image = k.image; template = k.vectors.items; cats = k.cats }) };
}

// Whether two images are cell for cell the same, seen by their bytes.
fn is_same_image(image: &Grid, other: &Grid) -> bool
    ensures { IsTrue result → image.now ≡ other.now }
{
    image.shape() == other.shape() && image.as_bytes() == other.as_bytes()
}

// Whether two templates have the same vectors in the same order.
fn are_same_vectors(vectors: &[Vector], others: &[Vector]) -> bool
    ensures { IsTrue result → vectors.now ≡ others.now }
{
    vectors == others
}

impl KeptStore {
    /// The store with copies of what it was built from.
    pub fn new(alloc: Global, eroded: &Eroded<'_>, store: BuiltStore) -> Result<KeptStore, NoMemory>
        requires { StandsFor built_counts built_reach store eroded.now }
        ensures { IfOk result (λ kept. kept ≡ record { source = eroded.now; bits = built_bits store }) }
    {
        let image = eroded.image().copy(alloc)?;
        let vectors = eroded.template().vectors().to_vec(alloc)?;
        Ok(KeptStore {
            image,
            vectors,
            cats: eroded.cats(),
            store,
        })
    }

    // Whether it was built from this.
    fn is_of(&self, eroded: &Eroded<'_>) -> bool
        ensures { IsTrue result → self.now.source ≡ eroded.now }
    {
        self.cats == eroded.cats()
            && are_same_vectors(self.vectors.as_slice(), eroded.template().vectors())
            && is_same_image(&self.image, eroded.image())
    }

    // How many bits say what its patterns show.
    fn bits(&self) -> u64
        ensures { result ≡ self.now.bits }
    {
        self.store.bits()
    }

    // The store.
    fn store(&self) -> &BuiltStore
        ensures { StandsFor built_counts built_reach result.now self.now.source }
    {
        &self.store
    }
}

/// The stores that a runner has built and kept. What their patterns show takes at most 2^31 bits.
#[derive(Drop)]
pub struct KeptStores {
    stores: Vec<KeptStore>,
    bits: u64,
}

impl Model for KeptStores {
    ghost use Rattle.std.specs.Prelude.{◌≡◌, ◌≤◌, ◌^◌, List};
    ghost use Rattle.seq_engine.specs.Kept.{Kept, bits_in};

    ghost Value = { List Kept };

    ghost view = { λ k. k.stores.items };

    ghost invariant = { λ k. (k.bits ≡ bits_in k.stores.items) × (k.bits ≤ 2 ^ 31) };
}

impl KeptStores {
    /// No stores.
    pub fn new(alloc: Global) -> KeptStores
        ensures { result ≡ [] }
    {
        KeptStores {
            stores: Vec::new(alloc),
            bits: 0,
        }
    }

    /// A kept store of these eroded positions: one that was built from the same image, template and
    /// number of categories.
    pub fn find(&self, eroded: &Eroded<'_>) -> Option<&BuiltStore>
        ensures { IfSome result (λ store. StandsFor built_counts built_reach store.now eroded.now) }
    {
        for kept in self.stores.as_slice() {
            if kept.is_of(eroded) {
                return Some(kept.store());
            }
        }
        None
    }

    // Whether there is room for another store of so many bits.
    fn has_room(&self, bits: u64) -> bool
        ensures room { IsTrue result → bits_in self.now + bits ≤ 2 ^ 31 }
        ensures few { bits_in self.now ≤ 2 ^ 31 }
    {
        self.stores.len() < MOST_STORES && bits <= MOST_BITS - self.bits
    }

    /// Keeps the store of these eroded positions. It is let go instead where there are enough stores,
    /// where the patterns of all would have too many bits, or where memory for the copies runs out.
    pub fn keep(&mut self, alloc: Global, eroded: &Eroded<'_>, store: BuiltStore)
        requires { StandsFor built_counts built_reach store eroded.now }
        ensures kept { (self.new ≡ self.old) ⊎ (self.new ≡ self.old ++ (record { source = eroded.now; bits = built_bits store }) ∷ []) }
        ensures few { bits_in self.new ≤ 2 ^ 31 }
    {
        if !self.has_room(store.bits()) {
            return;
        }
        if let Ok(kept) = KeptStore::new(alloc, eroded, store) {
            self.put(kept);
        }
    }

    /// The same of a store that has its copies.
    pub fn put(&mut self, kept: KeptStore)
        ensures kept { (self.new ≡ self.old) ⊎ (self.new ≡ self.old ++ kept ∷ []) }
        ensures few { bits_in self.new ≤ 2 ^ 31 }
    {
        let bits = kept.bits();
        if self.has_room(bits) && self.stores.push(kept).is_ok() {
            self.bits += bits;
        }
    }
}
