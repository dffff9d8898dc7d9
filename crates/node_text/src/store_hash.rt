//! The hasher of the keys of a store's tables.
use ets_term::{Fnv, KeyHash, Keyed, Term};

/// The hasher of the keys of a store's tables. The choice changes nothing in replies but the order of keys.
#[derive(Clone, Copy)]
pub(crate) enum StoreHash {
    /// FNV-1a, so that the order of keys is the same in each run.
    Fixed,
    /// The hasher with a seed, so that a user without the seed cannot choose keys of one bucket.
    Seeded(Keyed),
}

impl KeyHash for StoreHash {
    ghost use Rattle.node_text.specs.inside.Hash.{store_hash, store_hash-below};

    ghost hash = { store_hash };

    ghost below = { store_hash-below };

    #[inline(always)]
    fn hash32(&self, term: &Term) -> u32 {
        match self {
            StoreHash::Fixed => Fnv.hash32(term),
            StoreHash::Seeded(hasher) => hasher.hash32(term),
        }
    }
}
