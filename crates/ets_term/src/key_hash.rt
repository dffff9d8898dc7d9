//! Hashers of terms, for tables.
ghost use Rattle.std.specs.Prelude.{◌≡◌, ℕ, ◌<◌, ◌^◌};
ghost use Rattle.ets_term.specs.declared.term.Term as declared;

use crate::term::Term;

/// A hasher of terms. Equal terms have equal hashes, and all hashes are below 2^32.
pub trait KeyHash {
    /// The hash of a term, as contracts see it: what `hash32` returns.
    ghost hash: { Self → declared.Term → ℕ };

    /// Returns the hash of a term, a number of 32 bits.
    fn hash32(&self, term: &Term) -> u32
        ensures { result ≡ hash self.now term.now };

    // The law that all hashes are below 2^32. Each implementation proves it.
    ghost below: { (hasher : Self) (term : declared.Term) → hash hasher term < 2 ^ 32 };
}

/// The hasher that returns the hash 0 for each term, so that all keys are in one bucket.
#[derive(Clone, Copy)]
pub struct AllSame;

impl KeyHash for AllSame {
    ghost use Rattle.std.proofs.Common.{arith};

    ghost hash = { λ _ _. 0 };

    ghost below = { λ _ _. Prim.omega arith };

    fn hash32(&self, _term: &Term) -> u32 {
        0
    }
}
