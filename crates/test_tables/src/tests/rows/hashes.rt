//! The hashers of the tests, which put keys into known buckets.
ghost use Rattle.std.specs.Prelude.{◌*◌, ◌/◌};
ghost use Rattle.ets_term.specs.Encoding.{encoding, fnv};

// Of each hasher, `ghost hash` is what contracts see of `hash32`, and `ghost below` proves that hashes are below 2^32.
use ets_term::{Fnv, KeyHash, Term};

/// A hasher whose hashes are never odd, so that each odd bucket is empty, however many buckets there are.
#[derive(Clone, Copy, Drop)]
pub struct Even;

impl KeyHash for Even {
    ghost use Rattle.ets_term.specs.laws.Hashed.{fnv-below};
    ghost use Rattle.std.proofs.Common.{arith};

    ghost hash = { λ _ term. 2 * (fnv (encoding term) / 2) };

    ghost below = { λ _ term. Prim.omega (arith, fnv-below (encoding term)) };

    fn hash32(&self, term: &Term) -> u32 {
        2 * (Fnv.hash32(term) / 2)
    }
}

/// A hasher whose hash of a process is its number, and of every other term 0.
#[derive(Clone, Copy, Drop)]
pub struct PidNumber;

impl KeyHash for PidNumber {
    ghost use Rattle.test_tables.specs.Numbers.{number_of, number-below};

    ghost hash = { λ _ term. number_of term };

    ghost below = { λ _ term. number-below term };

    fn hash32(&self, term: &Term) -> u32 {
        match term {
            Term::Pid(number) => *number,
            _ => 0,
        }
    }
}

/// A hasher whose hash of every key is the greatest, so that all keys are in the last bucket.
#[derive(Clone, Copy, Drop)]
pub struct Greatest;

impl KeyHash for Greatest {
    ghost use Rattle.std.proofs.Common.{arith};

    ghost hash = { λ _ _. 4294967295 };

    ghost below = { λ _ _. Prim.omega arith };

    fn hash32(&self, _term: &Term) -> u32 {
        u32::MAX
    }
}
