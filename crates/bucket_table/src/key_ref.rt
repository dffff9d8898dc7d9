//! The key of a slot, as its rows lend it.
ghost use Rattle.std.specs.Prelude.{◌≡◌, IfOk};
ghost use Rattle.ets_term.specs.Views.{as_int};
ghost use Rattle.bucket_table.specs.Lent.{key_of_ref};

use ets_term::{Integer, Term};
use packed_term::Packed;
use std::alloc::{AllocError, Global};

/// A lent key of a slot: a term, or a packed term.
#[derive(Clone, Copy)]
pub enum KeyRef<'a> {
    /// The key as rows in insertion order have it.
    Plain(&'a Term),
    /// The key as rows in hash buckets have it.
    Stored(&'a Packed),
}

impl<'a> KeyRef<'a> {
    /// Returns the key as a term, or an error if memory is refused.
    pub fn to_term(&self, alloc: Global) -> Result<Term, AllocError>
        ensures { IfOk result (λ term. term ≡ key_of_ref self.now) }
    {
        match self {
            KeyRef::Plain(key) => key.try_clone(alloc),
            KeyRef::Stored(key) => key.unpack(alloc),
        }
    }

    /// Returns the value of an integer, or `None` for another key.
    pub fn as_integer(&self) -> Option<Integer>
        ensures { result ≡ as_int (key_of_ref self.now) }
    {
        match self {
            KeyRef::Plain(key) => match key {
                Term::Int(n) => Some(*n),
                _ => None,
            },
            KeyRef::Stored(key) => key.as_integer(),
        }
    }
}
