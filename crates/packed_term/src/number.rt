//! Integers of 64 bits as packed terms and objects, which take no memory.
ghost use Rattle.std.specs.Prelude.{◌≡◌, pos};
ghost use Rattle.ets_term.specs.declared.term.Term.TheVariants.{Int};
ghost use Rattle.ets_term.specs.Views.{as_int};

use crate::form::Form;
use crate::object::{Object, Parts};
use crate::packed::Packed;
use ets_term::Integer;

// The packed form of an integer of 64 bits: `from_gives` says what `from` returns.
impl From<i64> for Packed {
    ghost from_gives = { λ n p. p ≡ Int n };

    fn from(n: i64) -> Packed {
        Packed {
            form: Form::Small(n),
        }
    }
}

// The object that is an integer of 64 bits: `from_gives` says what `from` returns.
impl From<i64> for Object {
    ghost from_gives = { λ n o. o ≡ Int n };

    fn from(n: i64) -> Object {
        Object {
            parts: Parts::Other(Packed::from(n)),
        }
    }
}

/// The default object is the integer 0. It takes no memory.
impl Default for Object {
    ghost is_default = { λ o. o ≡ Int (pos 0) };

    fn default() -> Object {
        Object::from(0)
    }
}

impl Object {
    /// Returns the value of an integer, or `None` for another term.
    pub fn as_integer(&self) -> Option<Integer>
        ensures { result ≡ as_int self.now }
    {
        match &self.parts {
            Parts::Pair(_) => None,
            Parts::Other(term) => term.as_integer(),
        }
    }
}
