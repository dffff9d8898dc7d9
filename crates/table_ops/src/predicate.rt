//! Which objects a query, a pattern or match specification, chooses. The calls that count or delete objects use it.
ghost use Rattle.std.specs.Prelude.{◌≡◌, Bool, true, false};
ghost use Rattle.ets_term.specs.declared.term.Term.{Term};
ghost use Rattle.table_ops.specs.Results.{Returns};

use ets_term::Term;
use match_spec::{Pattern, Spec};
use packed_term::Object;
use std::alloc::{AllocError, Global};

/// The predicate of a query: which objects it chooses.
pub trait Predicate {
    /// Whether an object is chosen.
    ghost tests: { Self → Term → Bool };

    /// Checks whether a cheap test shows that a packed object is not chosen, without unpacking it. If this returns
    /// `false`, the object must be unpacked and tested.
    fn rejects(&self, object: &Object) -> bool
        ensures { result ≡ true → tests self.now object.now ≡ false };

    /// Returns whether an object is chosen. Fails if an allocation fails.
    fn test(&self, alloc: Global, object: &Term) -> Result<bool, AllocError>
        ensures { Returns result (tests self.now object.now) };
}

/// A pattern chooses the objects that match it.
impl Predicate for Pattern {
    ghost use Rattle.table_ops.specs.Queries.{matches};

    ghost tests = { matches };

    #[inline(always)]
    fn rejects(&self, _object: &Object) -> bool {
        false
    }

    fn test(&self, _alloc: Global, object: &Term) -> Result<bool, AllocError> {
        Ok(self.fits(object))
    }
}

/// A match specification chooses the objects for which its result is `true`.
impl Predicate for Spec {
    ghost use Rattle.table_ops.specs.Queries.{is_chosen};

    ghost tests = { is_chosen };

    #[inline(always)]
    fn rejects(&self, object: &Object) -> bool {
        self.rejects_packed(object)
    }

    fn test(&self, alloc: Global, object: &Term) -> Result<bool, AllocError> {
        self.is_true(alloc, object)
    }
}
