//! What a query (a pattern or a match specification) returns for an object. `match` returns the values of variables,
//! `match_object` the object itself, and `select` the result of the first clause that applies.
ghost use Rattle.std.specs.Prelude.{◌≡◌, true, Option, None};
ghost use Rattle.ets_term.specs.declared.term.Term.{Term};
ghost use Rattle.ets_term.specs.Data.{Data};
ghost use Rattle.table_ops.specs.Results.{ReturnsData};

use ets_term::{Items, Term};
use match_spec::{Pattern, Spec};
use packed_term::Object;
use std::alloc::{AllocError, Global};

/// The projection of a query: its result for an object.
pub trait Projection {
    /// The result for an object, or `None` if the object has no result.
    ghost projects: { Self → Term → Option Data };

    /// Checks whether a cheap test shows that a packed object has no result, without unpacking it. If this returns
    /// `false`, the object must be unpacked and projected.
    fn rejects(&self, object: &Object) -> bool
        ensures { result ≡ true → projects self.now object.now ≡ None };

    /// Returns the result for an object, or `None` if the object has no result. Fails if an allocation fails.
    fn project(&self, alloc: Global, object: &Term) -> Result<Option<Term>, AllocError>
        ensures { ReturnsData result (projects self.now object.now) };
}

/// The result of a pattern is the list of the values of its variables, if the object matches.
impl Projection for Pattern {
    ghost use Rattle.table_ops.specs.Queries.{bound_in};

    ghost projects = { bound_in };

    #[inline(always)]
    fn rejects(&self, _object: &Object) -> bool {
        false
    }

    fn project(&self, alloc: Global, object: &Term) -> Result<Option<Term>, AllocError> {
        if !self.fits(object) {
            return Ok(None);
        }
        let values = self.values_in(alloc, object)?;
        Ok(Some(Term::List(Items::from_vec(values))))
    }
}

/// The result of a match specification is that of its first clause that applies.
impl Projection for Spec {
    ghost use Rattle.table_ops.specs.Queries.{spec_result};

    ghost projects = { spec_result };

    #[inline(always)]
    fn rejects(&self, object: &Object) -> bool {
        self.rejects_packed(object)
    }

    fn project(&self, alloc: Global, object: &Term) -> Result<Option<Term>, AllocError> {
        self.result(alloc, object)
    }
}

/// The projection of `match_object`: the result is a copy of the object itself, if it matches the pattern.
#[derive(Clone, Copy)]
pub struct MatchedObject<'a> {
    pub pattern: &'a Pattern,
}

impl<'a> Projection for MatchedObject<'a> {
    ghost use Rattle.table_ops.specs.Results.{matched_object};

    ghost projects = { λ m. matched_object m.pattern.now };

    #[inline(always)]
    fn rejects(&self, _object: &Object) -> bool {
        false
    }

    fn project(&self, alloc: Global, object: &Term) -> Result<Option<Term>, AllocError> {
        if !self.pattern.fits(object) {
            return Ok(None);
        }
        Ok(Some(object.try_clone(alloc)?))
    }
}
