//! `Trial`, the wrapper of a query, a pattern or match specification, by which scans test objects. Each test adds 1 to
//! `looks`, the counter of tested objects, up to the greatest `u64`.
ghost use Rattle.std.specs.Prelude.{◌≡◌};
ghost use Rattle.node_list.specs.Ticks.{tick};
ghost use Rattle.table_ops.specs.Results.{Returns, ReturnsData};

use crate::looks::Looks;
use crate::predicate::Predicate;
use crate::projection::Projection;
use ets_term::Term;
use packed_term::Object;
use std::alloc::{AllocError, Global};

/// A wrapper of a query, a pattern or a match specification. A scan gets the `Trial` as `trial` instead of the query.
/// So the scan can test an object only by `result_of` and `chooses`, each of which counts the object.
#[derive(Drop)]
pub struct Trial<'a, Q> {
    query: &'a Q,
}

impl<'a, Q> Trial<'a, Q> {
    /// Wraps a query.
    pub fn new(query: &'a Q) -> Trial<'a, Q>
        ensures { result.query.now ≡ query.now }
    {
        Trial { query }
    }
}

impl<'a, P: Projection> Trial<'a, P> {
    /// Returns the result of the query for an object, or `None` if it has no result, and counts the object. If the query
    /// does not reject the packed object, unpacks it into `scratch`, and reuses its memory. Fails if an allocation
    /// fails.
    #[inline(always)]
    pub fn result_of(
        &self,
        alloc: Global,
        object: &Object,
        scratch: &mut Term,
        looks: &mut Looks,
    ) -> Result<Option<Term>, AllocError>
        ensures data { ReturnsData result (P.projects self.now.query.now object.now) }
        ensures ticks { looks.new ≡ tick looks.old }
    {
        looks.tick();
        if self.query.rejects(object) {
            return Ok(None);
        }
        object.unpack_into(alloc, scratch)?;
        self.query.project(alloc, scratch)
    }
}

impl<'a, P: Predicate> Trial<'a, P> {
    /// Returns whether the query chooses an object, and counts the object. If the query does not reject the packed
    /// object, unpacks it into `scratch`, and reuses its memory. Fails if an allocation fails.
    #[inline(always)]
    pub fn chooses(
        &self,
        alloc: Global,
        object: &Object,
        scratch: &mut Term,
        looks: &mut Looks,
    ) -> Result<bool, AllocError>
        ensures chosen { Returns result (P.tests self.now.query.now object.now) }
        ensures ticks { looks.new ≡ tick looks.old }
    {
        looks.tick();
        if self.query.rejects(object) {
            return Ok(false);
        }
        object.unpack_into(alloc, scratch)?;
        self.query.test(alloc, scratch)
    }
}
