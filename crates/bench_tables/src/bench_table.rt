//! What is timed: one call on one key. The calls go to a whole table, or to its rows alone.
use ets_term::{Integer, Items, Term};
use packed_term::Object;
use std::alloc::{AllocError, Global};

/// The number of objects per bucket above which the buckets double.
const MAX_OBJECTS_PER_BUCKET: usize = 4;

/// A table to time, with objects `{K,V}` under their keys K. A boolean says whether the call did what it should.
pub trait BenchTable: Drop {
    /// Builds a table without objects.
    fn empty(alloc: Global) -> Result<Self, AllocError>;

    /// Returns the name of this kind of table in a report.
    fn name() -> &'static str;

    /// Inserts `{K,1}` under a new key, and then runs at most two pending growth steps.
    fn insert(&mut self, alloc: Global, k: u64) -> Result<bool, AllocError>;

    /// Looks up the object of a key that is in the table. Returns whether its value is at least 1.
    fn has_object(&mut self, k: u64) -> bool;

    /// Searches for a key that is not in the table. Returns whether it is missing.
    fn lacks_key(&mut self, k: u64) -> bool;

    /// Adds one to the value of the key's object, in place.
    fn count_up(&mut self, alloc: Global, k: u64) -> Result<bool, AllocError>;

    /// Deletes the object of a key that is in the table.
    fn delete(&mut self, k: u64) -> bool;

    /// Doubles the buckets.
    fn double(&mut self) -> Result<(), AllocError>;
}

/// Returns the key that is this integer.
pub(crate) fn key_of(k: u64) -> Term {
    Term::Int(Integer::from(k))
}

/// Builds the object `{K,1}`.
pub(crate) fn build_object(alloc: Global, k: u64) -> Result<Term, AllocError> {
    let elements = vec![in alloc; key_of(k), Term::Int(1)]?;
    Ok(Term::Tuple(Items::from_vec(elements)))
}

/// Returns whether a table with this number of slots must double its buckets.
pub(crate) fn is_full(slots: usize, buckets: u32) -> bool {
    slots / MAX_OBJECTS_PER_BUCKET > buckets as usize
}

/// Reads the objects of a key. Returns whether there is exactly one object, with a value of at least 1.
pub(crate) fn has_value(objects: &[Object]) -> bool {
    match objects {
        [object] => matches!(value_of(object), Some(1..)),
        _ => false,
    }
}

/// Returns the value of an object, its second element, if it is an integer.
pub(crate) fn value_of(object: &Object) -> Option<Integer> {
    object.element(2)?.as_integer()
}
