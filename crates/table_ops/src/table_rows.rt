//! The rows of a table (all slots, each a key with its objects) with its settings. Its methods change slots; the count
//! of objects is in `Table`.
use crate::kind::Kind;
use bucket_table::Rows;
use std::alloc::Global;

// The modules, each with methods of `TableRows`: `collect` the results of a query, `count` the chosen objects, delete
// them (`delete_matching`), insert objects (`put`, `put_all`), remove the objects of a key (`take`), and `update` an
// object.
mod collect;
mod count;
mod delete_matching;
mod put;
mod put_all;
mod take;
mod update;

/// The rows of a table, with all settings of the table. `limit` is the greatest number of objects. Its methods change
/// only the slots. `Table` counts the objects.
#[derive(Drop)]
pub struct TableRows<R: Rows> {
    pub(crate) alloc: Global,
    pub(crate) kind: Kind,
    pub(crate) keypos: u32,
    pub(crate) limit: u32,
    pub(crate) rows: R,
}
