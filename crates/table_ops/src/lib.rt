//! One table: the contract of each call states its exact effect on the objects. A refused call changes nothing.
//!
//! *Guarantee.* A contract sees a table as its content and the readiness of its buckets. The content is the kind,
//! keypos, the greatest number of objects, and the slots. The calls have the same effect over each type of rows.
//! - Of a list of objects, all are inserted or none.
//! - An update of counters or elements changes one object in place: all of its operations are done, or none.
//! - A search gives the result of each object, in the order of the slots. A deletion by a search removes exactly the
//!   objects that it chooses.
//! - A search tests each object once and counts it. If the search binds the key, it tests only the objects of
//!   this key.
//! - If a call breaks several rules, the refusal is the first of `Badarg`, `SystemLimit` and `Memory`. But a call may
//!   run out of memory before it reaches a limit.
//!
//! *Weakness.* The objects of one key are in one chain. A bag compares a new object with each of them, and the deletion
//! of one object visits all. `insert_new` searches twice for each key of a list, but once for a single object. A search
//! without a bound key tests all objects.
//!
//! *Mechanism.* An update or the insertion of one object searches once and changes the slot that the search found. A
//! list is inserted one object at a time. An undo log rolls it back, without memory, if an object is refused. A scan
//! over all objects visits the places in ascending order. It unpacks each object before the test, unless the query
//! rejects the packed object. A deletion by a search first makes a plan: the places of the slots that lose objects,
//! with copies of the objects that stay. It then changes these slots, from the last to the first.
//!
//! *Limits.* A table has at most 4,294,967,295 objects, each of a depth of at most 128. A slot that loses its last
//! object stays as a tombstone (a *held* slot) if the caller passes `hold` as true. An update that runs out of memory
//! changes nothing, but a search has then counted the objects that it tested.
#![tactic(auto)]

// The modules: a `table` and its rows (`table_rows`), the `kind` of a table, an `object` and its key, an iterator over
// `slots`, the `undo` log of an insertion, and refusals (`refusal`). The modules of queries: `predicate`, `projection`,
// the wrapper `trial`, the counter `looks`, and the deletion of results (`delete_plan`, `partition`).
mod delete_plan;
mod kind;
mod looks;
mod object;
mod partition;
mod predicate;
mod projection;
mod refusal;
mod slots;
mod table;
mod table_rows;
mod trial;
mod undo;

pub use kind::Kind;
pub use looks::Looks;
pub use object::key_of;
pub use refusal::Refusal;
pub use table::Table;
#[doc(hidden)]
pub use table_rows::TableRows;
