//! Processes and the tables that they own: names, access, heirs, and the exit of a process.
//!
//! *Guarantee.* A contract sees the processes ever enrolled, each with its mailbox, and the tables ever made, each with
//! its metadata and objects. When a process ends, its fixes are released. Each of its tables, in order of creation,
//! passes to its heir, which gets the transfer message, or is deleted if no heir lives. No two named tables have the
//! same name. A call that is refused or runs out of memory changes nothing.
//!
//! *Weakness.* The exit of a process visits the fixed tables, those that it ever owned, and those that it was about to
//! get when memory ran out. To insert an identifier in a sorted list shifts the larger identifiers. A deleted table
//! leaves `None`, of 16 bytes, in the array of tables.
//!
//! *Mechanism.* Tables are in boxes, which are in an array by identifier. `Indices` has an index by name, an index by
//! owner, and a list of the tables that may be fixed. A table that is borrowed for a change becomes the *dirty* table.
//! When another table is borrowed, the previous dirty table is added to the list if it is fixed. The borrower cannot
//! change metadata, and the other two indices depend only on metadata. When a process ends, its transfer messages are
//! posted one by one, and all are removed again if memory is refused.
//!
//! *Limits.* `World::new` sets the greatest numbers of processes and tables ever made. Identifiers are never used
//! again.
#![tactic(auto)]

// The modules: the `world`, a `process`, a `table` with its `metadata`, the `options` of `new` and `setopts`, the items
// of `info`, `messages`, the `indices` over the tables, and faults (`fault`).
mod fault;
mod indices;
mod info;
mod messages;
mod metadata;
mod options;
mod process;
mod table;
mod world;

pub use fault::WorldFault;
pub use info::InfoItem;
pub use metadata::{Heir, Metadata, Protection};
pub use options::NewOptions;
pub use process::Process;
pub use world::World;
