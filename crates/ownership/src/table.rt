//! A table with its fixes and its metadata, in one box, as the array of all tables stores it.
ghost use Rattle.std.specs.Prelude.{◌≡◌, IfOk};
ghost use Rattle.std.specs.Borrow.{sem};
ghost use Rattle.ownership.specs.Tables.{with_owner, with_heir};
ghost use Rattle.ownership.specs.End.{without_fixes};

use crate::metadata::{Heir, Metadata};
use bucket_table::Rows;
use fixed_walk::Walked;
use std::alloc::{AllocError, Global};
use std::marker::Model;

/// A table with its metadata, in a box, so that the `None` that a deleted table leaves in the array is small.
#[derive(Drop)]
pub struct OwnedTable<R: Rows> {
    parts: Box<Parts<R>>,
}

/// What the box contains: the metadata, and the table with its fixes.
#[derive(Drop)]
struct Parts<R: Rows> {
    metadata: Metadata,
    table: Walked<R>,
}

// The value that contracts see of this type (`view`). Its field `state` is the table with its fixes, whether or not a
// process fixes it.
impl<R: Rows> Model for OwnedTable<R> {
    ghost use Rattle.ownership.specs.World.{Table};
    ghost use Rattle.ownership.specs.inside.Codes.{table_code};

    ghost Value = { Table };

    ghost coded = { table_code };

    ghost view = { λ t. record { metadata = t.parts.value.metadata; state = t.parts.value.table } };
}

impl<R: Rows> OwnedTable<R> {
    ghost use Rattle.ownership.specs.inside.Lending.{LendsFixed};

    /// Puts a table and its metadata into a box. If memory is refused, both are dropped.
    pub fn new(alloc: Global, metadata: Metadata, table: Walked<R>) -> Result<Self, AllocError>
        ensures { IfOk result (λ owned. owned ≡ record { metadata = metadata; state = table }) }
    {
        let parts = Box::new(alloc, Parts { metadata, table })?;
        Ok(OwnedTable { parts })
    }

    /// Returns the metadata.
    pub fn metadata(&self) -> &Metadata
        ensures { result.now ≡ self.now.metadata }
    {
        &self.parts.metadata
    }

    /// Returns the table without its metadata.
    pub fn table(&self) -> &Walked<R>
        ensures { result.now ≡ self.now.state }
    {
        &self.parts.table
    }

    /// Borrows the table without its metadata for a change.
    // `lends`: when the borrow ends, the table has what the borrower wrote, and its metadata is as before.
    pub fn table_mut(&mut self) -> &mut Walked<R>
        ensures* lends { sem 𝓛 (LendsFixed R.row R.Rows self.entry result) }
        ensures value { result.now ≡ self.old.state }
    {
        &mut self.parts.table
    }

    /// Sets the owner.
    pub fn set_owner(&mut self, owner: u32)
        ensures { self.new ≡ with_owner owner self.old }
    {
        self.parts.metadata.owner = owner;
    }

    /// Sets or removes the heir.
    pub fn set_heir(&mut self, heir: Option<Heir>)
        ensures { self.new ≡ with_heir heir self.old }
    {
        self.parts.metadata.heir = heir;
    }

    /// Releases all fixes of a process.
    pub fn release_all(&mut self, pid: u32)
        ensures { self.new ≡ without_fixes pid self.old }
    {
        self.parts.table.release_all(pid);
    }
}
