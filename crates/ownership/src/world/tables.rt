//! The tables by identifier and by name: how they are created, found, borrowed for a change, and deleted. Identifiers
//! count from 0 in order of creation.
ghost use Rattle.std.specs.Prelude.{◌≡◌, ℕ, ◌+◌, ◌<◌, ◌^◌, ◌&&◌, true, false, Some, OnOk, OnErr, nat_le, length, is_some, option_copied, IfOk};
ghost use Rattle.std.specs.Option.{option_copied_mut};
ghost use Rattle.std.specs.Borrow.{sem};
ghost use Rattle.table_ops.specs.Invariants.{IsContent};
ghost use Rattle.ownership.specs.World.{Table, table_at, metadata_of, whereis, resolve};
ghost use Rattle.ownership.specs.Lookups.{state_at};
ghost use Rattle.ownership.specs.Messages.{name_or_identifier};
ghost use Rattle.ownership.specs.Tables.{New, new_metadata, with_table, without_table};
ghost use Rattle.ownership.specs.Outcomes.{RefinesWorld};
ghost use Rattle.ownership.specs.inside.Names.{IsNameFree};

use super::World;
use crate::fault::WorldFault;
use crate::messages::name_or_identifier;
use crate::metadata::Metadata;
use crate::options::NewOptions;
use crate::table::OwnedTable;
use bucket_table::Rows;
use ets_term::{Atom, Term};
use fixed_walk::Walked;
use std::alloc::{AllocError, Global};
use std::mem;

impl<R: Rows> World<R> {
    ghost use Rattle.ownership.specs.inside.Lending.{LendsTable};

    /// Returns the number of tables ever made, which is the identifier of the next table.
    pub fn made(&self) -> u32
        ensures { result ≡ length self.now.tables }
    {
        self.tables.len() as u32
    }

    /// Returns the metadata of the table with this identifier, or `None` if there is no such table.
    pub fn metadata(&self, id: u32) -> Option<&Metadata>
        ensures { option_copied result ≡ metadata_of (table_at self.now.tables id) }
    {
        match self.tables.get(id as usize) {
            Some(Some(table)) => Some(table.metadata()),
            _ => None,
        }
    }

    /// Returns the identifier of the named table with this name (stdlib manual, ets:whereis/1). Returns `None` if there
    /// is no such table.
    pub fn whereis(&self, name: &Atom) -> Option<u32>
        ensures { result ≡ whereis self.now.tables name.now }
    {
        self.indices.find(name)
    }

    /// Gives a proof the invariants: what holds of the content of each table, and that the name of each named table finds
    /// it, so that no two have the same name. It reads each table, and changes nothing.
    pub fn reveal_invariant(&self)
        ensures contents { (t : ℕ) (table : Table) → table_at self.now.tables t ≡ Some table → IsContent table.state.content }
        ensures names { (t : ℕ) (table : Table) → table_at self.now.tables t ≡ Some table → table.metadata.named ≡ true
            → whereis self.now.tables table.metadata.name ≡ Some t }
    {
        reveal_contents(self.tables.as_slice());
    }

    /// Returns the identifier of the table that a term names, by its identifier or, for a named table, by its name.
    /// Returns `None` if there is no such table.
    pub fn resolve(&self, term: &Term) -> Option<u32>
        ensures { result ≡ resolve self.now.tables term.now }
    {
        match term {
            Term::Tid(id) => match self.table(*id) {
                Some(_) => Some(*id),
                None => None,
            },
            Term::Atom(name) => self.whereis(name),
            _ => None,
        }
    }

    /// Returns the table with this identifier and its fixes, or `None` if there is no such table.
    pub fn table(&self, id: u32) -> Option<&Walked<R>>
        ensures { option_copied result ≡ state_at self.now.tables id }
    {
        match self.tables.get(id as usize) {
            Some(Some(owned)) => Some(owned.table()),
            _ => None,
        }
    }

    /// Borrows the table with this identifier for a change of its objects and fixes. Returns `None` if there is no such
    /// table.
    // `lends`: when the borrow ends, this table has what the borrower wrote, and the rest of the world is as before. If
    // the result is `None`, all of it is as before.
    pub fn table_mut(&mut self, id: u32) -> Option<&mut Walked<R>>
        ensures* lends { sem 𝓛 (LendsTable R.row R.Rows self.entry id result) }
        ensures value { option_copied_mut result ≡ state_at self.old.tables id }
    {
        self.indices.mark_dirty(self.tables.as_slice(), id);
        let found = self.tables.get_mut(id as usize)?;
        let owned = found.as_mut()?;
        Some(owned.table_mut())
    }

    /// Adds a table, owned by a process (stdlib manual, ets:new/2). Returns the name of a named table, else the
    /// identifier. Returns `Badarg` if it is to be named and another named table has the name, and `SystemLimit` if the
    /// greatest number of tables is reached. A refused table is dropped.
    pub fn new_table(
        &mut self,
        pid: u32,
        name: &Atom,
        options: NewOptions,
        table: Walked<R>,
    ) -> Result<Term, WorldFault>
        ensures { RefinesWorld (New self.old pid name.now options table) self.old result self.new }
    {
        if self.name_is_taken(&options, name) {
            drop(options);
            drop(table);
            return Err(WorldFault::Badarg);
        }
        if self.has_max_tables() {
            drop(options);
            drop(table);
            return Err(WorldFault::SystemLimit);
        }
        match self.create_table(pid, name, options, table) {
            Ok(answer) => Ok(answer),
            Err(_) => Err(WorldFault::Memory),
        }
    }

    /// Checks whether the new table is to be named and another named table has its name.
    fn name_is_taken(&self, options: &NewOptions, name: &Atom) -> bool
        ensures { result ≡ (options.now.named && is_some (whereis self.now.tables name.now)) }
    {
        options.named && self.whereis(name).is_some()
    }

    /// Checks whether the greatest number of tables is reached. Deleted tables are counted too.
    fn has_max_tables(&self) -> bool
        ensures full { result ≡ nat_le self.now.max_tables (length self.now.tables) }
        ensures few { result ≡ false → length self.now.tables + 1 < 2 ^ 32 }
    {
        self.made() >= self.max_tables
    }

    /// Adds a table as `new_table` does, after its checks.
    fn create_table(
        &mut self,
        pid: u32,
        name: &Atom,
        options: NewOptions,
        table: Walked<R>,
    ) -> Result<Term, AllocError>
        requires free { (options.named && is_some (whereis self.old.tables name.now)) ≡ false }
        requires few { length self.old.tables + 1 < 2 ^ 32 }
        ensures answer { IfOk result (λ answer.
            answer ≡ name_or_identifier options.named name.now (length self.old.tables)) }
        ensures ok { OnOk result
            (self.new ≡ with_table self.old (new_metadata pid name.now options) table) }
        ensures err { OnErr result (self.new ≡ self.old) }
    {
        let (answer, metadata) = match answer_and_metadata(
            self.alloc,
            pid,
            name,
            options,
            self.made(),
        ) {
            Ok(both) => both,
            Err(error) => {
                drop(table);
                return Err(error);
            }
        };
        if let Err(error) = self.push_table(metadata, table) {
            drop(answer);
            return Err(error);
        }
        Ok(answer)
    }

    /// Adds a table with the next identifier. If it is named, no other table may have its name.
    fn push_table(&mut self, metadata: Metadata, table: Walked<R>) -> Result<(), AllocError>
        requires free { IsNameFree self.old.tables metadata }
        requires few { length self.old.tables + 1 < 2 ^ 32 }
        ensures ok { OnOk result (self.new ≡ with_table self.old metadata table) }
        ensures err { OnErr result (self.new ≡ self.old) }
    {
        let owned = OwnedTable::new(self.alloc, metadata, table)?;
        if let Err(error) = self.tables.reserve(1) {
            drop(owned);
            return Err(error);
        }
        if let Err(error) = self
            .indices
            .insert(self.alloc, self.tables.as_slice(), &owned)
        {
            drop(owned);
            return Err(error);
        }
        self.tables.push_reserved(Some(owned));
        Ok(())
    }

    /// Deletes a table with its name and its fixes (stdlib manual, ets:delete/1). Does nothing if the table does not
    /// exist. The index by owner keeps the identifier until the owner exits. This takes no memory.
    pub fn drop_table(&mut self, id: u32)
        ensures { self.new ≡ without_table self.old id }
    {
        let index = id as usize;
        if index >= self.tables.len() {
            return;
        }
        let table = mem::replace(&mut self.tables[index], None);
        if let Some(table) = table {
            self.indices.remove(table.metadata());
            drop(table);
        }
    }
}

/// Returns the result of `new`, a name or an identifier, and the metadata of the new table.
fn answer_and_metadata(
    alloc: Global,
    pid: u32,
    name: &Atom,
    options: NewOptions,
    id: u32,
) -> Result<(Term, Metadata), AllocError>
    ensures answer { IfOk result (λ both. both.0 ≡ name_or_identifier options.named name.now id) }
    ensures metadata { IfOk result (λ both. both.1 ≡ new_metadata pid name.now options) }
{
    let NewOptions {
        named,
        protection,
        heir,
        ..
    } = options;
    let answer = match name_or_identifier(alloc, named, name, id) {
        Ok(answer) => answer,
        Err(error) => {
            drop(heir);
            return Err(error);
        }
    };
    let name = match name.try_clone(alloc) {
        Ok(name) => name,
        Err(error) => {
            drop(heir);
            drop(answer);
            return Err(error);
        }
    };
    let metadata = Metadata {
        name,
        named,
        owner: pid,
        heir,
        protection,
    };
    Ok((answer, metadata))
}

/// Gives a proof what holds of the content of each table.
fn reveal_contents<R: Rows>(tables: &[Option<OwnedTable<R>>])
    ensures { (t : ℕ) (table : Table) → table_at tables.now t ≡ Some table → IsContent table.state.content }
{
    for found in tables {
        if let Some(owned) = found {
            owned.table().reveal_invariant();
        }
    }
}
