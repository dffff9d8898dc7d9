//! The index by owner: for each process, the tables that it owned, or was about to inherit. After out of memory, it may
//! also have a table that the process was about to be given or to create. The exit of the process visits these tables,
//! and removes the entry.
ghost use Rattle.std.specs.Prelude.{◌≡◌, OnOk, IfOk};
ghost use Rattle.ownership.specs.inside.Indices.{IsAmong, AddsUnderOwners, RemovesOwner, HeirsAreIndexed, HeirIsIndexed, ids_under};

use super::Indices;
use super::identifiers::insert_in_order;
use crate::process::Process;
use crate::table::OwnedTable;
use crate::world::end::living_heir;
use bucket_table::Rows;
use indexmap::IndexMap;
use std::alloc::{AllocError, Global};

impl Indices {
    /// Adds a table under an owner. Identifiers that were added before stay, also if memory is refused.
    pub fn index_owner(&mut self, alloc: Global, owner: u32, id: u32) -> Result<(), AllocError>
        ensures owners { AddsUnderOwners self.old self.new }
        ensures ok { OnOk result (IsAmong id (ids_under self.new owner)) }
    {
        if let Some(ids) = self.owned.get_mut(&owner) {
            return insert_in_order(ids, id);
        }
        let mut ids = Vec::new(alloc);
        ids.push(id)?;
        self.owned.insert(owner, ids)?;
        Ok(())
    }

    /// Returns a copy of the identifiers under an owner, in ascending order.
    pub fn tables_of(&self, alloc: Global, owner: u32) -> Result<Vec<u32>, AllocError>
        ensures { IfOk result (λ ids. ids.items ≡ ids_under self.now owner) }
    {
        let mut ids = Vec::new(alloc);
        if let Some(stored_ids) = self.owned.get(&owner) {
            ids.extend_from_slice(stored_ids.as_slice())?;
        }
        Ok(ids)
    }

    /// Removes an owner from the index. This takes no memory.
    pub(super) fn remove_owner(&mut self, owner: u32)
        ensures { RemovesOwner owner self.old self.new }
    {
        let _ = self.owned.swap_remove(&owner);
    }

    /// Adds each of these tables under its living heir, if any, while refused memory can still leave all tables
    /// unchanged.
    pub fn index_heirs<R: Rows>(
        &mut self,
        alloc: Global,
        processes: &IndexMap<u32, Process>,
        tables: &[Option<OwnedTable<R>>],
        ids: &[u32],
    ) -> Result<(), AllocError>
        ensures owners { AddsUnderOwners self.old self.new }
        ensures ok { OnOk result (HeirsAreIndexed self.new processes.now.entries tables.now ids.now) }
    {
        for id in ids {
            self.index_heir(alloc, processes, tables, *id)?;
        }
        Ok(())
    }

    /// Adds one table under its heir if the heir lives.
    fn index_heir<R: Rows>(
        &mut self,
        alloc: Global,
        processes: &IndexMap<u32, Process>,
        tables: &[Option<OwnedTable<R>>],
        id: u32,
    ) -> Result<(), AllocError>
        ensures owners { AddsUnderOwners self.old self.new }
        ensures ok { OnOk result (HeirIsIndexed self.new processes.now.entries tables.now id) }
    {
        let Some(Some(table)) = tables.get(id as usize) else {
            return Ok(());
        };
        let Some(heir) = living_heir(processes, table.metadata()) else {
            return Ok(());
        };
        self.index_owner(alloc, heir.pid, id)
    }
}
