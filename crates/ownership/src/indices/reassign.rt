//! What the exit of a process does to tables: it releases fixes, and passes tables to heirs or deletes them. It visits
//! only the tables in the process's index entry and the fixed ones.
ghost use Rattle.std.specs.Prelude.{◌≡◌, ℕ, None, map, false, slice_set};
ghost use Rattle.ownership.specs.World.{Tables, lives, table_at};
ghost use Rattle.ownership.specs.End.{table_after_exit};
ghost use Rattle.ownership.specs.inside.Indices.{IndicesInvariant, CoversTablesOf, HeirsOfOwnerAreIndexed};

use super::Indices;
use crate::process::Process;
use crate::table::OwnedTable;
use crate::world::end::living_heir;
use bucket_table::Rows;
use indexmap::IndexMap;
use std::mem;

impl Indices {
    /// Releases the fixes of a process that ended. Passes each of its tables to its heir, or deletes it if no heir
    /// lives. `own` must contain all tables of the process. Each of them must be in the index under its heir, if the
    /// heir lives. Only the tables in `own` and the fixed tables are visited. This takes no memory.
    pub fn reassign_tables<R: Rows>(
        &mut self,
        tables: &mut Vec<Option<OwnedTable<R>>>,
        processes: &IndexMap<u32, Process>,
        own: &[u32],
        pid: u32,
    )
        requires indices { IndicesInvariant self.old tables.old.items }
        requires dead { lives processes.now.entries pid ≡ false }
        requires own { CoversTablesOf own.now pid tables.old.items }
        requires heirs { HeirsOfOwnerAreIndexed self.old processes.now.entries pid tables.old.items }
        ensures indices { IndicesInvariant self.new tables.new.items }
        ensures after { tables.new.items
            ≡ map (table_after_exit processes.now.entries pid) tables.old.items }
    {
        self.flush_dirty(tables.as_slice());
        for id in own {
            self.reassign_table(tables, processes, pid, *id);
        }
        // The number of tables in the list. A table that was visited above does not change here.
        let fixed = self.fixed.len();
        for i in 0..fixed {
            let id = self.fixed[i];
            self.reassign_table(tables, processes, pid, id);
        }
        self.retain_fixed_tables(tables.as_slice());
        self.remove_owner(pid);
    }

    /// Does what `reassign_tables` does, for one table. Does nothing if the table does not exist.
    fn reassign_table<R: Rows>(
        &mut self,
        tables: &mut Vec<Option<OwnedTable<R>>>,
        processes: &IndexMap<u32, Process>,
        pid: u32,
        id: u32,
    )
        requires indices { IndicesInvariant self.old tables.old.items }
        requires heirs { HeirsOfOwnerAreIndexed self.old processes.now.entries pid tables.old.items }
        ensures rest { self.new ≡ record self.old { names = self.new.names } }
        ensures indices { IndicesInvariant self.new tables.new.items }
        ensures after { tables.new.items
            ≡ slice_set tables.old.items id
            (table_after_exit processes.now.entries pid (table_at tables.old.items id)) }
    {
        let index = id as usize;
        if index >= tables.len() {
            return;
        }
        // The table leaves the array for a moment, because `table_after_exit` consumes it and returns it changed.
        let table = mem::replace(&mut tables[index], None);
        tables[index] = self.table_after_exit(processes, pid, table);
    }

    /// Returns a table as it is after the end of a process. The fixes of the process are released. If the process owned
    /// the table, the table passes to its heir. If no heir lives, the table is deleted with its name: the result is
    /// `None`. It is also `None` if there was no table.
    fn table_after_exit<R: Rows>(
        &mut self,
        processes: &IndexMap<u32, Process>,
        pid: u32,
        table: Option<OwnedTable<R>>,
    ) -> Option<OwnedTable<R>>
        ensures rest { self.new ≡ record self.old { names = self.new.names } }
        ensures after { result ≡ table_after_exit processes.now.entries pid table }
        ensures indices { (tables : Tables) (t : ℕ) → table_at tables t ≡ table
            → HeirsOfOwnerAreIndexed self.old processes.now.entries pid tables → IndicesInvariant self.old tables
            → IndicesInvariant self.new (slice_set tables t result) }
    {
        let mut table = table?;
        table.release_all(pid);
        if !table.metadata().is_owned_by(pid) {
            return Some(table);
        }
        let heir_pid = living_heir(processes, table.metadata()).map(|heir| heir.pid);
        if let Some(heir_pid) = heir_pid {
            table.set_owner(heir_pid);
            return Some(table);
        }
        self.remove(table.metadata());
        drop(table);
        None
    }
}
