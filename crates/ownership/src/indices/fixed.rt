//! The list of fixed tables, by which the exit of a process finds its fixes. The dirty table, which was borrowed for a
//! change last, may be fixed without being in the list. It is checked when another table is borrowed or created, or a
//! process exits.
ghost use Rattle.std.specs.Prelude.{◌≡◌, ◌≤◌, ℕ, Some, None, OnOk, filter, vec_capacity};
ghost use Rattle.ownership.specs.inside.Indices.{IndicesInvariant, ids_under, is_fixed_at};

use super::Indices;
use super::identifiers::insert_in_order;
use crate::table::OwnedTable;
use bucket_table::Rows;
use std::alloc::AllocError;

impl Indices {
    /// Reserves capacity for `tables` identifiers in all in the list of fixed tables.
    pub(super) fn reserve(&mut self, tables: usize) -> Result<(), AllocError>
        ensures rest { self.new ≡ record self.old { fixed = self.new.fixed } }
        ensures items { self.new.fixed.items ≡ self.old.fixed.items }
        ensures capacity { vec_capacity self.old.fixed ≤ vec_capacity self.new.fixed }
        ensures ok { OnOk result (tables ≤ vec_capacity self.new.fixed) }
    {
        self.fixed.reserve(tables.saturating_sub(self.fixed.len()))
    }

    /// Marks a table as dirty. Adds the previous dirty table to the list if it is fixed.
    pub fn mark_dirty<R: Rows>(&mut self, tables: &[Option<OwnedTable<R>>], id: u32)
        requires indices { IndicesInvariant self.old tables.now }
        ensures indices { IndicesInvariant self.new tables.now }
        ensures dirty { self.new.dirty ≡ Some id }
    {
        if let Some(last) = self.dirty {
            if last == id {
                // Several changes of one table in a row leave the list as it is.
                return;
            }
        }
        self.flush_dirty(tables);
        self.dirty = Some(id);
    }

    /// Clears the dirty mark. Adds the dirty table to the list if it is fixed. This takes no memory.
    #[inline(never)]
    pub(super) fn flush_dirty<R: Rows>(&mut self, tables: &[Option<OwnedTable<R>>])
        requires indices { IndicesInvariant self.old tables.now }
        ensures indices { IndicesInvariant self.new tables.now }
        ensures dirty { self.new.dirty ≡ None }
        ensures owned { (p : ℕ) → ids_under self.new p ≡ ids_under self.old p }
    {
        let Some(last) = self.dirty else {
            return;
        };
        self.dirty = None;
        let Some(Some(owned)) = tables.get(last as usize) else {
            // The table was deleted, or never created: memory ran out, or no table ever had this identifier.
            return;
        };
        let table = owned.table();
        table.reveal_invariant();
        if table.is_fixed() {
            // This does not fail, because `insert` reserved capacity for each table.
            let _ = insert_in_order(&mut self.fixed, last);
        }
    }

    /// Removes the tables that no process fixes from the list.
    pub(super) fn retain_fixed_tables<R: Rows>(&mut self, tables: &[Option<OwnedTable<R>>])
        ensures rest { self.new ≡ record self.old { fixed = self.new.fixed } }
        ensures items { self.new.fixed.items
            ≡ filter (is_fixed_at tables.now) self.old.fixed.items }
        ensures capacity { vec_capacity self.new.fixed ≡ vec_capacity self.old.fixed }
    {
        self.fixed.retain(|id| is_fixed_at(tables, *id));
    }
}

/// Checks whether there is a table with this identifier, and some process fixes it.
fn is_fixed_at<R: Rows>(tables: &[Option<OwnedTable<R>>], id: u32) -> bool
    ensures { result ≡ is_fixed_at tables.now id }
{
    match tables.get(id as usize) {
        Some(Some(owned)) => owned.table().is_fixed(),
        _ => false,
    }
}
