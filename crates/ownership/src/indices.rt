//! Indices over the tables: by name, by owner, and the list of fixed tables.
ghost use Rattle.std.specs.Prelude.{◌+◌, ◌<◌, ◌^◌, ◌++◌, ◌∷◌, [], Some, OnOk, OnErr, length};
ghost use Rattle.ownership.specs.inside.Names.{IsNameFree};
ghost use Rattle.ownership.specs.inside.Indices.{IndicesInvariant};

// The modules: the list of `fixed` tables, sorted `identifiers`, the index of `names`, the index of `owners`, and how
// to `reassign` the tables of a process that ends.
mod fixed;
mod identifiers;
mod names;
mod owners;
mod reassign;

use crate::table::OwnedTable;
use bucket_table::Rows;
use indexmap::IndexMap;
use std::alloc::{AllocError, Global};

/// Indices of identifiers of tables: `names` by name, `owned` by process, and `fixed` with those that may be fixed.
/// Under a process, `owned` has the tables that the process owned, or was about to inherit. After out of memory, it may
/// also have a table that the process was about to be given or to create. The *dirty* table is the table that was
/// borrowed for a change, or created, last. It may be fixed without being in `fixed`. Each method keeps the indices
/// consistent with the tables.
#[derive(Drop)]
pub struct Indices {
    names: IndexMap<String, u32>,
    owned: IndexMap<u32, Vec<u32>>,
    fixed: Vec<u32>,
    dirty: Option<u32>,
}

impl Indices {
    /// Returns indices without tables. This takes no memory.
    pub fn new(alloc: Global) -> Self
        ensures { IndicesInvariant result [] }
    {
        Indices {
            names: IndexMap::new(alloc),
            owned: IndexMap::new(alloc),
            fixed: Vec::new(alloc),
            dirty: None,
        }
    }

    /// Adds a table, whose identifier is the next one, under its owner and its name, and reserves capacity for it in
    /// the list of fixed tables. If the table is named, no other table may have its name. It becomes the dirty table.
    /// If memory is refused, the indices stay consistent with the tables without the new one.
    pub fn insert<R: Rows>(
        &mut self,
        alloc: Global,
        tables: &[Option<OwnedTable<R>>],
        table: &OwnedTable<R>,
    ) -> Result<(), AllocError>
        requires indices { IndicesInvariant self.old tables.now }
        requires few { length tables.now + 1 < 2 ^ 32 }
        requires free { IsNameFree tables.now table.now.metadata }
        ensures ok { OnOk result (IndicesInvariant self.new (tables.now ++ Some table.now ∷ [])) }
        ensures err { OnErr result (IndicesInvariant self.new tables.now) }
    {
        let id = tables.len() as u32;
        self.mark_dirty(tables, id);
        self.reserve(tables.len() + 1)?;
        self.index_owner(alloc, table.metadata().owner, id)?;
        self.index_name(alloc, table.metadata(), id)?;
        Ok(())
    }
}
