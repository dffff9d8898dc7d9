//! The world: all processes and tables, without the calls of `ets`. A process is enrolled at its start, and stays in
//! the world after its exit.
ghost use Rattle.std.specs.Prelude.{◌≡◌};
ghost use Rattle.ownership.specs.World.{empty};

// The modules, each with methods of `World`: the right of `access` to a table, the `end` of a process, how to `enrol` a
// process, changes of owners and `heirs`, `info` on a table, the `mailbox` of a process, and `tables`.
mod access;
pub(crate) mod end;
mod enrol;
mod heirs;
mod info;
mod mailbox;
mod tables;

use crate::indices::Indices;
use crate::process::Process;
use crate::table::OwnedTable;
use bucket_table::Rows;
use indexmap::IndexMap;
use std::alloc::Global;
use std::marker::Model;

/// Processes and the tables that they own (stdlib manual, module ets). A contract sees the limits of their numbers, the
/// processes ever enrolled, and the tables ever made.
#[derive(Drop)]
pub struct World<R: Rows> {
    alloc: Global,
    max_processes: u32,
    max_tables: u32,
    processes: IndexMap<u32, Process>,
    // The tables by identifier. A deleted table leaves `None`, of 16 bytes.
    tables: Vec<Option<OwnedTable<R>>>,
    indices: Indices,
}

// The value that contracts see of this type (`view`), and what is true of its fields between calls (`invariant`).
impl<R: Rows> Model for World<R> {
    ghost use Rattle.ownership.specs.World.{World};
    ghost use Rattle.ownership.specs.inside.Codes.{world_code};
    ghost use Rattle.ownership.specs.inside.Indices.{IndicesInvariant};

    ghost Value = { World };

    ghost coded = { world_code };

    ghost view = { λ w. record {
      max_processes = w.max_processes;
      max_tables = w.max_tables;
      processes = w.processes.entries;
      tables = w.tables.items;
    } };

    ghost invariant = { λ w. IndicesInvariant w.indices w.tables.items };
}

impl<R: Rows> World<R> {
    /// Creates a world without processes and tables. At most `max_processes` processes can ever be enrolled, and at
    /// most `max_tables` tables can ever be made. This takes no memory.
    pub fn new(alloc: Global, max_processes: u32, max_tables: u32) -> Self
        ensures { result ≡ empty max_processes max_tables }
    {
        World {
            alloc,
            max_processes,
            max_tables,
            processes: IndexMap::new(alloc),
            tables: Vec::new(alloc),
            indices: Indices::new(alloc),
        }
    }
}
