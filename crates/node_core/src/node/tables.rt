//! The calls `new` and `delete/1`. Before `new` adds a table, it reserves capacity for it in the queue of tables that
//! may have a pending growth step.
ghost use Rattle.std.specs.Prelude.{◌≡◌, ◌≤◌, IfOk};
ghost use Rattle.ownership.specs.Outcomes as outcomes;
ghost use Rattle.ownership.specs.Tables as tables;
ghost use Rattle.node_core.specs.rules.Tables.{New, DeleteTable, makes, new_table_of};
ghost use Rattle.node_core.specs.inside.Due.{TracksPending};
ghost use Rattle.node_core.specs.inside.Refusals.{RefinesReply};

use super::Node;
use super::access::Access;
use super::replies::{refusal_of, true_reply};
use crate::pending_tables::PendingTables;
use crate::step::Reply;
use bucket_table::SplitRows;
use ets_term::{Atom, KeyHash, Term};
use fixed_walk::Walked;
use ownership::{NewOptions, World, WorldFault};
use std::alloc::AllocError;
use table_ops::{Refusal, Table};

impl<H: KeyHash + Copy + Drop> Node<H> {
    /// Creates a table with the options that a term lists. The reply is the name of a named table, else the identifier.
    pub(crate) fn new_call(
        &mut self,
        pid: u32,
        name: &Term,
        options: &Term,
    ) -> Result<Reply, Refusal>
        ensures { RefinesReply (New self.old pid name.now options.now) self.old result self.new }
    {
        let Term::Atom(name) = name else {
            return Err(Refusal::Badarg);
        };
        match NewOptions::read(self.alloc, options) {
            Ok(options) => self.new_table(pid, name, options),
            Err(fault) => refusal_of(fault),
        }
    }

    /// Creates an empty table with parsed options. It may have a pending step from now on.
    fn new_table(&mut self, pid: u32, name: &Atom, options: NewOptions) -> Result<Reply, Refusal>
        requires { 1 ≤ options.keypos }
        ensures { RefinesReply (makes self.old pid name.now options) self.old result self.new }
    {
        let table = match self.empty_table(&options) {
            Ok(table) => table,
            Err(_) => {
                drop(options);
                return Err(Refusal::Memory);
            }
        };
        match add_table(
            &mut self.world,
            &mut self.pending,
            pid,
            name,
            options,
            table,
        ) {
            Ok(answer) => Ok(Reply::Value(answer)),
            Err(fault) => refusal_of(fault),
        }
    }

    /// Creates a table with these options, without objects.
    fn empty_table(&self, options: &NewOptions) -> Result<Walked<SplitRows<H>>, AllocError>
        requires { 1 ≤ options.now.keypos }
        ensures { IfOk result (λ table.
            table ≡ new_table_of self.now.limits.objects options.now) }
    {
        let rows = SplitRows::new(self.alloc, self.hasher)?;
        let table = Table::new(
            self.alloc,
            rows,
            options.kind(),
            options.keypos(),
            self.limits.objects,
        );
        Ok(Walked::new(self.alloc, table))
    }

    /// Deletes the table that a term names, with its objects.
    pub(crate) fn delete_table(&mut self, pid: u32, table: &Term) -> Result<Reply, Refusal>
        ensures { RefinesReply (DeleteTable self.old pid table.now) self.old result self.new }
    {
        let id = self
            .usable_id(Access::Write, pid, table)
            .ok_or(Refusal::Badarg)?;
        self.world.drop_table(id);
        Ok(true_reply(self.alloc))
    }
}

/// Adds the table to the world and to the queue of pending tables, and returns its name or identifier. The queue gets
/// capacity for the table first, so that no later step needs memory for that.
fn add_table<H: KeyHash + Copy + Drop>(
    world: &mut World<SplitRows<H>>,
    pending: &mut PendingTables,
    pid: u32,
    name: &Atom,
    options: NewOptions,
    table: Walked<SplitRows<H>>,
) -> Result<Term, WorldFault>
    requires { TracksPending world.old.tables pending.old }
    ensures outcome { outcomes.RefinesWorld (tables.New world.old pid name.now options table)
        world.old result world.new }
    ensures pending { TracksPending world.new.tables pending.new }
{
    let id = world.made();
    if pending.reserve(id as usize + 1).is_err() {
        drop(options);
        drop(table);
        return Err(WorldFault::Memory);
    }
    let answer = world.new_table(pid, name, options, table)?;
    pending.insert(id);
    Ok(answer)
}
