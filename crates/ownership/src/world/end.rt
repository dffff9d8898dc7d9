//! The exit of a process, which releases its fixes and passes its tables to their heirs or deletes them. Whatever takes
//! memory, as the transfer messages to heirs do, comes before the tables change.
ghost use Rattle.std.specs.Prelude.{◌≡◌, ◌==◌, Some, is_some, true, OnOk, OnErr, option_copied};
ghost use Rattle.std.specs.Map.{set_value};
ghost use Rattle.ownership.specs.World as model;
ghost use Rattle.ownership.specs.World.{process_at, lives};
ghost use Rattle.ownership.specs.End.{End, with_ended, after_exit, living_heir, receiver_of};
ghost use Rattle.ownership.specs.Outcomes.{RefinesWorld};
ghost use Rattle.ownership.specs.inside.Ending.{after_transfers, after_transfer_of};

use super::World;
use crate::fault::WorldFault;
use crate::messages::{pop_message, push_message, transfer_message};
use crate::metadata::{Heir, Metadata};
use crate::process::{Process, process_in};
use crate::table::OwnedTable;
use bucket_table::Rows;
use ets_term::Items;
use indexmap::IndexMap;
use std::alloc::{AllocError, Global};
use std::mem;

impl<R: Rows> World<R> {
    /// Ends a process (stdlib manual, module ets). Its messages are dropped and its fixes released. Each of its tables,
    /// in order of creation, passes to its heir, which gets the transfer message, or is deleted if no heir lives.
    /// Returns `NoProcess` if the process does not live. If memory runs out, the process lives on, and nothing changes.
    pub fn end(&mut self, pid: u32) -> Result<(), WorldFault>
        ensures { RefinesWorld (End self.old pid) self.old result self.new }
    {
        if !self.lives(pid) {
            return Err(WorldFault::NoProcess);
        }
        match self.end_living(pid) {
            Ok(()) => Ok(()),
            Err(_) => Err(WorldFault::Memory),
        }
    }

    /// Ends a process that lives. If memory is refused, processes and tables stay as they are. The index by owner may
    /// then keep tables under heirs that did not get them.
    fn end_living(&mut self, pid: u32) -> Result<(), AllocError>
        requires { lives self.old.processes pid ≡ true }
        ensures ok { OnOk result
            (self.new ≡ after_exit self.old (with_ended self.old.processes pid) pid) }
        ensures err { OnErr result (self.new ≡ self.old) }
    {
        let table_ids = self.indices.tables_of(self.alloc, pid)?;
        self.indices.index_heirs(
            self.alloc,
            &self.processes,
            self.tables.as_slice(),
            table_ids.as_slice(),
        )?;
        post_transfers(
            self.alloc,
            &mut self.processes,
            self.tables.as_slice(),
            table_ids.as_slice(),
            pid,
        )?;
        self.indices.reassign_tables(&mut self.tables, &self.processes, table_ids.as_slice(), pid);
        Ok(())
    }
}

/// Marks the process as ended and empties its mailbox. Then posts the transfer messages to the heirs of the tables in
/// `ids` that the process owns. If memory is refused, the process lives again, and nothing changes.
fn post_transfers<R: Rows>(
    alloc: Global,
    processes: &mut IndexMap<u32, Process>,
    tables: &[Option<OwnedTable<R>>],
    ids: &[u32],
    pid: u32,
) -> Result<(), AllocError>
    requires { is_some (process_at processes.old.entries pid) ≡ true }
    ensures ok { OnOk result
        (processes.new.entries ≡ after_transfers (with_ended processes.old.entries pid) pid tables.now ids.now) }
    ensures err { OnErr result (processes.new.entries ≡ processes.old.entries) }
{
    let ended_process = Process {
        lives: false,
        mailbox: Items::new(alloc),
    };
    // The process ends before the messages are posted, so that it gets none as its own heir.
    let process = replace_process(processes, pid, ended_process);
    if let Err(error) = post_all(alloc, processes, tables, ids, pid) {
        let _ = replace_process(processes, pid, process);
        return Err(error);
    }
    drop(process);
    Ok(())
}

/// Replaces the process with this number, which must exist, and returns the old process.
fn replace_process(processes: &mut IndexMap<u32, Process>, pid: u32, process: Process) -> Process
    requires { is_some (process_at processes.old.entries pid) ≡ true }
    ensures old { process_at processes.old.entries pid ≡ Some result }
    ensures new { processes.new.entries ≡ set_value (λ q. pid == q) processes.old.entries process }
{
    match processes.get_mut(&pid) {
        Some(stored) => mem::replace(stored, process),
        None => unreachable!(),
    }
}

/// Posts the transfer messages of these tables, in order. If memory is refused, removes those already posted.
fn post_all<R: Rows>(
    alloc: Global,
    processes: &mut IndexMap<u32, Process>,
    tables: &[Option<OwnedTable<R>>],
    ids: &[u32],
    pid: u32,
) -> Result<(), AllocError>
    ensures ok { OnOk result
        (processes.new.entries ≡ after_transfers processes.old.entries pid tables.now ids.now) }
    ensures err { OnErr result (processes.new.entries ≡ processes.old.entries) }
{
    for i in 0..ids.len() {
        if let Err(error) = post_transfer(alloc, processes, tables, pid, ids[i]) {
            unpost_all(processes, tables, &ids[..i], pid);
            return Err(error);
        }
    }
    Ok(())
}

/// Posts the transfer message of one table, if the process owns it and its heir lives.
fn post_transfer<R: Rows>(
    alloc: Global,
    processes: &mut IndexMap<u32, Process>,
    tables: &[Option<OwnedTable<R>>],
    pid: u32,
    id: u32,
) -> Result<(), AllocError>
    ensures ok { OnOk result
        (processes.new.entries ≡ after_transfer_of processes.old.entries pid tables.now id) }
    ensures err { OnErr result (processes.new.entries ≡ processes.old.entries) }
{
    let Some(Some(table)) = tables.get(id as usize) else {
        return Ok(());
    };
    let Some(heir) = receiver_of(processes, table, pid) else {
        return Ok(());
    };
    let message = transfer_message(alloc, table.metadata(), id, pid, &heir.gift)?;
    push_message(processes, heir.pid, message)
}

/// Removes the transfer messages of these tables again, the last first.
fn unpost_all<R: Rows>(
    processes: &mut IndexMap<u32, Process>,
    tables: &[Option<OwnedTable<R>>],
    ids: &[u32],
    pid: u32,
)
    ensures { (before : model.Processes)
        → processes.old.entries ≡ after_transfers before pid tables.now ids.now
        → processes.new.entries ≡ before }
{
    let len = ids.len();
    for i in 0..len {
        unpost_transfer(processes, tables, pid, ids[len - 1 - i]);
    }
}

/// Removes the transfer message of one table again, if `post_transfer` posted one. It must be the message that was
/// posted last.
fn unpost_transfer<R: Rows>(
    processes: &mut IndexMap<u32, Process>,
    tables: &[Option<OwnedTable<R>>],
    pid: u32,
    id: u32,
)
    ensures { (before : model.Processes)
        → processes.old.entries ≡ after_transfer_of before pid tables.now id
        → processes.new.entries ≡ before }
{
    let Some(Some(table)) = tables.get(id as usize) else {
        return;
    };
    let Some(heir) = receiver_of(processes, table, pid) else {
        return;
    };
    pop_message(processes, heir.pid);
}

/// Returns the heir that gets the table when the process ends: `None` if the process does not own it or no heir lives.
fn receiver_of<'a, R: Rows>(
    processes: &IndexMap<u32, Process>,
    table: &'a OwnedTable<R>,
    pid: u32,
) -> Option<&'a Heir>
    ensures { option_copied result ≡ receiver_of processes.now.entries pid table.now }
{
    if !table.metadata().is_owned_by(pid) {
        return None;
    }
    living_heir(processes, table.metadata())
}

/// Returns the heir of a table, or `None` if no heir is set or the heir does not live.
pub fn living_heir<'a>(
    processes: &IndexMap<u32, Process>,
    metadata: &'a Metadata,
) -> Option<&'a Heir>
    ensures { option_copied result ≡ living_heir processes.now.entries metadata.now }
{
    let Some(heir) = &metadata.heir else {
        return None;
    };
    match process_in(processes, heir.pid) {
        Some(process) if process.lives => Some(heir),
        _ => None,
    }
}
