//! The mailbox of a process, the messages that it has not yet received: how they are read, and how they are received.
ghost use Rattle.std.specs.Prelude.{◌≡◌};
ghost use Rattle.ownership.specs.Messages.{mailbox_of, after_receive};

use super::World;
use crate::process::{Process, process_in};
use bucket_table::Rows;
use ets_term::{Items, Term};
use indexmap::IndexMap;
use std::alloc::Global;
use std::mem;

impl<R: Rows> World<R> {
    /// Returns the messages that the process has not yet received, oldest first. There are none if the process does not
    /// exist.
    pub fn mailbox(&self, pid: u32) -> &[Term]
        ensures { result.now ≡ mailbox_of self.now.processes pid }
    {
        match process_in(&self.processes, pid) {
            Some(process) => process.mailbox.as_slice(),
            None => &[],
        }
    }

    /// Empties the mailbox of the process and returns its messages, oldest first. There are none if the process does
    /// not exist. This takes no memory.
    pub fn receive(&mut self, pid: u32) -> Items<Term>
        ensures answer { result ≡ mailbox_of self.old.processes pid }
        ensures after { self.new ≡ record self.old { processes = after_receive self.old.processes pid } }
    {
        take_messages(self.alloc, &mut self.processes, pid)
    }
}

/// Empties the mailbox of a process and returns its messages, oldest first.
fn take_messages(alloc: Global, processes: &mut IndexMap<u32, Process>, pid: u32) -> Items<Term>
    ensures answer { result ≡ mailbox_of processes.old.entries pid }
    ensures after { processes.new.entries ≡ after_receive processes.old.entries pid }
{
    let Some(process) = processes.get_mut(&pid) else {
        return Items::new(alloc);
    };
    mem::replace(&mut process.mailbox, Items::new(alloc))
}
