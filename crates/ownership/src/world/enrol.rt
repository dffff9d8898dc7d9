//! How a process starts, here called enrolling, and whether it lives. A process number is enrolled at most once.
ghost use Rattle.std.specs.Prelude.{◌≡◌, None, OnOk, OnErr, nat_le, is_some, length};
ghost use Rattle.ownership.specs.World.{process_at, lives};
ghost use Rattle.ownership.specs.Outcomes.{RefinesWorld};
ghost use Rattle.ownership.specs.Tables.{Enrol, after_enrol};

use super::World;
use crate::fault::WorldFault;
use crate::process::{Process, process_in};
use bucket_table::Rows;
use ets_term::Items;
use std::alloc::AllocError;

impl<R: Rows> World<R> {
    /// Checks whether the process was enrolled and has not ended.
    pub fn lives(&self, pid: u32) -> bool
        ensures { result ≡ lives self.now.processes pid }
    {
        match process_in(&self.processes, pid) {
            Some(process) => process.lives,
            None => false,
        }
    }

    /// Returns the number of processes ever enrolled.
    pub fn process_count(&self) -> usize
        ensures { result ≡ length self.now.processes }
    {
        self.processes.len()
    }

    /// Starts a process with this number. Returns `Badarg` if a process with this number was ever enrolled, and
    /// `SystemLimit` if the greatest number of processes is reached.
    pub fn enrol(&mut self, pid: u32) -> Result<(), WorldFault>
        ensures { RefinesWorld (Enrol self.old pid) self.old result self.new }
    {
        if self.was_enrolled(pid) {
            return Err(WorldFault::Badarg);
        }
        if self.has_max_processes() {
            return Err(WorldFault::SystemLimit);
        }
        self.push_process(pid)?;
        Ok(())
    }

    /// Checks whether the process was ever enrolled. It may have ended since.
    fn was_enrolled(&self, pid: u32) -> bool
        ensures { result ≡ is_some (process_at self.now.processes pid) }
    {
        self.processes.contains_key(&pid)
    }

    /// Checks whether the greatest number of processes is reached. Ended processes are counted too.
    fn has_max_processes(&self) -> bool
        ensures { result ≡ nat_le self.now.max_processes (length self.now.processes) }
    {
        self.process_count() >= self.max_processes as usize
    }

    /// Adds a living process without messages. Its number must be new.
    #[tactic(auto, using(crate::proofs::Enrolments::enrolling))]
    fn push_process(&mut self, pid: u32) -> Result<(), AllocError>
        requires { process_at self.old.processes pid ≡ None }
        ensures ok { OnOk result (self.new ≡ after_enrol self.old pid) }
        ensures err { OnErr result (self.new ≡ self.old) }
    {
        let process = Process {
            lives: true,
            mailbox: Items::new(self.alloc),
        };
        self.processes.insert(pid, process)?;
        Ok(())
    }
}
