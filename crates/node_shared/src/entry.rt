//! An entry: a step of a node with its reply. Journals, records of clients and histories of servers are lists of
//! entries.
ghost use Rattle.std.specs.Prelude.{◌≡◌};
ghost use Rattle.std.specs.Bool.{Decides};
ghost use Rattle.node_shared.specs.Journal.{is_entry_of, process_of};

use node_core::{Reply, Step};

/// An entry of a journal: a step that was run, and its reply. In a draft the step is not run yet.
#[derive(Drop)]
pub struct Entry {
    pub step: Step,
    /// The reply to the step; in a draft, a placeholder.
    pub reply: Reply,
}

impl Entry {
    /// Returns whether the entries are equal: equal steps and equal replies.
    pub fn equals(&self, other: &Entry) -> bool
        ensures { Decides result (self.now ≡ other.now) }
    {
        self.step.equals(&other.step) && self.reply.equals(&other.reply)
    }

    /// Returns whether the entry's step is a step of this process.
    pub fn is_of(&self, pid: u32) -> bool
        ensures { result ≡ is_entry_of pid self.now }
    {
        self.step.is_of(pid)
    }

    /// Returns the process of the entry's step, or `None` for a growth step, which is a step of no process.
    pub fn process(&self) -> Option<u32>
        ensures { result ≡ process_of self.now.step }
    {
        match self.step {
            Step::Enrol(pid) | Step::End(pid) | Step::Ask(pid, _) => Some(pid),
            Step::Grow(_) | Step::Ready(_, _) => None,
        }
    }
}
