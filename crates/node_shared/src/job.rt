//! The jobs that `run_clients` runs for a client. Each job is one step of the client's process.
ghost use Rattle.std.specs.Prelude.{◌≡◌, true};
ghost use Rattle.node_core.specs.Woven.{is_step_of};
ghost use Rattle.node_shared.specs.Working.{job_step};

use crate::client::Client;
use node_core::{Call, Step};
use std::sync::ledger::Ledger;

/// A job of a client: one step that the client is to run.
#[derive(Drop)]
pub enum Job {
    /// Make this call.
    Ask(Call),
    /// End the client's process.
    End,
}

/// A client that ran all its jobs, or stopped at the first that ran out of memory.
#[derive(Drop)]
pub struct Worked<L: Ledger> {
    pub client: Client<L>,
    /// The number of the client's jobs that were not run; 0 unless memory ran out.
    pub left: usize,
}

impl Job {
    /// Returns the job as a step of the process `pid`.
    pub(crate) fn into_step(self, pid: u32) -> Step
        ensures step { result ≡ job_step pid self }
        ensures own { is_step_of pid result ≡ true }
    {
        match self {
            Job::Ask(call) => Step::Ask(pid, call),
            Job::End => Step::End(pid),
        }
    }
}
