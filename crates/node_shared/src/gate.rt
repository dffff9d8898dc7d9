//! Callbacks that `run_clients` calls before and after each job of a client: they can observe jobs, or delay them.

/// Callbacks around each job of a client, in its thread, without a lock. Clients, and the jobs of each, are numbered
/// from 0.
pub trait Gate {
    /// Runs before a job. `client` is the index of the client, and `job` the index of the job among that client's jobs.
    fn before(&self, client: usize, job: usize);

    /// Runs after a job, unless the job ran out of memory. The reply is already in the client's record.
    fn after(&self, client: usize, job: usize);
}
