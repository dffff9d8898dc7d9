//! Tests of a `Shared` and of a `Server`: nodes that threads share.
// A `Shared` has clients, a journal of all steps, and a ledger, which counts the entries of each client. A `Blank` is
// an unused ledger, and `L` is its name in types. A ledger has a part for each process and one more: for two processes
// a test passes `Blank::new(3)`. A `Server` has callers, and no journal; in types, `B` names its history and limits. A
// test passes `Brand` for `L` or `B`. To join a client or a caller means to enrol its process in the node. `rt` is the
// runtime: its type has `Wait` to wait for locks, and `Threads` to start threads. A helper returns `None` if memory ran
// out or an enrolment was refused; other reasons are in its comment.
ghost use Rattle.std.specs.Prelude.{◌≡◌, ◌<◌};

use ets_term::{Fnv, KeyHash};
use node_core::Limits;
use node_shared::{
    Caller, Client, Drawn, HistoryId, Job, Pids, Server, Shared, Transcript, Worked, close,
};
use std::alloc::Global;
use std::sync::Wait;
use std::sync::ledger::Ledger;

mod calls; // helpers that build and make calls
mod drawing; // two threads draw process numbers
mod ending; // calls after the end of their process
mod enduring; // many calls of eight clients
mod entering; // steps and their entries in the journal
mod joining; // which processes are enrolled
mod keeper; // helper: a thread that runs pending growth steps
mod keeping; // `keep`, which runs pending growth steps
mod meeting; // two clients run at the same time
mod numbering; // the numbers that a `Gate` gets
mod reading; // reads of a server
mod serving; // calls of a server
mod stressing; // many calls of a server
mod telling; // callers that tell each other something

/// Returns the usual limits, but with this number of processes.
fn limits(processes: u32) -> Limits
    ensures { result.processes ≡ processes }
{
    Limits {
        processes,
        ..Limits::usual()
    }
}

/// Draws the process numbers below `count`, by a seat for each: the right to draw one number.
fn draw(alloc: Global, count: usize) -> Option<Vec<Drawn>>
    requires { 0 < count }
{
    let (pids, seats) = Pids::open(alloc, count).ok()?;
    let mut numbers = Vec::with_capacity(alloc, count).ok()?;
    for seat in seats {
        numbers.push(pids.draw(seat)).ok()?;
    }
    Some(numbers)
}

/// Enrols the processes below `count` in the node, and returns the client of each.
fn join_clients<L: Ledger, H: KeyHash + Copy + Drop, R: Wait>(
    rt: &R,
    alloc: Global,
    shared: &Shared<L, H>,
    count: usize,
) -> Option<Vec<Client<L>>>
    requires { 0 < count }
{
    let mut clients = Vec::with_capacity(alloc, count).ok()?;
    for number in draw(alloc, count)? {
        clients.push(shared.client(rt, number).ok()?).ok()?;
    }
    Some(clients)
}

/// Enrols the processes below `count` in the node, and returns the caller of each.
fn join_callers<B: HistoryId, R: Wait>(
    rt: &R,
    alloc: Global,
    server: &Server<B, Fnv>,
    count: usize,
) -> Option<Vec<Caller<B>>>
    requires { 0 < count }
{
    let mut callers = Vec::with_capacity(alloc, count).ok()?;
    for number in draw(alloc, count)? {
        callers.push(server.client(rt, number).ok()?).ok()?;
    }
    Some(callers)
}

/// What each client of a test does.
trait Plan {
    /// Returns the jobs of the client of this process.
    fn jobs(&self, alloc: Global, pid: u32) -> Option<Vec<Job>>;
}

/// Enrols the processes below `count`, and returns the client of each with its jobs.
fn join_with_jobs<L: Ledger, H: KeyHash + Copy + Drop, P: Plan, R: Wait>(
    rt: &R,
    alloc: Global,
    shared: &Shared<L, H>,
    count: usize,
    plan: &P,
) -> Option<Vec<(Client<L>, Vec<Job>)>>
    requires { 0 < count }
{
    let mut work = Vec::with_capacity(alloc, count).ok()?;
    for client in join_clients(rt, alloc, shared, count)? {
        let jobs = plan.jobs(alloc, client.pid())?;
        work.push((client, jobs)).ok()?;
    }
    Some(work)
}

/// Returns the clients of finished workers, or `None` if one of them has jobs left: it ran out of memory.
fn clients_of_workers<L: Ledger>(alloc: Global, workers: Vec<Worked<L>>) -> Option<Vec<Client<L>>> {
    let mut clients = Vec::with_capacity(alloc, workers.len()).ok()?;
    for worker in workers {
        clients.push(client_of_worker(worker)?).ok()?;
    }
    Some(clients)
}

/// Returns the client of a finished worker, or `None` if it has jobs left.
fn client_of_worker<L: Ledger>(worker: Worked<L>) -> Option<Client<L>> {
    if worker.left > 0 {
        return None;
    }
    Some(worker.client)
}

/// Closes a `Shared` with the clients of a run. Returns the transcript, which has the journal, or `None` if the journal
/// and the records of the clients differ. `clients` is `None` if the run failed; then drops the `Shared` and returns
/// `None`.
fn close_all<L: Ledger, H: KeyHash + Copy + Drop>(
    shared: Shared<L, H>,
    clients: Option<Vec<Client<L>>>,
) -> Option<Transcript> {
    match clients {
        Some(clients) => close(shared, clients).ok(),
        None => None,
    }
}

/// Closes a `Shared` with the clients of a run, as `close_all` does. Returns how many entries of this process the
/// transcript has.
fn count_entries<L: Ledger, H: KeyHash + Copy + Drop>(
    shared: Shared<L, H>,
    clients: Option<Vec<Client<L>>>,
    pid: u32,
) -> Option<usize> {
    let transcript = close_all(shared, clients)?;
    Some(transcript.of(pid).ok()?.len())
}
