//! A helper that runs the jobs of clients while another thread, the keeper, runs pending growth steps.
ghost use Rattle.std.specs.Thread.{IsSync};

use super::clients_of_workers;
use ets_term::KeyHash;
use node_shared::{Client, Gate, Job, Shared, Worked, keep, run_clients};
use std::alloc::{AllocError, Global};
use std::sync::Wait;
use std::sync::atomic::{AtomicBool, Ordering};
use std::sync::ledger::Ledger;
use std::thread;
use std::thread::Threads;

/// A gate that does nothing. `run_clients` calls it before and after each job of a client.
#[derive(Drop)]
struct OpenGate;

impl Gate for OpenGate {
    fn before(&self, _client: usize, _job: usize) {}

    fn after(&self, _client: usize, _job: usize) {}
}

/// A number of steps that is greater than the number of pending steps at any time.
const MANY_STEPS: u32 = 1_000_000;

/// Runs pending steps until `clients_are_done`, which says that the clients have done their jobs, and once more after
/// that. `R: Wait` allows a loop without a bound, such as `forever`.
fn keep_until<L: Ledger, H: KeyHash + Copy + Drop, R: Wait>(
    rt: &R,
    shared: &Shared<L, H>,
    clients_are_done: &AtomicBool,
) {
    for _ in rt.forever() {
        // Read before `keep` runs, so that `keep` runs once more after the jobs.
        let is_last = clients_are_done.load(Ordering::SeqCst);
        let _steps_run = keep(rt, shared, MANY_STEPS);
        if is_last {
            return;
        }
        thread::yield_now();
    }
}

/// Runs all jobs of the clients while another thread runs pending steps, also those that are pending at the end.
/// Returns the clients, or `None` if memory ran out.
pub(super) fn run_while_keeping<
    L: Ledger + Send + Sync,
    H: KeyHash + Copy + Drop + Send + Sync,
    R: Threads + Wait + Sync,
>(
    rt: &R,
    alloc: Global,
    shared: &Shared<L, H>,
    work: Vec<(Client<L>, Vec<Job>)>,
) -> Option<Vec<Client<L>>> {
    let clients_are_done = AtomicBool::new(false);
    let workers = run_side_by_side(rt, alloc, shared, work, &clients_are_done).ok()?;
    clients_of_workers(alloc, workers)
}

/// Runs the pending steps in one thread, and the jobs of the clients in others. Sets `clients_are_done` after the jobs.
/// Returns each client with the number of jobs it has left. The closures require that threads may share the runtime
/// (`IsSync`).
fn run_side_by_side<
    L: Ledger + Send + Sync,
    H: KeyHash + Copy + Drop + Send + Sync,
    R: Threads + Wait + Sync,
>(
    rt: &R,
    alloc: Global,
    shared: &Shared<L, H>,
    work: Vec<(Client<L>, Vec<Job>)>,
    clients_are_done: &AtomicBool,
) -> Result<Vec<Worked<L>>, AllocError> {
    let ((), workers) = thread::join(
        rt,
        move || -> ()
            requires { IsSync R.row }
        { keep_until(rt, shared, clients_are_done) },
        move || -> Result<Vec<Worked<L>>, AllocError>
            requires { IsSync R.row }
        {
            let workers = run_clients(rt, alloc, shared, work, &OpenGate);
            clients_are_done.store(true, Ordering::SeqCst);
            workers
        },
    );
    workers
}
