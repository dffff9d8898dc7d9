//! The threads that run the jobs of clients, one thread for each client. The list of clients is halved until one client
//! is left, because `thread::join` runs two closures.
ghost use Rattle.std.specs.Prelude.{◌≡◌, IfOk, OnOk, OnErr};
ghost use Rattle.std.specs.Thread.{IsSync};
ghost use Rattle.node_shared.specs.Working.{HasWorked, AllWorked};
ghost use Rattle.node_shared.specs.inside.Steps.{DidJob};

use crate::client::Client;
use crate::gate::Gate;
use crate::job::{Job, Worked};
use crate::shared::Shared;
use ets_term::KeyHash;
use std::alloc::{AllocError, Global};
use std::sync::Wait;
use std::sync::ledger::Ledger;
use std::thread;
use std::thread::Threads;

/// Runs the jobs of each client in order, in a thread for each client. `work` has each client with its jobs. Returns
/// the clients in the order of `work`, each with the number of its jobs that were not run. A client stops at the first
/// job that runs out of memory. `Err` says that there was no memory for the threads or for the list; steps may have
/// been run. It may wait.
pub fn run_clients<
    L: Ledger + Send + Sync,
    H: KeyHash + Copy + Drop + Send + Sync,
    G: Gate + Sync,
    R: Threads + Wait + Sync,
>(
    rt: &R,
    alloc: Global,
    shared: &Shared<L, H>,
    work: Vec<(Client<L>, Vec<Job>)>,
    gate: &G,
) -> Result<Vec<Worked<L>>, AllocError>
    ensures { IfOk result (λ workers. AllWorked work.items workers.items) }
{
    run_from(rt, alloc, shared, 0, work, gate)
}

/// Runs the jobs as `run_clients` does, for clients numbered from `first` on: of one half of them in a new thread, of
/// the other here.
fn run_from<
    L: Ledger + Send + Sync,
    H: KeyHash + Copy + Drop + Send + Sync,
    G: Gate + Sync,
    R: Threads + Wait + Sync,
>(
    rt: &R,
    alloc: Global,
    shared: &Shared<L, H>,
    first: usize,
    mut work: Vec<(Client<L>, Vec<Job>)>,
    gate: &G,
) -> Result<Vec<Worked<L>>, AllocError>
    ensures { IfOk result (λ workers. AllWorked work.items workers.items) }
{
    if work.len() < 2 {
        let mut done = Vec::with_capacity(alloc, 1)?;
        if let Some((client, jobs)) = work.pop() {
            done.push_reserved(run_one(rt, shared, first, client, jobs, gate));
        }
        return Ok(done);
    }
    let half = work.len() / 2;
    let back = work.split_off(half)?;
    // The number of the first client in the back half.
    let next = first.wrapping_add(half);
    let (front_done, back_done) = thread::join(
        rt,
        // The front half.
        move || -> Result<Vec<Worked<L>>, AllocError>
            requires { IsSync R.row × IsSync G.row }
            ensures { IfOk result (λ workers. AllWorked work.items workers.items) }
        { run_from(rt, alloc, shared, first, work, gate) },
        // The back half.
        move || -> Result<Vec<Worked<L>>, AllocError>
            requires { IsSync R.row × IsSync G.row }
            ensures { IfOk result (λ workers. AllWorked back.items workers.items) }
        { run_from(rt, alloc, shared, next, back, gate) },
    );
    let mut done = front_done?;
    let mut others = back_done?;
    done.append(&mut others)?;
    Ok(done)
}

/// Runs the jobs of one client in order, until one is refused memory. Calls `gate.before` before each job, and
/// `gate.after` after each job that was run. `number` is the number that `gate` gets for the client. Returns the client
/// with the number of jobs that were not run.
fn run_one<L: Ledger, H: KeyHash + Copy + Drop, G: Gate, R: Wait>(
    rt: &R,
    shared: &Shared<L, H>,
    number: usize,
    mut client: Client<L>,
    jobs: Vec<Job>,
    gate: &G,
) -> Worked<L>
    ensures { HasWorked client jobs.items result }
{
    let count = jobs.len();
    // The number of jobs that were not run yet.
    let mut left = count;
    for job in jobs {
        let job_index = count - left;
        gate.before(number, job_index);
        let Ok(()) = run_job(rt, shared, &mut client, job) else {
            break;
        };
        left -= 1;
        gate.after(number, job_index);
    }
    Worked { client, left }
}

/// Runs one job as a step of the client's process, and adds it to the client's record. `Err` is out of memory, and
/// changes nothing in the client.
fn run_job<L: Ledger, H: KeyHash + Copy + Drop, R: Wait>(
    rt: &R,
    shared: &Shared<L, H>,
    client: &mut Client<L>,
    job: Job,
) -> Result<(), AllocError>
    ensures ok { OnOk result (DidJob client.old job client.new) }
    ensures err { OnErr result (client.new ≡ client.old) }
{
    let step = job.into_step(client.pid());
    client.step(rt, shared, step)
}
