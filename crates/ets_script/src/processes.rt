//! The processes of a script in threads of their own, on one node.
ghost use Rattle.std.specs.Prelude.{◌≡◌, ◌+◌, map, IfOk, IfErr};
ghost use Rattle.std.specs.Thread.{IsSync};
ghost use Rattle.node_shared.specs.Working.{AllWorked};
ghost use Rattle.ets_script.specs.Threads.{RunsJobs};
ghost use Rattle.ets_script.specs.inside.Processes.{AreSeatsOf, AreEnrolled, HaveRun, IsNew, StopsBeforeOutput};

use crate::fault::ScriptFault;
use crate::node_settings::NodeSettings;
use crate::plan::ProcessJobs;
use ets_term::{Items, KeyHash};
use node_shared::{
    Client, CloseFault, Drawn, Gate, Job, Pids, Seat, Shared, SharedEntry, Worked, close, keep,
    run_clients,
};
use std::alloc::{AllocError, Global};
use std::marker::Brand;
use std::sync::Wait;
use std::sync::ledger::{Blank, Ledger};
use std::thread;
use std::thread::Threads;

/// The results of the processes: `entries` is the journal. `left` has, for each process, the number of jobs that it did
/// not run because memory ran out.
#[derive(Drop)]
pub struct RunResult {
    pub entries: Vec<SharedEntry>,
    pub left: Vec<usize>,
}

/// A gate that does nothing.
struct NoGate;

impl Gate for NoGate {
    fn before(&self, _client: usize, _call: usize) {}

    fn after(&self, _client: usize, _call: usize) {}
}

/// Runs the jobs of a script on a node with these settings. Each process runs in a thread of its own, and one more
/// thread runs pending growth steps.
pub fn run_jobs<T: Threads + Wait + Sync, H: KeyHash + Copy + Drop + Send + Sync>(
    rt: &T,
    alloc: Global,
    settings: NodeSettings<H>,
    work: ProcessJobs,
) -> Result<RunResult, ScriptFault>
    ensures ok { IfOk result (λ run. RunsJobs settings.limits work.jobs
        run.entries.items run.left.items) }
    ensures err { IfErr result (StopsBeforeOutput settings.limits) }
{
    // `Shared::new` requires one part for each process that the limit allows, and one more.
    let blank = Blank::new(settings.limits.processes as u64 + 1);
    run_with_ledger::<Brand, T, H>(rt, alloc, blank, settings, work)
}

/// Runs the jobs as `run_jobs` does. `blank` is the ledger that counts the journal's entries.
fn run_with_ledger<
    L: Ledger + Send + Sync,
    T: Threads + Wait + Sync,
    H: KeyHash + Copy + Drop + Send + Sync,
>(
    rt: &T,
    alloc: Global,
    blank: Blank,
    settings: NodeSettings<H>,
    work: ProcessJobs,
) -> Result<RunResult, ScriptFault>
    requires name { blank.name ≡ L.name }
    requires parts { blank.parts ≡ L.parts }
    requires enough { blank.parts ≡ settings.limits.processes + 1 }
    ensures ok { IfOk result (λ run. RunsJobs settings.limits work.jobs
        run.entries.items run.left.items) }
    ensures err { IfErr result (StopsBeforeOutput settings.limits) }
{
    let shared = Shared::<L, H>::new(alloc, blank, settings.limits, settings.hasher);
    let Ok((clients, left)) = run_processes(rt, alloc, &shared, work) else {
        return Err(ScriptFault::Memory);
    };
    match close(shared, clients) {
        Ok(transcript) => Ok(RunResult {
            entries: transcript.entries,
            left,
        }),
        Err(CloseFault::Differs(pid)) => Err(ScriptFault::Differs(pid)),
        Err(CloseFault::Missing(pid)) => Err(ScriptFault::Missing(pid)),
        Err(CloseFault::Memory) => Err(ScriptFault::Memory),
    }
}

/// Enrols the processes, runs their jobs, and returns their clients and, for each, the number of jobs that it did not
/// run.
fn run_processes<
    L: Ledger + Send + Sync,
    T: Threads + Wait + Sync,
    H: KeyHash + Copy + Drop + Send + Sync,
>(
    rt: &T,
    alloc: Global,
    shared: &Shared<L, H>,
    work: ProcessJobs,
) -> Result<(Vec<Client<L>>, Vec<usize>), AllocError>
    ensures { IfOk result (λ r. HaveRun 0 work.jobs r.0.items r.1.items) }
{
    let enrolled = enrol_all(rt, alloc, shared, work.jobs)?;
    let workers = run_and_keep(rt, alloc, shared, enrolled, work.turns)?;
    unzip(alloc, workers)
}

/// Enrols a process for each list of jobs, in order, and returns each client with its jobs. Draws no number if there is
/// no list.
fn enrol_all<L: Ledger, T: Wait, H: KeyHash + Copy + Drop>(
    rt: &T,
    alloc: Global,
    shared: &Shared<L, H>,
    jobs: Items<Items<Job>>,
) -> Result<Vec<(Client<L>, Vec<Job>)>, AllocError>
    ensures { IfOk result (λ work. AreEnrolled 0 jobs work.items) }
{
    if jobs.is_empty() {
        return Ok(Vec::new(alloc));
    }
    let Ok((pids, seats)) = Pids::open(alloc, jobs.len()) else {
        return Err(AllocError);
    };
    enrol_each(rt, shared, &pids, seats, jobs)
}

/// Enrols a process for each list of jobs, with the numbers that the seats draw. Returns each client with its jobs.
fn enrol_each<L: Ledger, T: Wait, H: KeyHash + Copy + Drop>(
    rt: &T,
    shared: &Shared<L, H>,
    pids: &Pids,
    mut seats: Vec<Seat>,
    jobs: Items<Items<Job>>,
) -> Result<Vec<(Client<L>, Vec<Job>)>, AllocError>
    requires { AreSeatsOf pids.now seats.items }
    ensures { IfOk result (λ work. AreEnrolled 0 jobs work.items) }
{
    let mut work = Vec::with_capacity(*seats.allocator(), jobs.len())?;
    let lists = jobs.into_vec();
    // `own` is the list of one process.
    for own in lists {
        let client = enrol(rt, shared, draw(pids, &mut seats), work.len())?;
        work.push((client, own.into_vec()))?;
    }
    Ok(work)
}

/// Draws the next number with one of the seats, or returns `None` if there is no seat. It never waits.
fn draw(pids: &Pids, seats: &mut Vec<Seat>) -> Option<Drawn>
    requires { AreSeatsOf pids.now seats.old.items }
    ensures { AreSeatsOf pids.now seats.new.items }
{
    match seats.pop() {
        Some(seat) => Some(pids.draw(seat)),
        None => None,
    }
}

/// Enrols the drawn number, which is the given process number, and returns its client. Numbers are drawn in order and
/// within the limit, so the branches for another number or a refusal are unreachable; they return `AllocError`.
fn enrol<L: Ledger, T: Wait, H: KeyHash + Copy + Drop>(
    rt: &T,
    shared: &Shared<L, H>,
    drawn: Option<Drawn>,
    number: usize,
) -> Result<Client<L>, AllocError>
    ensures { IfOk result (IsNew number) }
{
    match drawn {
        Some(drawn) if drawn.pid() as usize == number => match shared.client(rt, drawn) {
            Ok(client) => Ok(client),
            Err(_) => Err(AllocError),
        },
        _ => Err(AllocError),
    }
}

/// Runs the clients' jobs, each client in a thread of its own, while another thread runs at most `turns` pending growth
/// steps. Returns each client with the number of jobs that it did not run.
fn run_and_keep<
    L: Ledger + Send + Sync,
    T: Threads + Wait + Sync,
    H: KeyHash + Copy + Drop + Send + Sync,
>(
    rt: &T,
    alloc: Global,
    shared: &Shared<L, H>,
    work: Vec<(Client<L>, Vec<Job>)>,
    turns: u32,
) -> Result<Vec<Worked<L>>, AllocError>
    ensures { IfOk result (λ workers. AllWorked work.items workers.items) }
{
    // `_kept` is the number of growth steps that were run.
    let (_kept, workers) = thread::join(
        rt,
        move || -> u32
            requires { IsSync T.row }
        { keep(rt, shared, turns) },
        move || -> Result<Vec<Worked<L>>, AllocError>
            requires { IsSync T.row }
            ensures { IfOk result (λ workers. AllWorked work.items workers.items) }
        { run_clients(rt, alloc, shared, work, &NoGate) },
    );
    workers
}

/// Separates the clients from the numbers of jobs that they did not run.
fn unzip<L: Ledger>(
    alloc: Global,
    workers: Vec<Worked<L>>,
) -> Result<(Vec<Client<L>>, Vec<usize>), AllocError>
    ensures { IfOk result (λ parts. (parts.0.items ≡ map (λ w. w.client) workers.items)
        × (parts.1.items ≡ map (λ w. w.left) workers.items)) }
{
    let mut clients = Vec::with_capacity(alloc, workers.len())?;
    let mut left = Vec::with_capacity(alloc, workers.len())?;
    for worked in workers {
        clients.push(worked.client)?;
        left.push(worked.left)?;
    }
    Ok((clients, left))
}
