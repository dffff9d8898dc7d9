//! Clients of one `Shared`, a node under a lock. Each client is in a thread of its own.
ghost use Rattle.std.specs.Prelude.{◌≡◌, ◌+◌, ◌<◌, All, vec_len};

use crate::calls::{has_object, insert_call, new_table_call};
use crate::mixture::{GROWTH_STEPS, KEYS, Timing, mixture};
use crate::report::nanoseconds;
use ets_term::Fnv;
use node_core::Limits;
use node_shared::{Client, Drawn, Gate, Job, Pids, Seat, Shared, Worked, keep, run_clients};
use std::alloc::{AllocError, Global};
use std::io;
use std::marker::Brand;
use std::rt::Clock;
use std::sync::Wait;
use std::sync::ledger::{Blank, Ledger};
use std::thread::Threads;
use std::time::Instant;

/// A gate that lets each call go on at once.
#[derive(Drop)]
struct NoGate;

impl Gate for NoGate {
    fn before(&self, _client: usize, _job: usize) {}

    fn after(&self, _client: usize, _job: usize) {}
}

/// Times clients in threads that make `calls` calls each, all at the same time. Running out of memory, and more than
/// 4,096 clients, are errors.
pub(crate) fn time_clients<R: Alloc<A = Global> + Clock + Threads + Wait + Sync>(
    rt: &R,
    clients: u32,
    calls: u32,
) -> io::Result<Timing>
    requires { 0 < clients }
{
    time_shared::<Brand, R>(rt, Blank::new(u64::from(clients) + 1), clients, calls)
}

/// Times the clients on a new shared node. A ledger, which counts the entries of each client, has one part more than
/// there are clients. The blank is the unused ledger.
fn time_shared<L: Ledger + Send + Sync, R: Alloc<A = Global> + Clock + Threads + Wait + Sync>(
    rt: &R,
    blank: Blank,
    clients: u32,
    calls: u32,
) -> io::Result<Timing>
    requires name { blank.name ≡ L.name }
    requires parts { blank.parts ≡ L.parts }
    requires enough { blank.parts ≡ clients + 1 }
    requires some { 0 < clients }
{
    let limits = Limits {
        processes: clients,
        ..Limits::usual()
    };
    let shared = Shared::<L, Fnv>::new(rt.alloc(), blank, limits, Fnv);
    time_work(rt, &shared, clients, calls)
}

/// Times the jobs of the clients. The jobs are built before the clock runs, and the found objects are counted after it
/// stops.
fn time_work<L: Ledger + Send + Sync, R: Alloc<A = Global> + Clock + Threads + Wait + Sync>(
    rt: &R,
    shared: &Shared<L, Fnv>,
    clients: u32,
    calls: u32,
) -> io::Result<Timing>
    requires { 0 < clients }
{
    let alloc = rt.alloc();
    let work = build_work(rt, alloc, shared, clients, calls)?;
    let start = Instant::now(rt)?;
    let workers = run_clients(rt, alloc, shared, work, &NoGate)?;
    let nanoseconds = nanoseconds(start.elapsed(rt)?);
    let found = count_found(workers.as_slice());
    Ok(Timing { nanoseconds, found })
}

/// Enrols the clients, makes the table and fills it with all keys. Returns each client with its jobs.
fn build_work<L: Ledger, R: Wait>(
    rt: &R,
    alloc: Global,
    shared: &Shared<L, Fnv>,
    clients: u32,
    calls: u32,
) -> Result<Vec<(Client<L>, Vec<Job>)>, AllocError>
    requires { 0 < clients }
{
    let mut clients = enrol_clients(rt, alloc, shared, clients)?;
    if let Some(first) = clients.first_mut() {
        fill(rt, alloc, shared, first)?;
    }
    let mut work = Vec::new(alloc);
    for client in clients {
        let jobs = build_jobs(alloc, calls, client.pid())?;
        work.push((client, jobs))?;
    }
    Ok(work)
}

/// Enrols this many processes in a node, and returns the client of each.
fn enrol_clients<L: Ledger, R: Wait>(
    rt: &R,
    alloc: Global,
    shared: &Shared<L, Fnv>,
    clients: u32,
) -> Result<Vec<Client<L>>, AllocError>
    requires { 0 < clients }
{
    let Ok((pids, seats)) = Pids::open(alloc, clients as usize) else {
        return Err(AllocError);
    };
    enrol_client_of_each_seat(rt, alloc, shared, &pids, seats)
}

/// Draws a process number with each seat, enrols the process, and returns the clients. A seat is the right to draw one
/// number.
fn enrol_client_of_each_seat<L: Ledger, R: Wait>(
    rt: &R,
    alloc: Global,
    shared: &Shared<L, Fnv>,
    pids: &Pids,
    mut seats: Vec<Seat>,
) -> Result<Vec<Client<L>>, AllocError>
    requires { All (λ s. s.seat.table_id ≡ pids.now.table.shared.table_id) seats.items }
{
    let mut clients = Vec::new(alloc);
    while let Some(seat) = seats.pop() {
        clients.push(enrol_client(rt, shared, pids.draw(seat))?)?;
    }
    Ok(clients)
}

/// Enrols a process under a drawn pid, and returns its client. Any fault counts as out of memory.
fn enrol_client<L: Ledger, R: Wait>(
    rt: &R,
    shared: &Shared<L, Fnv>,
    drawn: Drawn,
) -> Result<Client<L>, AllocError> {
    match shared.client(rt, drawn) {
        Ok(client) => Ok(client),
        Err(_) => Err(AllocError),
    }
}

/// Makes the table, and inserts `KEYS` objects. After each, up to `GROWTH_STEPS` pending growth steps are run.
fn fill<L: Ledger, R: Wait>(
    rt: &R,
    alloc: Global,
    shared: &Shared<L, Fnv>,
    client: &mut Client<L>,
) -> Result<(), AllocError> {
    client.ask(rt, shared, &new_table_call(alloc)?)?;
    for k in 0..KEYS {
        client.ask(rt, shared, &insert_call(alloc, k)?)?;
        keep(rt, shared, GROWTH_STEPS);
    }
    Ok(())
}

/// Builds the jobs of the client with this pid: a mixture of calls, in an order of the client's own.
fn build_jobs(alloc: Global, calls: u32, pid: u32) -> Result<Vec<Job>, AllocError> {
    let mut jobs = Vec::new(alloc);
    for call in mixture(alloc, calls, u64::from(pid) + 1)? {
        jobs.push(Job::Ask(call))?;
    }
    Ok(jobs)
}

/// Returns how many lookups of the clients found an object.
fn count_found<L: Ledger>(workers: &[Worked<L>]) -> u64 {
    let mut found: u64 = 0;
    for worker in workers {
        for entry in worker.client.entries() {
            found = found.wrapping_add(u64::from(has_object(&entry.reply)));
        }
    }
    found
}
