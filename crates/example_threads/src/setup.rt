//! The tables, the clients and their jobs.
ghost use Rattle.std.specs.Prelude.{◌<◌};

use crate::calls::{ask, call, insertion};
use ets_term::{Fnv, Integer};
use node_core::Call;
use node_shared::{Client, Job, Pids, Shared};
use std::alloc::Global;
use std::sync::Wait;
use std::sync::ledger::Ledger;

/// The number of clients. The traverser creates the tables and traverses the bag; the other four count and insert.
pub(crate) const CLIENTS: usize = 5;

/// How often each client but the traverser adds to the counter, and how often it inserts. The bag starts with the keys
/// below this number.
pub(crate) const TIMES: u32 = 100;

/// Returns the traverser, which has created the tables, and the four other clients with their jobs.
pub(crate) fn set_up<L: Ledger, R: Wait>(
    rt: &R,
    alloc: Global,
    shared: &Shared<L, Fnv>,
) -> Option<(Client<L>, Vec<(Client<L>, Vec<Job>)>)> {
    let mut clients = clients(rt, alloc, shared, CLIENTS)?;
    create_tables(rt, alloc, shared, clients.last_mut()?)?;
    let traverser = clients.pop()?;
    let work = with_jobs(alloc, clients)?;
    Some((traverser, work))
}

/// Enrols `count` processes, and returns the client of each. A seat is the right to draw one process number.
fn clients<L: Ledger, R: Wait>(
    rt: &R,
    alloc: Global,
    shared: &Shared<L, Fnv>,
    count: usize,
) -> Option<Vec<Client<L>>>
    requires { 0 < count }
{
    let (pids, seats) = Pids::open(alloc, count).ok()?;
    let mut clients = Vec::with_capacity(alloc, count).ok()?;
    for seat in seats {
        let client = shared.client(rt, pids.draw(seat)).ok()?;
        clients.push(client).ok()?;
    }
    Some(clients)
}

/// Creates both tables, which all clients may write, and inserts the objects with the keys below `TIMES`.
fn create_tables<L: Ledger, R: Wait>(
    rt: &R,
    alloc: Global,
    shared: &Shared<L, Fnv>,
    client: &mut Client<L>,
) -> Option<()> {
    let counts = call(alloc, "new", "[counts,[named_table,public]]")?;
    ask(rt, shared, client, counts)?;
    let notes = call(alloc, "new", "[notes,[named_table,public,bag]]")?;
    ask(rt, shared, client, notes)?;
    let total = call(alloc, "insert", "[counts,{total,0}]")?;
    ask(rt, shared, client, total)?;
    fill_bag(rt, alloc, shared, client)
}

/// Inserts the objects with the keys below `TIMES` into the bag.
fn fill_bag<L: Ledger, R: Wait>(
    rt: &R,
    alloc: Global,
    shared: &Shared<L, Fnv>,
    client: &mut Client<L>,
) -> Option<()> {
    for key in 0..TIMES {
        ask(rt, shared, client, insertion(alloc, Integer::from(key))?)?;
    }
    Some(())
}

/// Pairs each client with its jobs. Each inserts `TIMES` keys of its own, above those that the bag starts with.
fn with_jobs<L: Ledger>(
    alloc: Global,
    clients: Vec<Client<L>>,
) -> Option<Vec<(Client<L>, Vec<Job>)>> {
    let mut work = Vec::with_capacity(alloc, clients.len()).ok()?;
    let mut key = Integer::from(TIMES);
    for client in clients {
        work.push((client, jobs(alloc, key)?)).ok()?;
        key = key.wrapping_add(Integer::from(TIMES));
    }
    Some(work)
}

/// Returns pairs of jobs: the first adds 1 to the counter, the second inserts an object with the next key from `first`
/// on.
fn jobs(alloc: Global, first: Integer) -> Option<Vec<Job>> {
    let mut jobs = Vec::new(alloc);
    for number in 0..TIMES {
        let key = first.wrapping_add(Integer::from(number));
        push_call(
            &mut jobs,
            call(alloc, "update_counter", "[counts,total,1]")?,
        )?;
        push_call(&mut jobs, insertion(alloc, key)?)?;
    }
    Some(jobs)
}

/// Appends a job that makes this call.
fn push_call(jobs: &mut Vec<Job>, call: Call) -> Option<()> {
    jobs.push(Job::Ask(call)).ok()
}
