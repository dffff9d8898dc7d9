//! Four clients in threads of their own, and at the same time the thread of the traversal.
ghost use Rattle.std.specs.Thread.{IsSync};

use crate::calls::{ask_integer, call};
use crate::setup::{CLIENTS, set_up};
use crate::traversal::traverse;
use ets_term::{Fnv, Integer, KeyHash};
use node_shared::{Client, Gate, Job, Shared, Worked, run_clients};
use std::alloc::{AllocError, Global};
use std::sync::Wait;
use std::sync::ledger::Ledger;
use std::thread;
use std::thread::Threads;

/// A gate that does nothing. `run_clients` needs a gate, and calls it before and after each job of a client.
#[derive(Drop)]
struct NoGate;

impl Gate for NoGate {
    fn before(&self, _client: usize, _job: usize) {}

    fn after(&self, _client: usize, _job: usize) {}
}

/// What the clients counted, inserted and visited.
#[derive(Drop)]
pub(crate) struct Totals {
    /// The counter's value at the end.
    pub(crate) counter: Integer,
    /// The number of objects in the bag at the end.
    pub(crate) objects: Integer,
    /// How many keys the traversal visited of those that were in the bag before it.
    pub(crate) old_keys: usize,
}

/// Runs four clients while the traverser visits the keys of the bag. Then the traverser reads what the others wrote.
pub(crate) fn run_clients_and_traversal<L: Ledger + Send + Sync, R: Threads + Wait + Sync>(
    rt: &R,
    alloc: Global,
    shared: &Shared<L, Fnv>,
) -> Option<(Vec<Client<L>>, Totals)> {
    let (traverser, work) = set_up(rt, alloc, shared)?;
    let (traversal, workers) = run_side_by_side(rt, alloc, shared, traverser, work);
    let (mut clients, old_keys) = all_clients(alloc, traversal, workers)?;
    let (counter, objects) = read(rt, alloc, shared, clients.last_mut()?)?;
    let totals = Totals {
        counter,
        objects,
        old_keys,
    };
    Some((clients, totals))
}

/// Traverses the bag in one thread and runs the other clients in theirs; returns the results of both.
fn run_side_by_side<
    L: Ledger + Send + Sync,
    H: KeyHash + Copy + Drop + Send + Sync,
    R: Threads + Wait + Sync,
>(
    rt: &R,
    alloc: Global,
    shared: &Shared<L, H>,
    traverser: Client<L>,
    work: Vec<(Client<L>, Vec<Job>)>,
) -> (
    Option<(Client<L>, usize)>,
    Result<Vec<Worked<L>>, AllocError>,
) {
    let (traversal, workers) = thread::join(
        rt,
        move || -> Option<(Client<L>, usize)>
            requires { IsSync R.row }
        { traverse(rt, alloc, shared, traverser) },
        move || -> Result<Vec<Worked<L>>, AllocError>
            requires { IsSync R.row }
        { run_clients(rt, alloc, shared, work, &NoGate) },
    );
    (traversal, workers)
}

/// Returns all clients, the traverser last, and the number of old keys that it visited.
fn all_clients<L: Ledger>(
    alloc: Global,
    traversal: Option<(Client<L>, usize)>,
    workers: Result<Vec<Worked<L>>, AllocError>,
) -> Option<(Vec<Client<L>>, usize)> {
    let (traverser, old_keys) = traversal?;
    let mut clients = clients_of_workers(alloc, workers.ok()?)?;
    clients.push(traverser).ok()?;
    Some((clients, old_keys))
}

/// Returns the clients of the workers.
fn clients_of_workers<L: Ledger>(alloc: Global, workers: Vec<Worked<L>>) -> Option<Vec<Client<L>>> {
    // There is room for the traverser too, which `all_clients` adds.
    let mut clients = Vec::with_capacity(alloc, CLIENTS).ok()?;
    for worker in workers {
        clients.push(worker.client).ok()?;
    }
    Some(clients)
}

/// Returns the counter's value, and the number of objects of the bag.
fn read<L: Ledger, R: Wait>(
    rt: &R,
    alloc: Global,
    shared: &Shared<L, Fnv>,
    client: &mut Client<L>,
) -> Option<(Integer, Integer)> {
    let total = call(alloc, "lookup_element", "[counts,total,2]")?;
    let counter = ask_integer(rt, shared, client, total)?;
    let size = call(alloc, "info", "[notes,size]")?;
    let objects = ask_integer(rt, shared, client, size)?;
    Some((counter, objects))
}
