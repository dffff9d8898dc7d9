//! A caller of a node that threads share: four clients add to one counter and insert into one bag, while a fifth
//! traverses the bag.
#![tactic(auto)]

ghost use Rattle.std.specs.Prelude.{◌≡◌};

mod calls; // builds and makes calls
mod setup; // the tables, and the jobs of the clients
mod side_by_side; // the threads
mod traversal; // the traversal of the bag

use ets_term::Fnv;
use node_core::Limits;
use node_shared::{Shared, close};
use side_by_side::{Totals, run_clients_and_traversal};
use std::alloc::Global;
use std::io;
use std::marker::Brand;
use std::process::ExitCode;
use std::sync::Wait;
use std::sync::ledger::{Blank, Ledger};
use std::thread::Threads;

/// Runs five clients on a shared node, and prints what they counted, inserted and visited.
fn main(rt: HostRuntime) -> io::Result<ExitCode> {
    // The ledger has a part for each of five clients, and one more.
    let Some(totals) = share_node::<Brand, _>(&rt, rt.alloc(), Blank::new(6)) else {
        eprintln!(rt; "out of memory")?;
        return Ok(ExitCode::FAILURE);
    };
    let (counter, objects, old_keys) = (totals.counter, totals.objects, totals.old_keys);
    println!(rt; "four clients counted to {counter}, and the bag has {objects} objects")?;
    println!(rt;
        "a traversal beside them visited {old_keys} of the 100 objects that were there before"
    )?;
    println!(rt; "each client's record is its part of the journal")?;
    Ok(ExitCode::SUCCESS)
}

/// Runs five clients on one node. Returns their totals, or `None` if memory runs out or the clients' records differ
/// from the journal. `blank` is an unused ledger, which counts the entries of each client, and `L` is its name in
/// types.
fn share_node<L: Ledger + Send + Sync, R: Threads + Wait + Sync>(
    rt: &R,
    alloc: Global,
    blank: Blank,
) -> Option<Totals>
    requires name { blank.name ≡ L.name }
    requires parts { blank.parts ≡ L.parts }
    requires enough { blank.parts ≡ 6 }
{
    let limits = Limits {
        processes: 5,
        tables: 2,
        objects: 1_000,
    };
    let shared = Shared::<L, Fnv>::new(alloc, blank, limits, Fnv);
    let (clients, totals) = run_clients_and_traversal(rt, alloc, &shared)?;
    let _transcript = close(shared, clients).ok()?;
    Some(totals)
}
