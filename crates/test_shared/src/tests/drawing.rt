//! A test of two threads, each of which makes a visit: it draws a process number, joins a client by it, and makes a
//! call.
// In contracts, the table has no objects: it is the kit's table of shared words, here of the word that has the next
// process number.
ghost use Rattle.std.specs.Prelude.{◌≡◌, IfSome};
ghost use Rattle.std.specs.Thread.{IsSync};

use super::calls::build_call;
use super::{count_entries, limits};
use ets_term::{Fnv, KeyHash};
use node_core::Call;
use node_shared::{Client, Pids, Seat, Shared};
use std::alloc::Global;
use std::marker::Brand;
use std::sync::Wait;
use std::sync::ledger::{Blank, Ledger};
use std::thread;
use std::thread::Threads;

/// Opens two process numbers, and returns a seat for each: the right to draw one number. Both seats are of the table of
/// these numbers.
fn two_seats(alloc: Global) -> Option<(Pids, Seat, Seat)>
    ensures one { IfSome result (λ opened. opened.1.seat.table_id ≡ opened.0.table.shared.table_id) }
    ensures other { IfSome result (λ opened. opened.2.seat.table_id ≡ opened.0.table.shared.table_id) }
{
    let (pids, mut seats) = Pids::open(alloc, 2).ok()?;
    let one = seats.pop()?;
    let other = seats.pop()?;
    Some((pids, one, other))
}

/// Draws the number of a seat, joins a client by it, and makes a call. Returns the client.
fn visit<L: Ledger, H: KeyHash + Copy + Drop, R: Wait>(
    rt: &R,
    shared: &Shared<L, H>,
    pids: &Pids,
    seat: Seat,
    request: &Call,
) -> Option<Client<L>>
    requires { seat.seat.table_id ≡ pids.now.table.shared.table_id }
{
    let mut client = shared.client(rt, pids.draw(seat)).ok()?;
    client.ask(rt, shared, request).ok()?;
    Some(client)
}

/// Draws, joins and makes a call for each of two seats, in a thread for each. Returns both clients. The closures
/// require that threads may share the runtime (`IsSync`).
fn visits<
    L: Ledger + Send + Sync,
    H: KeyHash + Copy + Drop + Send + Sync,
    R: Threads + Wait + Sync,
>(
    rt: &R,
    shared: &Shared<L, H>,
    pids: &Pids,
    one: Seat,
    other: Seat,
    request: &Call,
) -> (Option<Client<L>>, Option<Client<L>>)
    requires one { one.seat.table_id ≡ pids.now.table.shared.table_id }
    requires other { other.seat.table_id ≡ pids.now.table.shared.table_id }
{
    let (one_client, other_client) = thread::join(
        rt,
        move || -> Option<Client<L>>
            requires { (IsSync R.row) × (one.seat.table_id ≡ pids.now.table.shared.table_id) }
        { visit(rt, shared, pids, one, request) },
        move || -> Option<Client<L>>
            requires { (IsSync R.row) × (other.seat.table_id ≡ pids.now.table.shared.table_id) }
        { visit(rt, shared, pids, other, request) },
    );
    (one_client, other_client)
}

/// Returns two clients, each of which has drawn its number, joined and made a call in a thread of its own.
fn visitors<L: Ledger + Send + Sync, R: Threads + Wait + Sync>(
    rt: &R,
    alloc: Global,
    shared: &Shared<L, Fnv>,
) -> Option<Vec<Client<L>>> {
    let request = build_call(alloc, ("receive", "[]"))?;
    let (pids, one, other) = two_seats(alloc)?;
    let (one, other) = visits(rt, shared, &pids, one, other, &request);
    both_clients(alloc, one, other)
}

/// Returns both clients, or `None` if one is missing or their numbers are not 0 and 1.
fn both_clients<L: Ledger>(
    alloc: Global,
    one: Option<Client<L>>,
    other: Option<Client<L>>,
) -> Option<Vec<Client<L>>> {
    let mut clients = Vec::with_capacity(alloc, 2).ok()?;
    clients.push(one?).ok()?;
    clients.push(other?).ok()?;
    if !are_numbered(&clients) {
        return None;
    }
    Some(clients)
}

/// Returns whether two clients have the numbers 0 and 1, in any order.
fn are_numbered<L: Ledger>(clients: &[Client<L>]) -> bool {
    match clients {
        [one, other] => matches!((one.pid(), other.pid()), (0, 1) | (1, 0)),
        _ => false,
    }
}

/// Lets two threads join clients of a new node and make a call. Returns how many entries process 0 has: its enrolment
/// and its call. `blank` is the ledger that `L` names; it has a part for each of the two processes and one more.
fn entries_after_two_visits<L: Ledger + Send + Sync, R: Threads + Wait + Sync>(
    rt: &R,
    alloc: Global,
    blank: Blank,
) -> Option<usize>
    requires name { blank.name ≡ L.name }
    requires parts { blank.parts ≡ L.parts }
    requires enough { blank.parts ≡ 3 }
{
    let shared = Shared::<L, Fnv>::new(alloc, blank, limits(2), Fnv);
    let clients = visitors(rt, alloc, &shared);
    count_entries(shared, clients, 0)
}

#[test]
fn two_threads_draw_join_and_call(rt: HostRuntime) {
    assert_eq!(rt;
        entries_after_two_visits::<Brand, _>(&rt, rt.alloc(), Blank::new(3)),
        Some(2)
    );
}
