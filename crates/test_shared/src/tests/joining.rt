//! Tests of process numbers and of joining, and of the fault that names a client missing at the end.
// At most 4,096 process numbers are opened. A process is enrolled once, and only up to the limit.
ghost use Rattle.std.specs.Prelude.{◌≡◌};

use super::{draw, join_clients, limits};
use ets_term::Fnv;
use node_core::Reply;
use node_shared::{Book, BookFault, Client, CloseFault, JoinFault, Pids, PidsFault, Shared, close};
use std::alloc::Global;
use std::marker::Brand;
use std::sync::Wait;
use std::sync::ledger::{Blank, Ledger};

/// The greatest number of process numbers that can be opened.
const MAX_NUMBERS: usize = 4_096;

/// One more than `MAX_NUMBERS`.
const TOO_MANY: usize = 4_097;

/// Returns whether `MAX_NUMBERS` process numbers can be opened.
fn opens_max_numbers(alloc: Global) -> bool {
    Pids::open(alloc, MAX_NUMBERS).is_ok()
}

#[test]
fn at_most_max_numbers_are_opened(rt: HostRuntime) {
    assert!(rt; opens_max_numbers(rt.alloc()));
    assert!(rt; matches!(Pids::open(rt.alloc(), TOO_MANY), Err(PidsFault::TooMany)));
}

/// Returns whether process 0 joins a new book (the node with its journal) once, and is refused the second time. `blank`
/// is the ledger that `L` names; it has a part for each of two processes and one more.
fn second_join_is_refused<L: Ledger>(alloc: Global, blank: Blank) -> bool
    requires name { blank.name ≡ L.name }
    requires parts { blank.parts ≡ L.parts }
    requires enough { blank.parts ≡ 3 }
{
    let mut book = Book::<L, Fnv>::new(alloc, blank, limits(2), Fnv);
    book.join(0).is_ok() && matches!(book.join(0), Err(BookFault::Refused(Reply::Badarg)))
}

#[test]
fn a_number_joins_once(rt: HostRuntime) {
    assert!(rt; second_join_is_refused::<Brand>(rt.alloc(), Blank::new(3)));
}

/// Joins a client, and then a second client that is past the limit of one. Returns the process number of the second
/// client, which the refusal gives back.
fn refused_number<L: Ledger, R: Wait>(
    rt: &R,
    alloc: Global,
    shared: &Shared<L, Fnv>,
) -> Option<u32> {
    let mut numbers = draw(alloc, 2)?;
    let second = numbers.pop()?;
    let _client = shared.client(rt, numbers.pop()?).ok()?;
    match shared.client(rt, second) {
        Err(JoinFault::Refused(Reply::SystemLimit, drawn)) => Some(drawn.pid()),
        _ => None,
    }
}

/// Returns the process number that a new node refuses if its limit is one process. `blank` is the ledger that `L`
/// names; it has a part for one process and one more.
fn number_past_limit_of_one<L: Ledger, R: Wait>(rt: &R, alloc: Global, blank: Blank) -> Option<u32>
    requires name { blank.name ≡ L.name }
    requires parts { blank.parts ≡ L.parts }
    requires enough { blank.parts ≡ 2 }
{
    refused_number(
        rt,
        alloc,
        &Shared::<L, Fnv>::new(alloc, blank, limits(1), Fnv),
    )
}

#[test]
fn a_process_past_the_limit_is_refused(rt: HostRuntime) {
    assert_eq!(rt;
        number_past_limit_of_one::<Brand, _>(&rt, rt.alloc(), Blank::new(2)),
        Some(1)
    );
}

/// Joins two clients, drops the first, and returns the second client alone.
fn second_client<L: Ledger, R: Wait>(
    rt: &R,
    alloc: Global,
    shared: &Shared<L, Fnv>,
) -> Option<Vec<Client<L>>> {
    let mut clients = join_clients(rt, alloc, shared, 2)?;
    let second = clients.pop()?;
    let _first = clients.pop()?;
    clients.push(second).ok()?;
    Some(clients)
}

/// Closes a `Shared` that has two clients, but without the first client. Returns the fault. `blank` is the ledger that
/// `L` names; it has a part for each of the two processes and one more.
fn fault_without_the_first<L: Ledger, R: Wait>(
    rt: &R,
    alloc: Global,
    blank: Blank,
) -> Option<CloseFault>
    requires name { blank.name ≡ L.name }
    requires parts { blank.parts ≡ L.parts }
    requires enough { blank.parts ≡ 3 }
{
    let shared = Shared::<L, Fnv>::new(alloc, blank, limits(2), Fnv);
    match second_client(rt, alloc, &shared) {
        Some(clients) => close(shared, clients).err(),
        None => None,
    }
}

#[test]
fn a_missing_client_is_reported(rt: HostRuntime) {
    let fault = fault_without_the_first::<Brand, _>(&rt, rt.alloc(), Blank::new(3));
    assert_eq!(rt; fault, Some(CloseFault::Missing(0)));
}
