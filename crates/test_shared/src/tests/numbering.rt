//! A test of the numbers that a `Gate` gets: its methods are called with the number of the client and of the job.
// Four clients run at the same time. `before` is called before each job, and `after` after it.
ghost use Rattle.std.specs.Prelude.{◌≡◌};

use super::calls::build_call;
use super::{Plan, clients_of_workers, count_entries, join_with_jobs, limits};
use ets_term::Fnv;
use node_shared::{Client, Gate, Job, Shared, run_clients};
use std::alloc::Global;
use std::marker::Brand;
use std::sync::Wait;
use std::sync::atomic::{AtomicU64, Ordering};
use std::sync::ledger::{Blank, Ledger};
use std::test::Fail;
use std::thread::Threads;

/// A gate that logs its calls, in one decimal number for each of four clients, and one for all other clients. Each call
/// adds a digit: 1 and 2 are `before` and `after` job 0, 3 and 4 are those of job 1, and so on.
#[derive(Drop)]
struct Log {
    client_0: AtomicU64,
    client_1: AtomicU64,
    client_2: AtomicU64,
    client_3: AtomicU64,
    others: AtomicU64,
}

impl Log {
    /// Returns a gate without calls so far.
    fn new() -> Log {
        Log {
            client_0: AtomicU64::new(0),
            client_1: AtomicU64::new(0),
            client_2: AtomicU64::new(0),
            client_3: AtomicU64::new(0),
            others: AtomicU64::new(0),
        }
    }

    /// Appends a digit to a client's number.
    fn add_digit(&self, client: usize, digit: usize) {
        match client {
            0 => push_digit(&self.client_0, digit),
            1 => push_digit(&self.client_1, digit),
            2 => push_digit(&self.client_2, digit),
            3 => push_digit(&self.client_3, digit),
            _ => push_digit(&self.others, digit),
        }
    }

    /// Returns the logged numbers of the clients 0 to 3, and of all other clients.
    fn digits(&self) -> [u64; 5] {
        [
            self.client_0.load(Ordering::SeqCst),
            self.client_1.load(Ordering::SeqCst),
            self.client_2.load(Ordering::SeqCst),
            self.client_3.load(Ordering::SeqCst),
            self.others.load(Ordering::SeqCst),
        ]
    }
}

/// Appends a decimal digit to a number.
fn push_digit(number: &AtomicU64, digit: usize) {
    // One client alone changes the number, so that nothing is lost between load and store.
    let digits = number.load(Ordering::SeqCst).wrapping_mul(10);
    number.store(digits.wrapping_add(digit as u64), Ordering::SeqCst);
}

impl Gate for Log {
    fn before(&self, client: usize, job: usize) {
        self.add_digit(client, job.wrapping_mul(2).wrapping_add(1));
    }

    fn after(&self, client: usize, job: usize) {
        self.add_digit(client, job.wrapping_mul(2).wrapping_add(2));
    }
}

/// The client of process n has n + 1 jobs, each of which calls `receive`.
#[derive(Drop)]
struct ReceiveCalls;

impl Plan for ReceiveCalls {
    fn jobs(&self, alloc: Global, pid: u32) -> Option<Vec<Job>> {
        let mut jobs = Vec::new(alloc);
        for _ in 0..=pid {
            jobs.push(Job::Ask(build_call(alloc, ("receive", "[]"))?))
                .ok()?;
        }
        Some(jobs)
    }
}

/// Runs the jobs of four clients, and logs each call of `Gate`. Returns the clients.
fn run_with_log<L: Ledger + Send + Sync, R: Threads + Wait + Sync>(
    rt: &R,
    alloc: Global,
    shared: &Shared<L, Fnv>,
    log: &Log,
) -> Option<Vec<Client<L>>> {
    let work = join_with_jobs(rt, alloc, shared, 4, &ReceiveCalls)?;
    let workers = run_clients(rt, alloc, shared, work, log).ok()?;
    clients_of_workers(alloc, workers)
}

/// Runs four clients of a new node. Returns the logged calls of `Gate`, and the number of entries of process 3. `blank`
/// is the ledger that `L` names; it has a part for each of the four processes and one more.
fn log_of_four<L: Ledger + Send + Sync, R: Threads + Wait + Sync>(
    rt: &R,
    alloc: Global,
    blank: Blank,
) -> Option<([u64; 5], usize)>
    requires name { blank.name ≡ L.name }
    requires parts { blank.parts ≡ L.parts }
    requires enough { blank.parts ≡ 5 }
{
    let shared = Shared::<L, Fnv>::new(alloc, blank, limits(4), Fnv);
    let log = Log::new();
    let clients = run_with_log(rt, alloc, &shared, &log);
    let entries = count_entries(shared, clients, 3)?;
    Some((log.digits(), entries))
}

#[test]
fn the_gate_is_called_before_and_after_each_job(rt: HostRuntime) -> Result<(), Fail> {
    let logged = log_of_four::<Brand, _>(&rt, rt.alloc(), Blank::new(5));
    let (calls, entries) = logged.ok_or("no memory, or a wrong journal")?;
    // Client 0 has one job, client 1 has two, and so on. No other client made a call of `Gate`.
    assert_eq!(rt; calls, [12, 1_234, 123_456, 12_345_678, 0]);
    // The enrolment and four jobs.
    assert_eq!(rt; entries, 5);
    Ok(())
}
