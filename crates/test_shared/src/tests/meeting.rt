//! A test of two clients that run at the same time. A `Gate`, whose methods are called before and after each job, makes
//! them wait for each other. Each job is a call.
// The first call of each client waits until the other client is at its first call. The second call of the reader waits
// until the writer has the reply to its second call.
ghost use Rattle.std.specs.Prelude.{◌≡◌};

use super::calls::{build_jobs, client_gets_value};
use super::{Plan, clients_of_workers, count_entries, join_with_jobs, limits};
use ets_term::Fnv;
use node_core::Reply;
use node_shared::{Client, Gate, Job, Shared, run_clients};
use std::alloc::Global;
use std::marker::Brand;
use std::sync::Wait;
use std::sync::atomic::{AtomicBool, Ordering};
use std::sync::ledger::{Blank, Ledger};
use std::thread;
use std::thread::Threads;
use term_text::read_term;

/// How often a client polls a flag before the test fails.
const MAX_POLLS: u32 = 1_000_000;

/// A gate for a reader, which is client 0, and a writer, which is client 1. Their first calls wait for each other, and
/// the second call of the reader waits for the reply to the second call of the writer.
#[derive(Drop)]
struct Meeting {
    reader_has_arrived: AtomicBool,
    writer_has_arrived: AtomicBool,
    writer_has_its_reply: AtomicBool,
    /// Whether a client polled a flag `MAX_POLLS` times in vain.
    failed: AtomicBool,
}

impl Meeting {
    /// Returns a gate at which no client has arrived yet.
    fn new() -> Meeting {
        Meeting {
            reader_has_arrived: AtomicBool::new(false),
            writer_has_arrived: AtomicBool::new(false),
            writer_has_its_reply: AtomicBool::new(false),
            failed: AtomicBool::new(false),
        }
    }

    /// Waits until a flag is set. Sets `failed` after `MAX_POLLS` polls.
    fn wait_for(&self, flag: &AtomicBool) {
        for _ in 0..MAX_POLLS {
            if flag.load(Ordering::SeqCst) {
                return;
            }
            thread::yield_now();
        }
        self.failed.store(true, Ordering::SeqCst);
    }
}

impl Gate for Meeting {
    fn before(&self, client: usize, job: usize) {
        match (client, job) {
            // The first call of the reader, which is client 0.
            (0, 0) => {
                self.reader_has_arrived.store(true, Ordering::SeqCst);
                self.wait_for(&self.writer_has_arrived);
            }
            // The first call of the writer, which is client 1.
            (1, 0) => {
                self.writer_has_arrived.store(true, Ordering::SeqCst);
                self.wait_for(&self.reader_has_arrived);
            }
            // The second call of the reader.
            (0, 1) => self.wait_for(&self.writer_has_its_reply),
            _ => {}
        }
    }

    fn after(&self, client: usize, job: usize) {
        if client == 1 && job == 1 {
            self.writer_has_its_reply.store(true, Ordering::SeqCst);
        }
    }
}

/// The reader looks up what the writer inserts meanwhile. Both first look up b, only to wait for each other.
#[derive(Drop)]
struct ReadAndWrite;

impl Plan for ReadAndWrite {
    fn jobs(&self, alloc: Global, pid: u32) -> Option<Vec<Job>> {
        if pid == 0 {
            build_jobs(alloc, &[("lookup", "[t,b]"), ("lookup", "[t,a]")])
        } else {
            build_jobs(alloc, &[("lookup", "[t,b]"), ("insert", "[t,{a,1}]")])
        }
    }
}

/// Returns a reader and a writer with their jobs. The reader has already called `new`; its reply is not checked, since
/// the last reply of the reader shows that there is a table.
fn reader_and_writer<L: Ledger, R: Wait>(
    rt: &R,
    alloc: Global,
    shared: &Shared<L, Fnv>,
) -> Option<Vec<(Client<L>, Vec<Job>)>> {
    let mut work = join_with_jobs(rt, alloc, shared, 2, &ReadAndWrite)?;
    let (reader, _jobs) = work.first_mut()?;
    client_gets_value(
        rt,
        alloc,
        shared,
        reader,
        ("new", "[t,[named_table,public]]"),
    )?;
    Some(work)
}

/// Returns whether the last reply to the client is the term that a text spells.
fn last_reply_is<L: Ledger>(alloc: Global, client: &Client<L>, wanted: &str) -> Option<bool> {
    let entry = client.entries().last()?;
    let (wanted, _) = read_term(alloc, wanted).ok()?;
    Some(matches!(&entry.reply, Reply::Value(term) if *term == wanted))
}

/// Runs both clients. Returns them if neither waited in vain and the reader found what the writer inserted meanwhile,
/// else `None`.
fn run_meeting<L: Ledger + Send + Sync, R: Threads + Wait + Sync>(
    rt: &R,
    alloc: Global,
    shared: &Shared<L, Fnv>,
) -> Option<Vec<Client<L>>> {
    let work = reader_and_writer(rt, alloc, shared)?;
    let meeting = Meeting::new();
    let workers = run_clients(rt, alloc, shared, work, &meeting).ok()?;
    let clients = clients_of_workers(alloc, workers)?;
    let has_met = !meeting.failed.load(Ordering::SeqCst);
    if has_met && last_reply_is(alloc, clients.first()?, "[{a,1}]")? {
        Some(clients)
    } else {
        None
    }
}

/// Runs a reader and a writer at the same time in a new node. Returns how many entries the reader has: its enrolment
/// and three calls. `blank` is the ledger that `L` names; it has a part for each of the two processes and one more.
fn entries_after_meeting<L: Ledger + Send + Sync, R: Threads + Wait + Sync>(
    rt: &R,
    alloc: Global,
    blank: Blank,
) -> Option<usize>
    requires name { blank.name ≡ L.name }
    requires parts { blank.parts ≡ L.parts }
    requires enough { blank.parts ≡ 3 }
{
    let shared = Shared::<L, Fnv>::new(alloc, blank, limits(2), Fnv);
    let clients = run_meeting(rt, alloc, &shared);
    count_entries(shared, clients, 0)
}

#[test]
fn one_client_reads_what_another_inserts_meanwhile(rt: HostRuntime) {
    assert_eq!(rt;
        entries_after_meeting::<Brand, _>(&rt, rt.alloc(), Blank::new(3)),
        Some(4)
    );
}
