//! A test of calls after the end of their process: they are refused, also while another thread runs pending growth
//! steps.
// All keys have the same hash.
ghost use Rattle.std.specs.Prelude.{◌≡◌};

use super::calls::build_jobs;
use super::keeper::run_while_keeping;
use super::{Plan, close_all, join_with_jobs, limits};
use ets_term::AllSame;
use node_core::Reply;
use node_shared::{Client, Entry, Job, Shared, Transcript};
use std::alloc::Global;
use std::marker::Brand;
use std::sync::Wait;
use std::sync::ledger::{Blank, Ledger};
use std::test::Fail;
use std::thread::Threads;

/// The arguments of `insert` for ten objects.
const INSERT_TEN: &str = "[t,[{0},{1},{2},{3},{4},{5},{6},{7},{8},{9}]]";

/// Three calls, each a name and the text of its list of arguments. Table t belongs to the first client that makes it,
/// so the calls of the other may be refused; such a refusal is not `NoProcess`.
const CALLS: [(&str, &str); 3] = [
    ("new", "[t,[named_table]]"),
    ("insert", INSERT_TEN),
    ("lookup", "[t,7]"),
];

/// Each client makes the calls, ends its process, and makes the same calls again.
#[derive(Drop)]
struct CallAfterEnd;

impl Plan for CallAfterEnd {
    fn jobs(&self, alloc: Global, _pid: u32) -> Option<Vec<Job>> {
        let mut jobs = build_jobs(alloc, &CALLS)?;
        let mut others = build_jobs(alloc, &CALLS)?; // those after the end
        jobs.push(Job::End).ok()?;
        jobs.append(&mut others).ok()?;
        Some(jobs)
    }
}

/// Runs the jobs of two clients, and returns the clients.
fn run_two<L: Ledger + Send + Sync, R: Threads + Wait + Sync>(
    rt: &R,
    alloc: Global,
    shared: &Shared<L, AllSame>,
) -> Option<Vec<Client<L>>> {
    let work = join_with_jobs(rt, alloc, shared, 2, &CallAfterEnd)?;
    run_while_keeping(rt, alloc, shared, work)
}

/// The number of entries of a process: its enrolment, three calls, its end, and the three calls again.
const ENTRIES: usize = 8;

/// The index, from 0, of the entry of the end.
const END: usize = 4;

/// Returns whether the entries after the end, and no others, have the reply `NoProcess`.
fn is_refused_after_end(entries: &[&Entry]) -> bool {
    let is_refused = |entry: &Entry| matches!(entry.reply, Reply::NoProcess);
    entries.len() == ENTRIES
        && entries
            .iter()
            .enumerate()
            .all(|(index, entry)| is_refused(entry) == (index > END))
}

/// Returns whether the calls of a process are refused after its end, and not before.
fn calls_are_refused(transcript: &Transcript, pid: u32) -> Option<bool> {
    let entries = transcript.of(pid).ok()?;
    Some(is_refused_after_end(entries.as_slice()))
}

/// Runs two clients of a new node. Returns whether the calls of both are refused after the end, and not before. `blank`
/// is the ledger that `L` names; it has a part for each of the two processes and one more.
fn both_are_refused_after_end<L: Ledger + Send + Sync, R: Threads + Wait + Sync>(
    rt: &R,
    alloc: Global,
    blank: Blank,
) -> Option<bool>
    requires name { blank.name ≡ L.name }
    requires parts { blank.parts ≡ L.parts }
    requires enough { blank.parts ≡ 3 }
{
    let shared = Shared::<L, AllSame>::new(alloc, blank, limits(2), AllSame);
    let clients = run_two(rt, alloc, &shared);
    let transcript = close_all(shared, clients)?;
    Some(calls_are_refused(&transcript, 0)? && calls_are_refused(&transcript, 1)?)
}

#[test]
fn calls_after_the_end_of_their_process_are_refused(rt: HostRuntime) -> Result<(), Fail> {
    let is_right = both_are_refused_after_end::<Brand, _>(&rt, rt.alloc(), Blank::new(3));
    assert!(rt; is_right.ok_or("no memory, or a wrong journal")?);
    Ok(())
}
