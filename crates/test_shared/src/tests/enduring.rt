//! Tests of eight clients with twenty thousand jobs each, on tables that grow. At the end the journal must have the
//! steps of all clients.
// Some processes end and leave their tables to heirs. A round is a new node with eight new clients. `None` means that
// memory ran out, that an enrolment was refused, or that the journal differs from the clients' records.
ghost use Rattle.std.specs.Prelude.{◌≡◌};

use super::calls::build_formatted_call;
use super::keeper::run_while_keeping;
use super::{Plan, close_all, join_with_jobs, limits};
use ets_term::Fnv;
use node_shared::{Client, Job, Shared};
use std::alloc::{AllocError, Global};
use std::marker::Brand;
use std::sync::Wait;
use std::sync::ledger::{Blank, Ledger};
use std::test::Fail;
use std::thread::Threads;

/// The number of clients.
const CLIENTS: usize = 8;

/// The number of jobs of each client.
const JOBS: u32 = 20_000;

/// Clients with even numbers end their process in place of this job. Their later jobs are refused, but have entries.
const END: u32 = 15_000;

/// The number of enrolments and jobs of all clients: 8 and 8 times 20,000. A transcript has more entries, since it has
/// growth steps too.
const CLIENT_STEPS: usize = 160_008;

/// Returns the job of this number of a client. Job 0 makes the client's table, with its neighbour as the heir: the
/// clients 0 and 1 are neighbours, 2 and 3, and so on. The later jobs, in turn, write to the neighbour's table, read
/// it, take the client's messages, and write to its own table.
fn job(alloc: Global, pid: u32, number: u32) -> Option<Job> {
    if number == END && pid % 2 == 0 {
        return Some(Job::End);
    }
    // `pid ^ 1` is the neighbour.
    let arguments = arguments_of_call(alloc, pid, pid ^ 1, number);
    Some(Job::Ask(build_formatted_call(alloc, (name_of_call(number), arguments))?))
}

/// Returns the name of the call that the job of this number makes.
fn name_of_call(number: u32) -> &'static str {
    match number % 4 {
        _ if number == 0 => "new",
        0 | 1 => "insert",
        2 => "lookup",
        _ => "receive",
    }
}

/// Returns the arguments of the call that the job of this number makes. `own` and `neighbour` are the numbers of the
/// client and its neighbour; the table of process N is `tN`.
fn arguments_of_call(
    alloc: Global,
    own: u32,
    neighbour: u32,
    number: u32,
) -> Result<String, AllocError> {
    match number % 4 {
        _ if number == 0 => {
            format!(in alloc; "[t{own},[named_table,public,{{heir,<0.{neighbour}.0>,gift}}]]")
        }
        0 => format!(in alloc; "[t{own},{{{number},{own}}}]"),
        1 => format!(in alloc; "[t{neighbour},{{{number},{own}}}]"),
        2 => format!(in alloc; "[t{neighbour},{number}]"),
        _ => format!(in alloc; "[]"),
    }
}

/// Each client has the jobs with the numbers below `JOBS`.
#[derive(Drop)]
struct ManyJobs;

impl Plan for ManyJobs {
    fn jobs(&self, alloc: Global, pid: u32) -> Option<Vec<Job>> {
        let mut jobs = Vec::with_capacity(alloc, JOBS as usize).ok()?;
        for number in 0..JOBS {
            jobs.push(job(alloc, pid, number)?).ok()?;
        }
        Some(jobs)
    }
}

/// Runs the jobs of eight clients, and returns the clients.
fn run_eight<L: Ledger + Send + Sync, R: Threads + Wait + Sync>(
    rt: &R,
    alloc: Global,
    shared: &Shared<L, Fnv>,
) -> Option<Vec<Client<L>>> {
    let work = join_with_jobs(rt, alloc, shared, CLIENTS, &ManyJobs)?;
    run_while_keeping(rt, alloc, shared, work)
}

/// Runs the jobs of eight clients of a new node. Returns how many entries the transcript has. `blank` is the ledger
/// that `L` names; it has a part for each of the eight processes and one more.
fn entries_of_round<L: Ledger + Send + Sync, R: Threads + Wait + Sync>(
    rt: &R,
    alloc: Global,
    blank: Blank,
) -> Option<usize>
    requires name { blank.name ≡ L.name }
    requires parts { blank.parts ≡ L.parts }
    requires enough { blank.parts ≡ 9 }
{
    let shared = Shared::<L, Fnv>::new(alloc, blank, limits(8), Fnv);
    let clients = run_eight(rt, alloc, &shared);
    Some(close_all(shared, clients)?.entries.len())
}

/// Runs two rounds. Returns whether the transcript of each has more than `CLIENT_STEPS` entries.
fn two_rounds_are_complete<R: Threads + Wait + Sync>(rt: &R, alloc: Global) -> Option<bool> {
    for _ in 0..2 {
        let entries = entries_of_round::<Brand, R>(rt, alloc, Blank::new(9))?;
        if entries <= CLIENT_STEPS {
            return Some(false);
        }
    }
    Some(true)
}

// Ten rounds, in five tests, since a test may take at most one minute.

/// Runs the first two of ten rounds.
#[test]
fn rounds_one_and_two_are_complete(rt: HostRuntime) -> Result<(), Fail> {
    assert!(rt; two_rounds_are_complete(&rt, rt.alloc()).ok_or("no memory, or a wrong journal")?);
    Ok(())
}

/// Runs two more rounds.
#[test]
fn rounds_three_and_four_are_complete(rt: HostRuntime) -> Result<(), Fail> {
    assert!(rt; two_rounds_are_complete(&rt, rt.alloc()).ok_or("no memory, or a wrong journal")?);
    Ok(())
}

/// Runs two more rounds.
#[test]
fn rounds_five_and_six_are_complete(rt: HostRuntime) -> Result<(), Fail> {
    assert!(rt; two_rounds_are_complete(&rt, rt.alloc()).ok_or("no memory, or a wrong journal")?);
    Ok(())
}

/// Runs two more rounds.
#[test]
fn rounds_seven_and_eight_are_complete(rt: HostRuntime) -> Result<(), Fail> {
    assert!(rt; two_rounds_are_complete(&rt, rt.alloc()).ok_or("no memory, or a wrong journal")?);
    Ok(())
}

/// Runs the last two rounds.
#[test]
fn rounds_nine_and_ten_are_complete(rt: HostRuntime) -> Result<(), Fail> {
    assert!(rt; two_rounds_are_complete(&rt, rt.alloc()).ok_or("no memory, or a wrong journal")?);
    Ok(())
}
