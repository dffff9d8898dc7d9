//! Times whole calls of a node, made by one caller or by clients in threads. Prints lines `WHO OPERATION FIGURE`.
//!
//! Usage: `bench_calls times|into|run|keyed|walks|alone|clients|server|reads|lists|check COUNT CALLS`. `run` below says
//! what each part does.
#![tactic(auto)]

mod calls; // the calls that are timed
mod clients; // clients of a `Shared`, in threads
mod mixture; // nine lookups to one insertion
mod node; // a node with one process and one table
mod order; // shuffled orders of keys
mod phases; // insertions, lookups and so on, one step for each key
mod plans; // what the callers of a server do
mod report; // times and counts, printed
mod servers; // callers of a `Server`, in threads
mod walks; // traversals of a whole table

use ets_term::{Fnv, Keyed};
use phases::Way;
use plans::Load;
use report::{print_alone, print_clients, print_counts, print_servers, print_times};
use std::alloc::Global;
use std::rt::Clock;
use std::sync::Wait;
use std::thread::Threads;
use std::{env, io};

/// The number of objects, calls or threads if the command line names none.
const COUNT: u32 = 1_000;

/// Runs one part of the benchmark. `times`, `into` and `run` time the phases, each by another method of a node. `keyed`
/// times them with the seeded hash, of an arbitrary seed. `walks` times traversals. `alone` times a mixture of calls
/// without threads, and `clients` one in threads. `server`, `reads` and `lists` time the callers of a server. Any other
/// word is `check`, which prints counts and no times.
///
/// For `clients`, `server`, `reads` and `lists`, `count` is the number of threads, each of which makes `calls` calls.
/// For `alone`, `count` is the number of calls; for the others it is the number of objects. For `check` it is also the
/// number of calls of each client and caller.
fn run<R: Print + Alloc<A = Global> + Clock + Threads + Wait + Sync>(
    rt: &R,
    part: &str,
    count: u32,
    calls: u32,
) -> io::Result<()> {
    match part {
        "times" => print_times(rt, "calls", Way::Step, Fnv, count),
        "into" => print_times(rt, "calls-into", Way::StepInto, Fnv, count),
        "run" => print_times(rt, "calls-run", Way::Run, Fnv, count),
        "keyed" => print_times(rt, "calls-keyed", Way::StepInto, Keyed::new(1), count),
        "walks" => walks::print_times(rt, count),
        "alone" => print_alone(rt, count),
        "clients" => print_clients(rt, count.max(1), calls),
        "server" => print_servers(rt, Load::Mixture, count.max(1), calls),
        "reads" => print_servers(rt, Load::Reads, count.max(1), calls),
        "lists" => print_servers(rt, Load::Lists, count.max(1), calls),
        _ => print_counts(rt, count),
    }
}

/// Runs the part that the command line names, or `check` if it names none.
fn main(rt: HostRuntime) -> io::Result<()> {
    let mut words = env::args(&rt)?;
    let _program = words.next();
    let part = words.next();
    let count = words.next();
    let calls = words.next();
    let part = part.as_deref().unwrap_or("check");
    run(
        &rt,
        part,
        number_or_default(count.as_deref()),
        number_or_default(calls.as_deref()),
    )
}

/// Returns the number that a word spells, or `COUNT` if there is no word or it is not a number.
fn number_or_default(word: Option<&str>) -> u32 {
    match word {
        Some(word) => word.parse().unwrap_or(COUNT),
        None => COUNT,
    }
}
