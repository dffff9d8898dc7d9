//! Runs the parts of the benchmark, and prints their times and counts.
ghost use Rattle.std.specs.Prelude.{◌<◌};

use crate::clients::time_clients;
use crate::mixture::Timing;
use crate::node::{ask_all, fill, mixture_steps, node_with_table};
use crate::phases::{PHASES, Phase, Way};
use crate::plans::{Load, Plan};
use crate::servers::time_server;
use crate::walks;
use ets_term::{Fnv, KeyHash, Keyed};
use node_core::Node;
use node_shared::Locking;
use std::alloc::{AllocError, Global};
use std::io;
use std::rt::Clock;
use std::sync::Wait;
use std::thread::Threads;
use std::time::{Duration, Instant};

/// Limits how often a small table is built: as often as its steps fit into this number, and at least once.
const MIN_TIMED_STEPS: u32 = 300_000;

/// The number of steps that are built before the clock runs. They stay in the processor's cache, as a call does that a
/// program has just made.
const STEPS_BUILT: usize = 1_000;

/// The number of clients, and of callers of a server, in the part `check`.
const CLIENTS: u32 = 3;

/// Returns how many tables with this number of objects are built.
fn repeat_count(count: u32) -> u32 {
    (MIN_TIMED_STEPS / count.max(1)).max(1)
}

/// A phase, and the least time of a run so far, which the report prints.
#[derive(Drop)]
struct PhaseTime {
    phase: Phase,
    least_nanoseconds: u64,
}

impl PhaseTime {
    /// Runs the phase once more, and stores its time if that is the least so far. The clock stops while steps are built.
    fn run_once<H: KeyHash + Copy + Drop>(
        &mut self,
        rt: &(impl Print + Alloc<A = Global> + Clock),
        way: Way,
        node: &mut Node<H>,
        count: u32,
    ) -> io::Result<()> {
        let mut total_nanoseconds: u64 = 0;
        let mut right_count: u64 = 0;
        for keys in self.phase.keys(rt.alloc(), count)?.chunks(STEPS_BUILT) {
            let steps = self.phase.steps(rt.alloc(), keys, count)?;
            let start = Instant::now(rt)?;
            let right = self.phase.run(way, node, steps.as_slice())?;
            total_nanoseconds = total_nanoseconds.saturating_add(nanoseconds(start.elapsed(rt)?));
            right_count = right_count.wrapping_add(right);
        }
        self.least_nanoseconds = self.least_nanoseconds.min(total_nanoseconds);
        if right_count != u64::from(count) {
            println!(rt; "calls {} went wrong", self.phase.name())?;
        }
        Ok(())
    }
}

/// Returns all phases, before the first run.
fn all_phases(alloc: Global) -> Result<Vec<PhaseTime>, AllocError> {
    let mut times = Vec::new(alloc);
    for phase in PHASES {
        let least_nanoseconds = u64::MAX;
        times.push(PhaseTime {
            phase,
            least_nanoseconds,
        })?;
    }
    Ok(times)
}

/// Times all phases on a new table, whose node has this hasher.
fn time_new_table<H: KeyHash + Copy + Drop>(
    rt: &(impl Print + Alloc<A = Global> + Clock),
    way: Way,
    hasher: H,
    phases: &mut [PhaseTime],
    count: u32,
) -> io::Result<()> {
    let mut node = node_with_table(rt.alloc(), hasher)?;
    time_phases(rt, way, &mut node, phases, count)
}

/// Times all phases on the table of the node.
fn time_phases<H: KeyHash + Copy + Drop>(
    rt: &(impl Print + Alloc<A = Global> + Clock),
    way: Way,
    node: &mut Node<H>,
    phases: &mut [PhaseTime],
    count: u32,
) -> io::Result<()> {
    for time in phases {
        time.run_once(rt, way, node, count)?;
    }
    Ok(())
}

/// Prints the nanoseconds per step of each phase, on tables with `count` objects, whose nodes have this hasher. Each
/// phase makes `count` steps. The lines begin with `name`.
pub(crate) fn print_times<H: KeyHash + Copy + Drop>(
    rt: &(impl Print + Alloc<A = Global> + Clock),
    name: &str,
    way: Way,
    hasher: H,
    count: u32,
) -> io::Result<()> {
    let mut phases = all_phases(rt.alloc())?;
    for _turn in 0..repeat_count(count) {
        time_new_table(rt, way, hasher, phases.as_mut_slice(), count)?;
    }
    for time in phases.as_slice() {
        let tenths = time.least_nanoseconds.saturating_mul(10) / u64::from(count.max(1));
        println!(rt;
            "{} {} {}.{}",
            name,
            time.phase.name(),
            tenths / 10,
            tenths % 10
        )?;
    }
    Ok(())
}

/// Prints the nanoseconds per step of a mixture that one process makes alone, without threads.
pub(crate) fn print_alone(
    rt: &(impl Print + Alloc<A = Global> + Clock),
    calls: u32,
) -> io::Result<()> {
    let mut node = node_with_table(rt.alloc(), Fnv)?;
    print_mixture(rt, &mut node, calls)
}

/// Fills the table of the node, and prints the nanoseconds per step of a mixture on it.
fn print_mixture(
    rt: &(impl Print + Alloc<A = Global> + Clock),
    node: &mut Node<Fnv>,
    calls: u32,
) -> io::Result<()> {
    fill(rt.alloc(), node)?;
    let steps = mixture_steps(rt.alloc(), calls)?;
    let start = Instant::now(rt)?;
    let found = ask_all(node, steps.as_slice())?;
    let nanoseconds = nanoseconds(start.elapsed(rt)?);
    Timing { nanoseconds, found }.print(rt, "alone", 1, calls)
}

/// Prints the nanoseconds per call of clients that make `calls` calls each, in parallel.
pub(crate) fn print_clients<R: Print + Alloc<A = Global> + Clock + Threads + Wait + Sync>(
    rt: &R,
    clients: u32,
    calls: u32,
) -> io::Result<()>
    requires { 0 < clients }
{
    time_clients(rt, clients, calls)?.print(rt, "shared", clients, calls)
}

/// Prints the nanoseconds per call of callers of a server that make `calls` calls each, in parallel. The first server
/// has a single lock, the second a sharded lock.
pub(crate) fn print_servers<R: Print + Alloc<A = Global> + Clock + Threads + Wait + Sync>(
    rt: &R,
    load: Load,
    callers: u32,
    calls: u32,
) -> io::Result<()>
    requires { 0 < callers }
{
    for locking in [Locking::Single, Locking::Sharded] {
        let plan = Plan {
            load,
            locking,
            calls,
        };
        print_server(rt, plan, callers)?;
    }
    Ok(())
}

/// Prints the nanoseconds per call of the callers of one server.
fn print_server<R: Print + Alloc<A = Global> + Clock + Threads + Wait + Sync>(
    rt: &R,
    plan: Plan,
    callers: u32,
) -> io::Result<()>
    requires { 0 < callers }
{
    let timing = time_server(rt, plan, callers)?;
    match plan.load {
        Load::Reads | Load::Lists => timing.print_lookups(rt, plan.name(), callers, plan.calls),
        Load::Mixture => timing.print(rt, plan.name(), callers, plan.calls),
    }
}

/// Returns a duration in nanoseconds.
pub(crate) fn nanoseconds(spent: Duration) -> u64 {
    u64::try_from(spent.as_nanos()).unwrap_or(u64::MAX)
}

/// Prints how many steps of each phase had the right reply, and how many objects each walk found. Then prints how many
/// lookups of clients and callers found an object. `count` is the number of objects, and of calls of each client and
/// caller.
pub(crate) fn print_counts<R: Print + Alloc<A = Global> + Clock + Threads + Wait + Sync>(
    rt: &R,
    count: u32,
) -> io::Result<()> {
    print_phase_counts(rt, "calls", Way::Step, Fnv, count)?;
    print_phase_counts(rt, "calls-into", Way::StepInto, Fnv, count)?;
    print_phase_counts(rt, "calls-run", Way::Run, Fnv, count)?;
    print_phase_counts(rt, "calls-keyed", Way::StepInto, Keyed::new(1), count)?;
    walks::print_counts(rt, count)?;
    let timing = time_clients(rt, CLIENTS, count)?;
    println!(rt; "clients found {}", timing.found)?;
    for locking in [Locking::Single, Locking::Sharded] {
        for load in [Load::Mixture, Load::Reads, Load::Lists] {
            let plan = Plan {
                load,
                locking,
                calls: count,
            };
            let timing = time_server(rt, plan, CLIENTS)?;
            println!(rt; "{} found {}", plan.name(), timing.found)?;
        }
    }
    Ok(())
}

/// Prints how many steps of each phase have right replies, on a new table, whose node has this hasher. The lines begin
/// with `name`.
fn print_phase_counts<H: KeyHash + Copy + Drop>(
    rt: &(impl Print + Alloc<A = Global>),
    name: &str,
    way: Way,
    hasher: H,
    count: u32,
) -> io::Result<()> {
    let mut node = node_with_table(rt.alloc(), hasher)?;
    print_table_counts(rt, name, way, &mut node, count)
}

/// Prints how many steps of each phase have right replies, on the table of the node.
fn print_table_counts<H: KeyHash + Copy + Drop>(
    rt: &(impl Print + Alloc<A = Global>),
    name: &str,
    way: Way,
    node: &mut Node<H>,
    count: u32,
) -> io::Result<()> {
    for phase in PHASES {
        let keys = phase.keys(rt.alloc(), count)?;
        let steps = phase.steps(rt.alloc(), keys.as_slice(), count)?;
        let right_count = phase.run(way, node, steps.as_slice())?;
        println!(rt; "{} {} {}", name, phase.name(), right_count)?;
    }
    Ok(())
}
