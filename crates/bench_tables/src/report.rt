//! Measures the phases, and prints times, bytes and counts.
use crate::bench_table::BenchTable;
use crate::phases::{PHASES, Phase};
use std::alloc::{AllocError, Global};
use std::rt::{Clock, Files};
use std::time::{Duration, Instant};
use std::{fs, io};

/// About the least number of calls of a phase that are timed. A small table is built repeatedly for that many calls.
const MIN_TIMED_CALLS: u64 = 300_000;

/// Returns how many tables with this number of objects are built.
fn repeat_count(count: u64) -> u64 {
    (MIN_TIMED_CALLS / count.max(1)).max(1)
}

/// A phase with its keys, and the least time of a run so far, which the report prints.
#[derive(Drop)]
struct TimedPhase {
    phase: Phase,
    keys: Vec<u64>,
    least_nanoseconds: u64,
}

impl TimedPhase {
    /// Runs the phase once more, and stores its time if that is the least so far.
    fn run<T: BenchTable>(
        &mut self,
        rt: &(impl Print + Alloc<A = Global> + Clock),
        table: &mut T,
    ) -> io::Result<()> {
        let keys = self.keys.as_slice();
        let start = Instant::now(rt)?;
        let right_count = self.phase.run(rt.alloc(), table, keys)?;
        self.least_nanoseconds = self.least_nanoseconds.min(nanoseconds(start.elapsed(rt)?));
        if right_count != keys.len() as u64 {
            println!(rt; "{} {} went wrong", T::name(), self.phase.name())?;
        }
        Ok(())
    }

    /// Prints the nanoseconds of one call, after the name of the kind of table.
    fn print(&self, rt: &impl Print, table: &str) -> io::Result<()> {
        let tenths = self.least_nanoseconds.saturating_mul(10) / (self.keys.len() as u64).max(1);
        println!(rt;
            "{} {} {}.{}",
            table,
            self.phase.name(),
            tenths / 10,
            tenths % 10
        )
    }
}

/// Returns all phases with their keys, before the first run.
fn all_phases(alloc: Global, count: u64) -> Result<Vec<TimedPhase>, AllocError> {
    let mut phases = Vec::new(alloc);
    for phase in PHASES {
        phases.push(TimedPhase {
            phase,
            keys: phase.keys(alloc, count)?,
            least_nanoseconds: u64::MAX,
        })?;
    }
    Ok(phases)
}

/// Times all phases of a new table.
fn time_phases<T: BenchTable>(
    rt: &(impl Print + Alloc<A = Global> + Clock),
    phases: &mut [TimedPhase],
) -> io::Result<()> {
    let mut table = T::empty(rt.alloc())?;
    for timed in phases {
        timed.run(rt, &mut table)?;
    }
    Ok(())
}

/// Builds a table with these keys. Returns how long one doubling of its buckets takes, in nanoseconds.
fn time_doubling<T: BenchTable>(
    rt: &(impl Alloc<A = Global> + Clock),
    keys: &[u64],
) -> io::Result<u64> {
    let mut table: T = build_table(rt.alloc(), keys)?;
    let start = Instant::now(rt)?;
    table.double()?;
    Ok(nanoseconds(start.elapsed(rt)?))
}

/// Prints the nanoseconds per call for each phase, and those of one doubling of the buckets of a table with all keys.
pub(crate) fn print_times<T: BenchTable>(
    rt: &(impl Print + Alloc<A = Global> + Clock),
    count: u64,
) -> io::Result<()> {
    let mut phases = all_phases(rt.alloc(), count)?;
    for _turn in 0..repeat_count(count) {
        time_phases::<T>(rt, phases.as_mut_slice())?;
    }
    for timed in phases.as_slice() {
        timed.print(rt, T::name())?;
    }
    let keys = Phase::Insert.keys(rt.alloc(), count)?;
    println!(rt;
        "{} doubling {}",
        T::name(),
        time_doubling::<T>(rt, keys.as_slice())?
    )
}

/// Prints the nanoseconds of the longest of `count` insertions into one table. The time of an insertion includes its
/// growth steps.
pub(crate) fn print_longest<T: BenchTable>(
    rt: &(impl Print + Alloc<A = Global> + Clock),
    count: u64,
) -> io::Result<()> {
    let keys = Phase::Insert.keys(rt.alloc(), count)?;
    let mut table = T::empty(rt.alloc())?;
    let mut longest = 0;
    for key in keys.as_slice() {
        let start = Instant::now(rt)?;
        table.insert(rt.alloc(), *key)?;
        longest = longest.max(nanoseconds(start.elapsed(rt)?));
    }
    println!(rt; "{} longest {}", T::name(), longest)
}

/// Returns a duration in nanoseconds.
fn nanoseconds(spent: Duration) -> u64 {
    u64::try_from(spent.as_nanos()).unwrap_or(u64::MAX)
}

/// Builds a table with an object for each of these keys.
fn build_table<T: BenchTable>(alloc: Global, keys: &[u64]) -> Result<T, AllocError> {
    let mut table = T::empty(alloc)?;
    Phase::Insert.run(alloc, &mut table, keys)?;
    Ok(table)
}

/// Prints the bytes per object. It builds tables until there are about `MIN_TIMED_CALLS` objects, so that the rounding
/// to whole pages matters little.
pub(crate) fn print_bytes<T: BenchTable>(
    rt: &(impl Print + Alloc<A = Global> + Files),
    count: u64,
) -> io::Result<()> {
    let alloc = rt.alloc();
    let keys = Phase::Insert.keys(alloc, count)?;
    let before = resident_bytes(rt)?;
    let mut tables: Vec<T> = Vec::new(alloc);
    for _table in 0..repeat_count(count) {
        tables.push(build_table(alloc, keys.as_slice())?)?;
    }
    let bytes = resident_bytes(rt)?.saturating_sub(before);
    let objects = count.saturating_mul(repeat_count(count));
    println!(rt; "{} bytes {}", T::name(), bytes / objects.max(1))
}

/// The size of a page of memory in bytes, as on Linux on x86-64.
const PAGE_BYTES: u64 = 4096;

/// Returns how many bytes of this program are in memory now, on Linux: the second field of `statm` is the number of its
/// resident pages. Any other text counts as 0.
fn resident_bytes(rt: &(impl Alloc<A = Global> + Files)) -> io::Result<u64> {
    let text = fs::read_to_string(rt, "/proc/self/statm")?;
    let pages: u64 = match text.split(' ').nth(1) {
        Some(word) => word.parse().unwrap_or(0),
        None => 0,
    };
    Ok(pages.saturating_mul(PAGE_BYTES))
}

/// Prints how many calls of each phase did what they should.
pub(crate) fn print_counts<T: BenchTable>(
    rt: &(impl Print + Alloc<A = Global>),
    count: u64,
) -> io::Result<()> {
    let alloc = rt.alloc();
    let mut table = T::empty(alloc)?;
    for phase in PHASES {
        let keys = phase.keys(alloc, count)?;
        let right_count = phase.run(alloc, &mut table, keys.as_slice())?;
        println!(rt; "{} {} {}", T::name(), phase.name(), right_count)?;
    }
    Ok(())
}
