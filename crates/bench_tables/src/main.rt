//! Times a whole table, or its rows alone, phase by phase, and prints lines `TABLE OPERATION NUMBER`.
//!
//! Usage: `bench_tables PART TABLE COUNT`. `TABLE` is `rows` or `table`, and `COUNT` is the number of objects. `PART`
//! is `times` (the time of each call), `longest` (the longest insertion), `bytes` (the memory of an object), or `check`
//! (how many calls did what they should).
#![tactic(auto)]

mod bench_table; // what is timed: a trait with one method for each call
mod order; // shuffled orders of keys
mod phases; // insertions, lookups and so on, one call for each key
mod report; // times and counts, printed
mod rows; // the trait for the rows alone
mod table; // the trait for a whole table

use bench_table::BenchTable;
use bucket_table::SplitRows;
use ets_term::Fnv;
use report::{print_bytes, print_counts, print_longest, print_times};
use std::alloc::Global;
use std::rt::{Clock, Files};
use std::{env, io};
use table_ops::Table;

/// The number of objects if the command line names none.
const OBJECTS: u64 = 1_000_000;

/// Runs one part of the benchmark on one kind of table.
fn run<T: BenchTable>(
    rt: &(impl Print + Alloc<A = Global> + Clock + Files),
    part: &str,
    count: u64,
) -> io::Result<()> {
    match part {
        "times" => print_times::<T>(rt, count),
        "longest" => print_longest::<T>(rt, count),
        "bytes" => print_bytes::<T>(rt, count),
        _ => print_counts::<T>(rt, count),
    }
}

/// Runs the part that the command line names on the kind of table that it names: by default `check` on the rows.
fn main(rt: HostRuntime) -> io::Result<()> {
    let mut words = env::args(&rt)?;
    let _program = words.next();
    let part = words.next();
    let table = words.next();
    let count = match words.next() {
        Some(word) => word.parse().unwrap_or(OBJECTS),
        None => OBJECTS,
    };
    let part = part.as_deref().unwrap_or("check");
    match table.as_deref() {
        Some("table") => run::<Table<SplitRows<Fnv>>>(&rt, part, count),
        _ => run::<SplitRows<Fnv>>(&rt, part, count),
    }
}
