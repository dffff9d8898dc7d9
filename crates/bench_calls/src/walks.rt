//! Traversals of a whole table, here called walks: by `next` and then `lookup`, or by `next_lookup`, which does both in
//! one call.
use crate::calls::{build_first, call_of_key, has_object, integer_of_reply, is_key_with_objects};
use crate::node::{ask_step, insert_and_grow, node_with_table};
use crate::order::shuffle;
use crate::report::nanoseconds;
use ets_term::Fnv;
use node_core::{Node, Step};
use std::alloc::{AllocError, Global};
use std::io;
use std::rt::Clock;
use std::time::Instant;

/// How often each walk is timed. The least time is printed.
const TURNS: u32 = 3;

/// The steps of two walks over one table, built before the clock runs. Each walk begins after the first key, so it
/// finds one object less than the table has.
#[derive(Drop)]
struct Walks {
    /// A `next` and a `lookup` for each key but the first.
    apart: Vec<Step>,
    /// A `next_lookup` for each key but the first.
    together: Vec<Step>,
}

impl Walks {
    /// Builds the steps of both walks, in the order in which the table has its keys.
    fn of_table(alloc: Global, node: &mut Node<Fnv>, count: u32) -> Result<Walks, AllocError> {
        let keys = keys_in_order(alloc, node, count)?;
        let mut apart = Vec::new(alloc);
        let mut together = Vec::new(alloc);
        let mut previous = None;
        for key in keys {
            if let Some(previous) = previous {
                apart.push(ask_step(call_of_key(alloc, "next", previous)?))?;
                apart.push(ask_step(call_of_key(alloc, "lookup", key)?))?;
                together.push(ask_step(call_of_key(alloc, "next_lookup", previous)?))?;
            }
            previous = Some(key);
        }
        Ok(Walks { apart, together })
    }
}

/// Returns the keys in the order of `first` and `next`: at most `count`, the number of all keys.
fn keys_in_order(alloc: Global, node: &mut Node<Fnv>, count: u32) -> Result<Vec<u64>, AllocError> {
    let mut keys = Vec::new(alloc);
    let mut next = run_for_key(node, ask_step(build_first(alloc)?))?;
    for _key in 0..count {
        let Some(key) = next else {
            return Ok(keys);
        };
        keys.push(key)?;
        next = run_for_key(node, ask_step(call_of_key(alloc, "next", key)?))?;
    }
    Ok(keys)
}

/// Runs a step, and returns the key that is its reply. `None` is a reply that is not an integer: at the end of the
/// table.
fn run_for_key(node: &mut Node<Fnv>, step: Step) -> Result<Option<u64>, AllocError> {
    let reply = node.step(&step)?;
    Ok(integer_of_reply(&reply))
}

/// Inserts `count` objects in a shuffled order.
fn fill(alloc: Global, node: &mut Node<Fnv>, count: u32) -> Result<(), AllocError> {
    for k in shuffle(alloc, u64::from(count), 1)? {
        insert_and_grow(alloc, node, k)?;
    }
    Ok(())
}

/// Runs the steps, and returns how many found an object.
fn count_found(node: &mut Node<Fnv>, steps: &[Step]) -> Result<u64, AllocError> {
    let mut found: u64 = 0;
    for step in steps {
        found = found.wrapping_add(u64::from(finds_object(node, step)?));
    }
    Ok(found)
}

/// Runs a step, and returns whether it found an object.
fn finds_object(node: &mut Node<Fnv>, step: &Step) -> Result<bool, AllocError> {
    let reply = node.step(step)?;
    Ok(has_object(&reply) || is_key_with_objects(&reply))
}

/// Prints the nanoseconds per object of each walk, over a new table with `count` objects.
pub(crate) fn print_times(
    rt: &(impl Print + Alloc<A = Global> + Clock),
    count: u32,
) -> io::Result<()> {
    let mut node = node_with_table(rt.alloc(), Fnv)?;
    print_walk_times(rt, &mut node, count)
}

/// Fills the table of the node, and prints the nanoseconds per object of each walk over it.
fn print_walk_times(
    rt: &(impl Print + Alloc<A = Global> + Clock),
    node: &mut Node<Fnv>,
    count: u32,
) -> io::Result<()> {
    fill(rt.alloc(), node, count)?;
    let walks = Walks::of_table(rt.alloc(), node, count)?;
    let (mut apart, mut together) = (u64::MAX, u64::MAX);
    for _turn in 0..TURNS {
        apart = apart.min(time_steps(rt, node, walks.apart.as_slice(), count)?);
        together = together.min(time_steps(rt, node, walks.together.as_slice(), count)?);
    }
    println!(rt; "calls next+lookup {}", apart / u64::from(count.max(1)))?;
    println!(rt; "calls next_lookup {}", together / u64::from(count.max(1)))
}

/// Returns the nanoseconds that the steps of a walk take. Prints a warning if they do not find all objects but the
/// first.
fn time_steps(
    rt: &(impl Print + Alloc<A = Global> + Clock),
    node: &mut Node<Fnv>,
    steps: &[Step],
    count: u32,
) -> io::Result<u64> {
    let start = Instant::now(rt)?;
    let found = count_found(node, steps)?;
    let spent = nanoseconds(start.elapsed(rt)?);
    if found.wrapping_add(1) != u64::from(count) {
        println!(rt; "a walk went wrong")?;
    }
    Ok(spent)
}

/// Prints how many objects each walk finds, over a new table with `count` objects.
pub(crate) fn print_counts(rt: &(impl Print + Alloc<A = Global>), count: u32) -> io::Result<()> {
    let mut node = node_with_table(rt.alloc(), Fnv)?;
    print_walk_counts(rt, &mut node, count)
}

/// Fills the table of the node, and prints how many objects each walk over it finds.
fn print_walk_counts(
    rt: &(impl Print + Alloc<A = Global>),
    node: &mut Node<Fnv>,
    count: u32,
) -> io::Result<()> {
    fill(rt.alloc(), node, count)?;
    let walks = Walks::of_table(rt.alloc(), node, count)?;
    println!(rt;
        "calls next+lookup {}",
        count_found(node, walks.apart.as_slice())?
    )?;
    println!(rt;
        "calls next_lookup {}",
        count_found(node, walks.together.as_slice())?
    )
}
