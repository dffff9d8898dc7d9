//! Pseudo-random steps that other processes make during a traversal: insertions, deletions and growth. Each also notes
//! in the `Expectation` which values its key then has.
// The values of a key are one number, a bit for each value: `|` adds a value, and `& !` removes it.
use super::expectation::Expectation;
use crate::tests::fixes::answers::{Expected, try_delete_object};
use crate::tests::fixes::{build_object, delete, grow, insert};
use bucket_table::Rows;
use ets_term::Integer;
use fixed_walk::Walked;
use std::alloc::Global;
use table_ops::Kind;

/// How many steps other processes make after each key of a traversal.
const STEPS_PER_KEY: u32 = 10;

/// The factor of Knuth's linear congruential generator of 64 bits.
const SEED_FACTOR: u64 = 6_364_136_223_846_793_005;

/// The increment of the same generator.
const SEED_INCREMENT: u64 = 1_442_695_040_888_963_407;

/// Returns the next number of a pseudo-random sequence.
fn next_random(seed: u64) -> u64 {
    seed.wrapping_mul(SEED_FACTOR).wrapping_add(SEED_INCREMENT)
}

/// Inserts the object `{Key,Value}`. In a set, its value replaces the values of the key. In a bag, it is added to them.
/// Returns whether the call succeeds.
fn insert_value<R: Rows>(
    alloc: Global,
    table: &mut Walked<R>,
    expectation: &mut Expectation,
    key: u32,
    value: u32,
) -> bool {
    let kept_values = if table.kind() == Kind::Set {
        0
    } else {
        expectation.values_of(key)
    };
    expectation.set_values(key, kept_values | value);
    insert(alloc, table, Integer::from(key), Integer::from(value))
}

/// Deletes the object `{Key,Value}`, if the table has it. Returns whether the call succeeds.
fn delete_value<R: Rows>(
    alloc: Global,
    table: &mut Walked<R>,
    expectation: &mut Expectation,
    key: u32,
    value: u32,
) -> bool {
    expectation.set_values(key, expectation.values_of(key) & !value);
    let object = build_object(alloc, Integer::from(key), Integer::from(value));
    try_delete_object(table, object) == Expected::Done.code()
}

/// Deletes all objects of a key. Returns true, because this call always succeeds.
fn delete_values<R: Rows>(table: &mut Walked<R>, expectation: &mut Expectation, key: u32) -> bool {
    expectation.set_values(key, 0);
    delete(table, Integer::from(key));
    true
}

/// Deletes all objects of a key and inserts one, so that a stable key stays stable. Returns whether the insertion
/// succeeds.
fn replace_values<R: Rows>(
    alloc: Global,
    table: &mut Walked<R>,
    expectation: &mut Expectation,
    key: u32,
    value: u32,
) -> bool {
    delete(table, Integer::from(key));
    expectation.set_values(key, value);
    insert(alloc, table, Integer::from(key), Integer::from(value))
}

/// Runs a step of another process. Bits of the seed decide its kind, its key below `expectation.keys`, and its value,
/// which is 1, 2 or 4. On average two of ten steps insert, five delete or replace, one makes a bucket below 4,096
/// ready, and two grow the table. Returns whether the step succeeds.
fn run_other_step<R: Rows>(
    alloc: Global,
    table: &mut Walked<R>,
    expectation: &mut Expectation,
    seed: u64,
) -> bool {
    // There are keys, so the remainder exists.
    let key = ((seed >> 33) as u32)
        .checked_rem(expectation.keys)
        .unwrap_or(0);
    let value = 1u32 << ((seed >> 30) % 3);
    match (seed >> 20) % 10 {
        0 | 1 => insert_value(alloc, table, expectation, key, value),
        2 | 3 => delete_values(table, expectation, key),
        4 => delete_value(alloc, table, expectation, key, value),
        5 | 6 => replace_values(alloc, table, expectation, key, value),
        7 => table.ready((seed >> 52) as u32).is_ok(),
        _ => grow(table),
    }
}

/// Runs `STEPS_PER_KEY` steps of other processes. Returns the seed after them, or None if one fails.
pub(super) fn run_other_steps<R: Rows>(
    alloc: Global,
    table: &mut Walked<R>,
    expectation: &mut Expectation,
    seed: u64,
) -> Option<u64> {
    let mut seed = seed;
    for _ in 0..STEPS_PER_KEY {
        seed = next_random(seed);
        if !run_other_step(alloc, table, expectation, seed) {
            return None;
        }
    }
    Some(seed)
}
