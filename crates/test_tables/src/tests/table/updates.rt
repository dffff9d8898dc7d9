//! Functions that update counters and elements of a table's objects, and return the codes of the answers. `None` means
//! out of memory.
use super::answers::refusal_code;
use super::terms::{integer_of, tuple};
use bucket_table::Rows;
use counters::{ElementSpecs, Ops, read_element_specs, read_ops};
use ets_term::{Integer, Term};
use std::alloc::Global;
use table_ops::Table;

/// Builds the operation that adds an increment to the element after the key, which is the counter.
pub fn increment_of_counter(alloc: Global, increment: Integer, keypos: u32) -> Option<Ops> {
    let update = Term::Int(increment);
    let ops = read_ops(alloc, &update, keypos);
    drop(update);
    ops.ok()
}

/// Updates the counter after the key, with a default object or without. Returns its new value, or the code of the
/// refusal.
pub fn update_counter<R: Rows>(
    alloc: Global,
    table: &mut Table<R>,
    key: Integer,
    increment: Integer,
    default: Option<&Term>,
) -> Option<Integer> {
    let ops = increment_of_counter(alloc, increment, table.keypos())?;
    let key = Term::Int(key);
    let updated = table.update_counter(&key, &ops, default);
    drop(key);
    drop(ops);
    match updated {
        Ok(answer) => {
            let value = integer_of(Some(&answer));
            drop(answer);
            Some(value)
        }
        Err(refusal) => Some(refusal_code(refusal)),
    }
}

/// Updates a counter with the default object `{0,Start}`. Returns its new value, or the code of the refusal.
pub fn update_counter_from<R: Rows>(
    alloc: Global,
    table: &mut Table<R>,
    key: Integer,
    increment: Integer,
    start: Integer,
) -> Option<Integer> {
    let default = tuple(alloc, &[0, start])?;
    let answer = update_counter(alloc, table, key, increment, Some(&default));
    drop(default);
    answer
}

/// Builds the update `{2,Value}`, read as for a table whose keypos is 1. `update_element` of the table checks the
/// update again.
pub fn second_element_value(alloc: Global, value: Integer) -> Option<ElementSpecs> {
    let update = tuple(alloc, &[2, value])?;
    let specs = read_element_specs(alloc, &update, 1);
    drop(update);
    specs.ok()
}

/// Writes the second element of a key's object, without a default object. Returns 1 or 0 for true or false, or the code
/// of the refusal.
pub fn update_element<R: Rows>(
    alloc: Global,
    table: &mut Table<R>,
    key: Integer,
    value: Integer,
) -> Option<Integer> {
    let specs = second_element_value(alloc, value)?;
    let key = Term::Int(key);
    let updated = table.update_element(&key, &specs, None);
    drop(specs);
    drop(key);
    match updated {
        Ok(true) => Some(1),
        Ok(false) => Some(0),
        Err(refusal) => Some(refusal_code(refusal)),
    }
}
