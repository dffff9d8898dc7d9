//! Functions that run a step on a table. Each runs some kinds of steps, and passes the other kinds to the next
//! function. All return the code of the step's answer, or `None` if memory ran out.
use super::Step;
use super::single_calls::{
    clear, count_matches_of_key, deep_object, delete_below, delete_key, delete_matching,
    delete_object, grow, hash_of_objects, insert, insert_all, insert_new, lookup_digits, purge,
    select_below, try_lookup_element, try_take,
};
use super::terms::{as_integer, tuple, tuples};
use super::updates::{update_counter, update_counter_from, update_element};
use bucket_table::Rows;
use ets_term::{Integer, Term};
use std::alloc::Global;
use table_ops::Table;

/// Runs a step that inserts, and passes all other kinds to `run_deletion`. Returns the code of the step's answer.
/// `None` means out of memory.
pub fn run_step<R: Rows>(alloc: Global, table: &mut Table<R>, step: Step) -> Option<Integer> {
    match step {
        Step::Insert(object) => insert(table, tuple(alloc, &[object.0, object.1])),
        Step::InsertTwo(first, second) => {
            insert_all(
                table,
                tuples(alloc, &[[first.0, first.1], [second.0, second.1]]),
            )
        }
        Step::InsertTriple(triple) => insert(table, tuple(alloc, &[triple.0, triple.1, triple.2])),
        Step::InsertInteger(value) => insert(table, Some(Term::Int(value))),
        Step::InsertDeep(key, depth) => insert(table, deep_object(alloc, key.0, depth.0)),
        Step::InsertNew(object) => insert_new(table, tuple(alloc, &[object.0, object.1])),
        Step::InsertNewDeep(key, depth) => insert_new(table, deep_object(alloc, key.0, depth.0)),
        _ => run_deletion(alloc, table, step),
    }
}

/// Runs a step that takes or deletes by a key, by an object, or all objects, or that purges tombstones. `run_update`
/// gets all other kinds.
fn run_deletion<R: Rows>(alloc: Global, table: &mut Table<R>, step: Step) -> Option<Integer> {
    match step {
        Step::Take(key, emptied) => Some(try_take(table, key.0, emptied.leaves_tombstone())),
        Step::Delete(key, emptied) => Some(delete_key(table, key.0, emptied.leaves_tombstone())),
        Step::DeleteObject(object, emptied) => delete_object(
            table,
            tuple(alloc, &[object.0, object.1]),
            emptied.leaves_tombstone(),
        ),
        Step::DeleteAll(emptied) => Some(clear(table, emptied.leaves_tombstone())),
        Step::Purge => Some(purge(table)),
        _ => run_update(alloc, table, step),
    }
}

/// Runs a step that updates or grows, or deletes by a pattern or a match specification. `run_read` gets all other
/// kinds.
fn run_update<R: Rows>(alloc: Global, table: &mut Table<R>, step: Step) -> Option<Integer> {
    match step {
        Step::UpdateCounter(key, incr) => update_counter(alloc, table, key.0, incr.0, None),
        Step::UpdateCounterFrom(key, incr, start) => {
            update_counter_from(alloc, table, key.0, incr.0, start.0)
        }
        Step::UpdateElement(key, value) => update_element(alloc, table, key.0, value.0),
        Step::SelectDeleteBelow(limit, emptied) => delete_below(
            alloc,
            table,
            limit,
            emptied.leaves_tombstone(),
        ),
        Step::MatchDelete(key, emptied) => delete_matching(
            alloc,
            table,
            key.0,
            emptied.leaves_tombstone(),
        ),
        Step::Grow => grow(table),
        _ => run_read(alloc, table, step),
    }
}

/// Runs a step that changes nothing, and returns the code of its answer.
fn run_read<R: Rows>(alloc: Global, table: &Table<R>, step: Step) -> Option<Integer> {
    match step {
        Step::Lookup(key) => Some(lookup_digits(table, key.0)),
        Step::LookupElement(key, position) => Some(try_lookup_element(table, key.0, position.0)),
        Step::Match(key) => count_matches_of_key(alloc, table, key.0),
        Step::SelectBelow(limit) => select_below(alloc, table, limit),
        Step::AllObjects => hash_of_objects(table),
        Step::CountSlots => Some(as_integer(table.slots())),
        // `CountObjects`, the last kind.
        _ => Some(as_integer(table.size())),
    }
}
