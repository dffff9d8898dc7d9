//! Functions that make one call on a table, and return the code of its answer, an integer.
// `leave_tombstone` says whether a slot that loses its last object stays as a tombstone. `built` is an argument just
// built, or `None` if memory ran out. A function that returns `None` ran out of memory.
use super::OUT_OF_MEMORY;
use super::answers::{code_of_matchings, code_of_selections, refusal_code};
use super::terms::{
    as_integer, digits_of, digits_of_stored, hash_of_pairs, integer_of, nested_list, pair,
    pattern_of_key, spec_below,
};
use bucket_table::Rows;
use ets_term::{Integer, Items, Position, Term};
use match_spec::Pattern;
use std::alloc::Global;
use std::slice;
use table_ops::{Looks, Table};

/// Inserts a list. Returns 1, or the code of the refusal.
pub fn try_insert<R: Rows>(table: &mut Table<R>, objects: &[Term]) -> Integer {
    match table.insert(objects) {
        Ok(()) => 1,
        Err(refusal) => refusal_code(refusal),
    }
}

/// Inserts a list if all its keys are new. Returns 1 or 0 for true or false, or the code of the refusal.
pub fn try_insert_new<R: Rows>(table: &mut Table<R>, objects: &[Term]) -> Integer {
    match table.insert_new(objects) {
        Ok(true) => 1,
        Ok(false) => 0,
        Err(refusal) => refusal_code(refusal),
    }
}

/// Returns an element of a key's object as `integer_or_length` gives it, or the code of the refusal.
pub fn try_lookup_element<R: Rows>(table: &Table<R>, key: Integer, position: Position) -> Integer {
    let key = Term::Int(key);
    let found = table.lookup_element(&key, position);
    drop(key);
    match found {
        Ok(element) => {
            let number = integer_or_length(&element);
            drop(element);
            number
        }
        Err(refusal) => refusal_code(refusal),
    }
}

/// Returns the length of a list, or the integer that a term is, or 0 for any other term.
fn integer_or_length(element: &Term) -> Integer {
    match element {
        Term::List(elements) => as_integer(elements.len()),
        _ => integer_of(Some(element)),
    }
}

/// Takes the objects of a key. Returns their second elements as digits, or `OUT_OF_MEMORY`.
pub fn try_take<R: Rows>(table: &mut Table<R>, key: Integer, leave_tombstone: bool) -> Integer {
    let key = Term::Int(key);
    let taken = table.take(&key, leave_tombstone);
    drop(key);
    match taken {
        Ok(objects) => {
            let digits = digits_of(objects.as_slice());
            drop(objects);
            digits
        }
        Err(_) => OUT_OF_MEMORY,
    }
}

/// Deletes an object, and drops the argument. Returns how many objects the table then has, or the code of the refusal.
pub fn delete_object<R: Rows>(
    table: &mut Table<R>,
    built: Option<Term>,
    leave_tombstone: bool,
) -> Option<Integer> {
    let object = built?;
    let deleted = table.delete_object(&object, leave_tombstone);
    drop(object);
    match deleted {
        Ok(()) => Some(as_integer(table.size())),
        Err(refusal) => Some(refusal_code(refusal)),
    }
}

/// Returns how many results were found, and drops them. `None` means out of memory.
pub fn count_of(found: Option<Items<Term>>) -> Option<usize> {
    let items = found?;
    let count = items.len();
    drop(items);
    Some(count)
}

/// Returns how many results `match` has, how many results `match_object` has, and how many objects the two test. `None`
/// means out of memory.
pub fn count_matches<R: Rows>(table: &Table<R>, pattern: &Pattern) -> Option<(usize, usize, u64)> {
    let mut looks = Looks::new();
    let bindings = count_of(table.matches_counted(pattern, &mut looks).ok())?;
    let objects = count_of(table.match_objects_counted(pattern, &mut looks).ok())?;
    Some((bindings, objects, looks.count()))
}

/// Searches by `match` and `match_object` with the pattern of a key. Returns one code for both answers.
pub fn count_matches_of_key<R: Rows>(
    alloc: Global,
    table: &Table<R>,
    key: Integer,
) -> Option<Integer> {
    let pattern = pattern_of_key(alloc, key)?;
    let found = count_matches(table, &pattern);
    drop(pattern);
    let (bindings, objects, looks) = found?;
    let results = as_integer(bindings).wrapping_add(as_integer(objects));
    Some(code_of_matchings(results, looks as Integer))
}

/// Searches by `select` and `select_count` for the objects whose second element is below a limit. Returns one code for
/// both answers.
pub fn select_below<R: Rows>(alloc: Global, table: &Table<R>, limit: Integer) -> Option<Integer> {
    let spec = spec_below(alloc, limit)?;
    let results = count_of(table.select(&spec).ok());
    let count = table.select_count(&spec).ok();
    drop(spec);
    Some(code_of_selections(as_integer(results?), as_integer(count?)))
}

/// Deletes the objects whose second element is below a limit. Returns how many objects it deletes.
pub fn delete_below<R: Rows>(
    alloc: Global,
    table: &mut Table<R>,
    limit: Integer,
    leave_tombstone: bool,
) -> Option<Integer> {
    let spec = spec_below(alloc, limit)?;
    let deleted = table.select_delete(&spec, leave_tombstone);
    drop(spec);
    Some(as_integer(deleted.ok()?))
}

/// Deletes the objects of a key by its pattern. Returns how many objects the table then has.
pub fn delete_matching<R: Rows>(
    alloc: Global,
    table: &mut Table<R>,
    key: Integer,
    leave_tombstone: bool,
) -> Option<Integer> {
    let pattern = pattern_of_key(alloc, key)?;
    let outcome = table.match_delete(&pattern, leave_tombstone);
    drop(pattern);
    outcome.ok()?;
    Some(as_integer(table.size()))
}

/// Returns a hash of all objects of a table that does not depend on their order. `None` means out of memory.
pub fn hash_of_objects<R: Rows>(table: &Table<R>) -> Option<Integer> {
    let objects = table.objects().ok()?;
    let hash = hash_of_pairs(objects.as_slice());
    drop(objects);
    Some(hash)
}

/// Doubles the buckets and makes the first unready bucket ready. Returns 1, the code of success.
pub fn grow<R: Rows>(table: &mut Table<R>) -> Option<Integer> {
    let _growth = table.grow().ok()?;
    if let Some(bucket) = table.first_unready() {
        let _readying = table.ready(bucket).ok()?;
    }
    Some(1)
}

/// Deletes the objects of a key. Returns how many objects the table then has.
pub fn delete_key<R: Rows>(table: &mut Table<R>, key: Integer, leave_tombstone: bool) -> Integer {
    let key = Term::Int(key);
    table.delete_key(&key, leave_tombstone);
    drop(key);
    as_integer(table.size())
}

/// Deletes all objects. Returns how many slots the table then has.
pub fn clear<R: Rows>(table: &mut Table<R>, leave_tombstone: bool) -> Integer {
    table.delete_all(leave_tombstone);
    as_integer(table.slots())
}

/// Removes the tombstones. Returns how many slots the table then has.
pub fn purge<R: Rows>(table: &mut Table<R>) -> Integer {
    table.purge();
    as_integer(table.slots())
}

/// Builds the pair of a key and a term of this depth.
pub fn deep_object(alloc: Global, key: Integer, depth: usize) -> Option<Term> {
    let value = nested_list(alloc, depth)?;
    pair(alloc, Term::Int(key), value)
}

/// Inserts an object, and drops the argument. Returns 1 or the code of the refusal.
pub fn insert<R: Rows>(table: &mut Table<R>, built: Option<Term>) -> Option<Integer> {
    let object = built?;
    let answer = try_insert(table, slice::from_ref(&object));
    drop(object);
    Some(answer)
}

/// Inserts an object if its key is new, and drops the argument. Returns 1 or 0 for true or false, or the code of the
/// refusal.
pub fn insert_new<R: Rows>(table: &mut Table<R>, built: Option<Term>) -> Option<Integer> {
    let object = built?;
    let answer = try_insert_new(table, slice::from_ref(&object));
    drop(object);
    Some(answer)
}

/// Inserts a list of objects, and drops the argument. Returns 1 or the code of the refusal.
pub fn insert_all<R: Rows>(table: &mut Table<R>, built: Option<Items<Term>>) -> Option<Integer> {
    let objects = built?;
    let answer = try_insert(table, objects.as_slice());
    drop(objects);
    Some(answer)
}

/// Returns the second elements of the objects of a key, as digits.
pub fn lookup_digits<R: Rows>(table: &Table<R>, key: Integer) -> Integer {
    let key = Term::Int(key);
    let digits = digits_of_stored(table.lookup(&key));
    drop(key);
    digits
}
