//! The steps that tests make on a table with fixes, and their expected answers. An answer of any type has a code, a
//! number, by which it is compared with the expected one.
use crate::tests::fixes::{Key, Object, Pid, build_object, delete};
use bucket_table::{Growth, Readying, Rows};
use ets_term::{Integer, Items, Term};
use fixed_walk::{FixFault, Walked};
use std::alloc::Global;
use std::slice;
use table_ops::Refusal;

/// A step on a table: a call, a doubling, or the readying of a bucket.
#[derive(Clone, Copy)]
pub(super) enum Step {
    /// `insert` of one object.
    Insert(Object),
    /// `insert_new` of one object.
    InsertNew(Object),
    /// `lookup_element` of the second element of the object of a key.
    LookupSecond(Key),
    /// Deletes all objects of a key, and returns them.
    Take(Key),
    /// Deletes all objects of a key.
    Delete(Key),
    /// Deletes one object, if the table has it.
    DeleteObject(Object),
    /// Lists all objects of the table.
    AllObjects,
    /// Fixes the table for a process.
    Fix(Pid),
    /// Gives one fix of a process back.
    Release(Pid),
    /// Doubles the buckets.
    Grow,
    /// Makes the first unready bucket ready.
    Ready,
}

/// The expected answer of a call, or whether the table is still fixed after a release.
#[derive(Clone, Copy)]
pub(super) enum Expected {
    /// The call succeeds, and returns true if it returns a boolean.
    Done,
    /// The call returns false.
    NotDone,
    /// The call returns this number of objects.
    Objects(Integer),
    /// The table is still fixed after a release.
    IsFixed,
    /// The table is not fixed after a release.
    IsNotFixed,
    /// The call is refused, but not for memory.
    Refused,
}

impl Expected {
    /// Returns the code that `answer_code` returns for this answer.
    pub(super) fn code(self) -> Integer {
        match self {
            Expected::Done | Expected::IsFixed => 1,
            Expected::NotDone | Expected::IsNotFixed => 0,
            Expected::Objects(count) => count,
            Expected::Refused => OTHER_REFUSAL,
        }
    }
}

/// The code for a call that ran out of memory. It is negative, unlike each count and each value of the tests.
pub(super) const OUT_OF_MEMORY: Integer = -1;

/// The code for a call with another refusal, `badarg` or `system_limit`, or with an object that could not be built.
const OTHER_REFUSAL: Integer = -2;

/// Returns the code of a refusal.
fn refusal_code(refused: &Refusal) -> Integer {
    match refused {
        Refusal::Memory => OUT_OF_MEMORY,
        Refusal::Badarg | Refusal::SystemLimit => OTHER_REFUSAL,
    }
}

/// Returns 1 for a call that succeeded, or the code of its refusal.
fn done_code(outcome: Result<(), Refusal>) -> Integer {
    match outcome {
        Ok(()) => 1,
        Err(refused) => refusal_code(&refused),
    }
}

/// Builds an object. Retries once if memory is refused.
fn build_object_with_retry(alloc: Global, object: Object) -> Option<Term> {
    match build_object(alloc, object.0, object.1) {
        Some(made) => Some(made),
        None => build_object(alloc, object.0, object.1),
    }
}

/// Inserts an object. Returns 1, or the code of the refusal. For an object that could not be built it returns
/// `OTHER_REFUSAL`, because the table did not run out of memory.
pub(super) fn try_insert<R: Rows>(table: &mut Walked<R>, object: Option<Term>) -> Integer {
    let Some(object) = object else {
        return OTHER_REFUSAL;
    };
    let inserted = table.insert(slice::from_ref(&object));
    drop(object);
    done_code(inserted)
}

/// Inserts an object if its key is new. Returns 1 if it did, 0 if the key is not new, or the code of the refusal. For
/// an object that could not be built it returns `OTHER_REFUSAL`.
fn try_insert_new<R: Rows>(table: &mut Walked<R>, object: Option<Term>) -> Integer {
    let Some(object) = object else {
        return OTHER_REFUSAL;
    };
    let inserted = table.insert_new(slice::from_ref(&object));
    drop(object);
    match inserted {
        Ok(is_new) => Integer::from(is_new),
        Err(refused) => refusal_code(&refused),
    }
}

/// Deletes an object. Returns 1, or the code of the refusal. For an object that could not be built it returns
/// `OTHER_REFUSAL`.
pub(super) fn try_delete_object<R: Rows>(table: &mut Walked<R>, object: Option<Term>) -> Integer {
    let Some(object) = object else {
        return OTHER_REFUSAL;
    };
    let deleted = table.delete_object(&object);
    drop(object);
    done_code(deleted)
}

/// Returns the second element of the object of a key, which is an integer, or the code of the refusal.
pub(super) fn second_element<R: Rows>(table: &Walked<R>, key: Integer) -> Integer {
    let key = Term::Int(key);
    let found = table.lookup_element(&key, 2);
    drop(key);
    match found {
        Ok(element) => integer_or_zero_then_drop(element),
        Err(refused) => refusal_code(&refused),
    }
}

/// Returns the integer that a term is, or 0 for any other term, and drops the term.
fn integer_or_zero_then_drop(term: Term) -> Integer {
    let number = integer_or_zero(&term);
    drop(term);
    number
}

/// Returns the integer that a term is, or 0 for any other term.
pub(super) fn integer_or_zero(term: &Term) -> Integer {
    match term {
        Term::Int(number) => *number,
        _ => 0,
    }
}

/// Takes the objects of a key. Returns how many, or `OUT_OF_MEMORY`.
fn try_take<R: Rows>(table: &mut Walked<R>, key: Integer) -> Integer {
    let key = Term::Int(key);
    let taken = table.take(&key);
    drop(key);
    match taken {
        Ok(objects) => count_and_drop(objects),
        Err(_) => OUT_OF_MEMORY,
    }
}

/// Returns how many objects there are, and drops them.
fn count_and_drop(objects: Items<Term>) -> Integer {
    let count = objects.len() as Integer;
    drop(objects);
    count
}

/// Returns how many objects a table lists, or `OUT_OF_MEMORY`.
pub(super) fn count_objects<R: Rows>(table: &Walked<R>) -> Integer {
    match table.objects() {
        Ok(objects) => count_and_drop(objects),
        Err(_) => OUT_OF_MEMORY,
    }
}

/// Fixes the table for a process. Returns 1, or the code of the refusal.
fn try_fix<R: Rows>(table: &mut Walked<R>, pid: u32) -> Integer {
    match table.fix(pid) {
        Ok(()) => 1,
        Err(FixFault::Memory) => OUT_OF_MEMORY,
        Err(FixFault::SystemLimit) => OTHER_REFUSAL,
    }
}

/// Doubles the buckets. Returns 1 if it did, 0 if the rows do not grow, or `OUT_OF_MEMORY`.
fn try_grow<R: Rows>(table: &mut Walked<R>) -> Integer {
    match table.grow() {
        Ok(growth) => Integer::from(growth == Growth::Grown),
        Err(_) => OUT_OF_MEMORY,
    }
}

/// Makes the first unready bucket ready. Returns 1 if it did, 0 if all were ready, or `OUT_OF_MEMORY`.
fn try_ready<R: Rows>(table: &mut Walked<R>) -> Integer {
    // Bucket 0 is always ready, so it gives the answer 0 if all buckets are ready.
    let bucket = table.first_unready().unwrap_or(0);
    match table.ready(bucket) {
        Ok(readying) => Integer::from(readying == Readying::Ready),
        Err(_) => OUT_OF_MEMORY,
    }
}

/// Makes a step, and returns whether it has the wanted answer.
pub(super) fn has_wanted_answer<R: Rows>(
    alloc: Global,
    table: &mut Walked<R>,
    step: Step,
    wanted: Expected,
) -> bool {
    answer_code(alloc, table, step) == wanted.code()
}

/// Makes a step. Returns the code of its answer: 1 for success or true, 0 for false, a count, a value, or the code of a
/// refusal. After a release it returns whether the table is still fixed.
pub(super) fn answer_code<R: Rows>(alloc: Global, table: &mut Walked<R>, step: Step) -> Integer {
    match step {
        Step::Insert(object) => try_insert(table, build_object_with_retry(alloc, object)),
        Step::InsertNew(object) => try_insert_new(table, build_object_with_retry(alloc, object)),
        Step::DeleteObject(object) => try_delete_object(
            table,
            build_object_with_retry(alloc, object),
        ),
        Step::LookupSecond(key) => second_element(table, key.0),
        Step::Take(key) => try_take(table, key.0),
        Step::Delete(key) => {
            delete(table, key.0);
            1
        }
        Step::AllObjects => count_objects(table),
        Step::Fix(pid) => try_fix(table, pid.0),
        Step::Release(pid) => {
            table.release(pid.0);
            Integer::from(table.is_fixed())
        }
        Step::Grow => try_grow(table),
        Step::Ready => try_ready(table),
    }
}
