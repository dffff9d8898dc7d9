//! Insertions of one list of 10,000 objects whose keys repeat. A table of each kind inserts the list whole, or refuses
//! it if it would exceed its greatest number of objects.
// The key of an object is its index modulo `KEYS`, its value the last digit of the index.
use super::answers::Answer::{self, False, SystemLimit, True};
use super::checks::{Check, both_tables_pass};
use super::single_calls::{lookup_digits, try_insert, try_insert_new};
use super::terms::{push_built, tuple};
use super::{EmptyTable, Keypos, MaxObjects};
use bucket_table::Rows;
use ets_term::{Integer, Items, Term};
use std::alloc::Global;
use std::process::Abort;
use table_ops::{Kind, Table};

/// The length of the list, and so the number of objects in a duplicate bag.
const OBJECTS: u32 = 10_000;

/// The number of different keys, and so of objects in a set.
const KEYS: u32 = 97;

/// The number of different objects, and so of objects in a bag: each key has ten values.
const DIFFERENT_OBJECTS: u32 = 970;

/// A table into which the list is inserted, the answer, and what the table then has.
#[derive(Clone, Copy)]
pub struct Row {
    kind: Kind,
    /// The greatest number of objects that the table may have.
    max_objects: MaxObjects,
    /// The answer to the insertion of the list.
    answer: Answer,
    /// How many objects the table then has.
    objects: u32,
    /// How many slots the table then has.
    slots: u32,
    /// The values of key 0 as the decimal digits of one number, which may wrap.
    digits: Integer,
}

/// For each kind of table, one row at its limit of objects and one whose limit is one less.
const ROWS: [Row; 6] = [
    Row {
        kind: Kind::Set,
        max_objects: MaxObjects(KEYS),
        answer: True,
        objects: KEYS,
        slots: KEYS,
        digits: 1,
    },
    Row {
        kind: Kind::Set,
        max_objects: MaxObjects(KEYS - 1),
        answer: SystemLimit,
        objects: 0,
        slots: 0,
        digits: 0,
    },
    Row {
        kind: Kind::Bag,
        max_objects: MaxObjects(DIFFERENT_OBJECTS),
        answer: True,
        objects: DIFFERENT_OBJECTS,
        slots: KEYS,
        digits: DIGITS_IN_BAG,
    },
    Row {
        kind: Kind::Bag,
        max_objects: MaxObjects(DIFFERENT_OBJECTS - 1),
        answer: SystemLimit,
        objects: 0,
        slots: 0,
        digits: 0,
    },
    Row {
        kind: Kind::DuplicateBag,
        max_objects: MaxObjects(OBJECTS),
        answer: True,
        objects: OBJECTS,
        slots: KEYS,
        digits: DIGITS_IN_DUPLICATE_BAG,
    },
    Row {
        kind: Kind::DuplicateBag,
        max_objects: MaxObjects(OBJECTS - 1),
        answer: SystemLimit,
        objects: 0,
        slots: 0,
        digits: 0,
    },
];

/// The ten different values of key 0 as digits: 0, 7, 4 and so on, because its objects have the indexes 0, 97, 194 and
/// so on.
const DIGITS_IN_BAG: Integer = 741_852_963;

/// The 104 values of key 0 as digits. A number of 104 digits wraps, so this is its remainder modulo 2^128.
const DIGITS_IN_DUPLICATE_BAG: Integer = 17_411_923_686_422_082_608_420_841_024_488_311_317;

/// Appends `OBJECTS` objects, in the order of their indexes. `None` means out of memory.
fn push_objects(alloc: Global, objects: &mut Items<Term>) -> Option<()> {
    for index in 0..OBJECTS {
        let key = Integer::from(index % KEYS);
        let value = Integer::from(index % 10);
        push_built(objects, tuple(alloc, &[key, value]))?;
    }
    Some(())
}

/// Returns whether a table has as many objects and slots as the row says, and these values of key 0.
fn has_contents<R: Rows>(table: &Table<R>, row: Row) -> bool {
    table.size() == row.objects as usize
        && table.slots() == row.slots as usize
        && lookup_digits(table, 0) == row.digits
}

/// Returns whether `insert` of the list does what the row says.
pub fn inserts<R: Rows>(table: &mut Table<R>, list: &[Term], row: Row) -> bool {
    try_insert(table, list) == row.answer.code() && has_contents(table, row)
}

/// Returns whether `insert_new` of the list does what the row says, and a second `insert_new` does not insert the list.
pub fn inserts_new<R: Rows>(table: &mut Table<R>, list: &[Term], row: Row) -> bool {
    let answer = row.answer.code();
    let second_answer = match row.answer {
        True => False.code(),
        _ => answer,
    };
    try_insert_new(table, list) == answer
        && has_contents(table, row)
        && try_insert_new(table, list) == second_answer
}

/// Returns whether `insert` and `insert_new` do what the row says, each on new tables over each form of rows.
fn row_holds(alloc: Global, list: &[Term], row: Row) -> bool {
    let empty = EmptyTable(row.kind, Keypos(1), row.max_objects);
    both_tables_pass(alloc, empty, Check::Insert(list, row))
        && both_tables_pass(alloc, empty, Check::InsertNew(list, row))
}

/// Returns the index of the first row whose insertion does not do what the row says, or `None` if each does.
fn first_row_mismatch(alloc: Global, list: &[Term], rows: &[Row]) -> Option<usize> {
    for (index, row) in rows.iter().enumerate() {
        if !row_holds(alloc, list, *row) {
            return Some(index);
        }
    }
    None
}

/// Builds the list, and returns whether its insertion does what each row says. `None` means out of memory.
fn all_rows_hold(alloc: Global, rows: &[Row]) -> Option<bool> {
    let mut list = Items::new(alloc);
    let pushed = push_objects(alloc, &mut list);
    let mismatch = first_row_mismatch(alloc, list.as_slice(), rows);
    drop(list);
    // Out of memory is reported here, after the list is dropped.
    pushed?;
    Some(mismatch == None)
}

#[test]
fn a_list_with_repeated_keys_is_inserted_whole_or_refused(rt: HostRuntime) {
    assert!(rt; all_rows_hold(rt.alloc(), &ROWS) == Some(true));
}
