//! Lists of objects and one bad term, which is not an object, at each index. `insert` and `insert_new` must refuse each
//! list and insert none of it.
use super::answers::Answer::{Badarg, True};
use super::checks::{Check, plain_table_passes, split_table_passes};
use super::objects::object_under_end_of_table;
use super::single_calls::{insert, try_insert, try_insert_new};
use super::terms::{as_integer, push_built, tuple};
use super::{EmptyTable, Keypos, MaxObjects};
use bucket_table::Rows;
use ets_term::{Fnv, Items, Term};
use std::alloc::Global;
use std::process::Abort;
use table_ops::{Kind, Table};

/// Returns a copy of the bad term at its index, and at each other index an object whose key is the index. `None` means
/// out of memory.
fn item_at(alloc: Global, index: usize, bad_index: usize, bad: &Term) -> Option<Term> {
    if index == bad_index {
        bad.try_clone(alloc).ok()
    } else {
        tuple(alloc, &[as_integer(index), 1])
    }
}

/// Appends `length` terms: the bad term at one index, and objects at all others. `None` means out of memory.
fn push_objects(
    alloc: Global,
    objects: &mut Items<Term>,
    length: usize,
    bad_index: usize,
    bad: &Term,
) -> Option<()> {
    for index in 0..length {
        push_built(objects, item_at(alloc, index, bad_index, bad))?;
    }
    Some(())
}

/// Returns whether `insert` and `insert_new` refuse a list of this length with the bad term at an index. The table must
/// also keep the one object that it had. `None` means out of memory.
fn refuses_list_with_bad<R: Rows>(
    alloc: Global,
    table: &mut Table<R>,
    length: usize,
    bad_index: usize,
    bad: &Term,
) -> Option<bool> {
    let mut objects = Items::new(alloc);
    let pushed = push_objects(alloc, &mut objects, length, bad_index, bad);
    let code = try_insert(table, objects.as_slice());
    let code_of_new = try_insert_new(table, objects.as_slice());
    drop(objects);
    // Out of memory is reported here, after the list is dropped.
    pushed?;
    Some(code == Badarg.code() && code_of_new == Badarg.code() && table.size() == 1)
}

/// The length of a list with a bad term.
const LENGTH: usize = 5;

/// Returns whether each list with the bad term at an index is refused, and the list of the bad term alone too.
fn refuses_at_each_index<R: Rows>(alloc: Global, table: &mut Table<R>, bad: &Term) -> bool {
    for bad_index in 0..LENGTH {
        if refuses_list_with_bad(alloc, table, LENGTH, bad_index, bad) != Some(true) {
            return false;
        }
    }
    refuses_list_with_bad(alloc, table, 1, 0, bad) == Some(true)
}

/// Returns whether each list with the built term is refused, and drops the term. `None` means out of memory.
fn refuses_and_drops<R: Rows>(
    alloc: Global,
    table: &mut Table<R>,
    built: Option<Term>,
) -> Option<bool> {
    let bad = built?;
    let refused = refuses_at_each_index(alloc, table, &bad);
    drop(bad);
    Some(refused)
}

/// Inserts `{3,0}`. Returns whether lists with 7, with `{}` and with `{'$end_of_table',1}` are then refused. `None`
/// means out of memory.
pub fn refuses_bad_terms<R: Rows>(alloc: Global, table: &mut Table<R>) -> Option<bool> {
    Some(
        insert(table, tuple(alloc, &[3, 0]))? == True.code()
            && refuses_and_drops(alloc, table, Some(Term::Int(7)))?
            && refuses_and_drops(alloc, table, tuple(alloc, &[]))?
            && refuses_and_drops(alloc, table, object_under_end_of_table(alloc))?,
    )
}

#[test]
fn a_bad_object_at_each_index_is_refused(rt: HostRuntime) {
    let alloc = rt.alloc();
    let set = EmptyTable(Kind::Set, Keypos(1), MaxObjects(10));
    let bag = EmptyTable(Kind::DuplicateBag, Keypos(1), MaxObjects(10));
    assert!(rt; plain_table_passes(alloc, set, Check::RefuseBadTerms) == Some(true));
    assert!(rt; split_table_passes(alloc, Fnv, bag, Check::RefuseBadTerms) == Some(true));
}
