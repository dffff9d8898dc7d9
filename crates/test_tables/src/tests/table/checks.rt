//! The checks of tables, as one enum. Each runs on a new table, and all of them share the functions that create and
//! drop tables.
use super::answers::Answer;
use super::bad_objects::refuses_bad_terms;
use super::lists::{Row, inserts, inserts_new};
use super::long::{answers_as_it_grows, answers_as_plain_table};
use super::objects::end_of_table_is_not_a_key;
use super::refused::{looks_never_fall, steps_have_answers_with_retry};
use super::searches::{searches_are_right, tests_each_of_three};
use super::{EmptyTable, Step, plain_table, split_table, steps_have_answers};
use bucket_table::Rows;
use ets_term::{Fnv, KeyHash, Term};
use std::alloc::Global;
use table_ops::Table;

/// What a new table must do. `passes` names the function that checks each.
#[derive(Clone, Copy)]
pub enum Check<'a> {
    /// Gives these answers.
    Answer(&'a [(Step, Answer)]),
    /// Gives these answers. A step that runs out of memory is run a second time.
    AnswerWithRetry(&'a [(Step, Answer)]),
    /// Answers a long run of steps as a table over plain rows does.
    AnswerAsPlainTable,
    /// Gives right answers while objects are inserted one by one and the buckets double.
    AnswerAsItGrows,
    /// Inserts a list as the row says.
    Insert(&'a [Term], Row),
    /// Inserts a list of new objects as the row says.
    InsertNew(&'a [Term], Row),
    /// Refuses to insert terms that are not objects.
    RefuseBadTerms,
    /// Stores nothing under the key `'$end_of_table'`.
    RefuseEndOfTable,
    /// Finds and deletes by patterns and match specifications, and tests as many objects as it must.
    SearchByKeys,
    /// Matches, in a search by a key with three objects, the pattern against each of the three, and counts them.
    TestEachOfThree,
    /// Never lowers the count of tested objects in a search, also when memory runs out.
    NeverLowerLooks,
}

/// Returns whether a table passes a check. `None` means out of memory.
fn passes<R: Rows>(alloc: Global, table: &mut Table<R>, check: Check) -> Option<bool> {
    match check {
        Check::Answer(steps) => Some(steps_have_answers(alloc, table, steps)),
        Check::AnswerWithRetry(steps) => Some(steps_have_answers_with_retry(alloc, table, steps)),
        Check::AnswerAsPlainTable => Some(answers_as_plain_table(alloc, table)),
        Check::AnswerAsItGrows => Some(answers_as_it_grows(alloc, table)),
        Check::Insert(list, row) => Some(inserts(table, list, row)),
        Check::InsertNew(list, row) => Some(inserts_new(table, list, row)),
        Check::RefuseBadTerms => refuses_bad_terms(alloc, table),
        Check::RefuseEndOfTable => end_of_table_is_not_a_key(alloc, table),
        Check::SearchByKeys => searches_are_right(alloc, table),
        Check::TestEachOfThree => tests_each_of_three(alloc, table),
        Check::NeverLowerLooks => Some(looks_never_fall(alloc, table)),
    }
}

/// Returns whether a table over plain rows passes a check. `None` means out of memory.
pub fn plain_table_passes(alloc: Global, empty: EmptyTable, check: Check) -> Option<bool> {
    let mut table = plain_table(alloc, empty);
    let passed = passes(alloc, &mut table, check);
    drop(table);
    passed
}

/// Returns whether a table over split rows with this hasher passes a check. `None` means out of memory.
pub fn split_table_passes<H: KeyHash + Copy + Drop>(
    alloc: Global,
    hasher: H,
    empty: EmptyTable,
    check: Check,
) -> Option<bool> {
    let mut table = split_table(alloc, hasher, empty)?;
    let passed = passes(alloc, &mut table, check);
    drop(table);
    passed
}

/// Returns whether tables over plain rows and over split rows with the usual hasher both pass a check. Out of memory is
/// `false`.
pub fn both_tables_pass(alloc: Global, empty: EmptyTable, check: Check) -> bool {
    plain_table_passes(alloc, empty, check) == Some(true)
        && split_table_passes(alloc, Fnv, empty, check) == Some(true)
}
