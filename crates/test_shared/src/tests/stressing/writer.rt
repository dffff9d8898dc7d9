//! The calls of a writer: it inserts and deletes in batches, and it inherits the tables of its guests.
// The batches make its table grow. Table `tN` is the table of process N. A writer or a batch 'is right' if all its
// replies are right.
use super::{BATCHES, GUESTS, KEPT_KEYS};
use crate::tests::calls::{
    build_call, build_formatted_call, caller_gets_value_formatted, is_list, read_gives_list,
};
use ets_term::KeyHash;
use node_core::Call;
use node_shared::{Caller, HistoryId, Server};
use std::alloc::Global;
use std::sync::Wait;

/// The number of keys that a batch inserts.
const INSERTIONS_PER_BATCH: u32 = 8;

/// The number of keys that a batch then deletes: the first of those that it inserted.
const DELETIONS_PER_BATCH: u32 = 2;

/// Makes all calls of a writer, in batches, and inherits from each guest. Returns whether all replies are right.
pub(super) fn writer_is_right<B: HistoryId, H: KeyHash + Copy + Drop, R: Wait>(
    rt: &R,
    alloc: Global,
    server: &Server<B, H>,
    caller: &mut Caller<B>,
    guests: &mut Vec<Caller<B>>,
) -> Option<bool> {
    for number in 0..BATCHES {
        let is_right = if number % (BATCHES / GUESTS) == 0 {
            inherits_from_guest(rt, alloc, server, caller, guests)?
        } else {
            true
        };
        if !(is_right && batch_is_right(rt, alloc, server, caller, number)?) {
            return Some(false);
        }
    }
    Some(true)
}

/// Makes the calls of a batch under one lock, and then reads its last object. `number` is that of the batch. Returns
/// whether all replies are right.
fn batch_is_right<B: HistoryId, H: KeyHash + Copy + Drop, R: Wait>(
    rt: &R,
    alloc: Global,
    server: &Server<B, H>,
    caller: &mut Caller<B>,
    number: u32,
) -> Option<bool> {
    let first = number
        .wrapping_mul(INSERTIONS_PER_BATCH)
        .wrapping_add(KEPT_KEYS);
    let last = first.wrapping_add(INSERTIONS_PER_BATCH - 1);
    let own_table = caller.pid();
    let is_written = all_get_values(rt, server, caller, batch(alloc, own_table, first)?)?;
    let arguments = format!(in alloc; "[t{own_table},{{{last},{number}}}]");
    Some(is_written && read_gives_list(rt, alloc, server, caller, ("match_object", arguments), 1)?)
}

/// Makes the calls, and then runs at most `2 * INSERTIONS_PER_BATCH` growth steps, under one lock, by `ask_all`.
/// Returns whether all replies are values.
fn all_get_values<B: HistoryId, H: KeyHash + Copy + Drop, R: Wait>(
    rt: &R,
    server: &Server<B, H>,
    caller: &mut Caller<B>,
    calls: Vec<Call>,
) -> Option<bool> {
    let count = calls.len();
    let replies = caller
        .ask_all(rt, server, calls, 2 * INSERTIONS_PER_BATCH)
        .ok()?;
    Some(replies.len() == count && replies.iter().all(|reply| reply.is_value()))
}

/// Returns the calls of the batch whose first key is `first`. They insert its keys, each with the number of the batch
/// as its value, and then delete the first keys.
fn batch(alloc: Global, own_table: u32, first: u32) -> Option<Vec<Call>> {
    let number = first.wrapping_sub(KEPT_KEYS) / INSERTIONS_PER_BATCH;
    let mut calls = Vec::new(alloc);
    for index in 0..INSERTIONS_PER_BATCH {
        let key = first.wrapping_add(index);
        let arguments = format!(in alloc; "[t{own_table},{{{key},{number}}}]");
        calls
            .push(build_formatted_call(alloc, ("insert", arguments))?)
            .ok()?;
    }
    push_deletions(&mut calls, own_table, first)?;
    Some(calls)
}

/// Appends the deletions of the batch whose first key is `first`.
fn push_deletions(calls: &mut Vec<Call>, own_table: u32, first: u32) -> Option<()> {
    let alloc = *calls.allocator();
    for index in 0..DELETIONS_PER_BATCH {
        let key = first.wrapping_add(index);
        let arguments = format!(in alloc; "[t{own_table},{key}]");
        calls
            .push(build_formatted_call(alloc, ("delete", arguments))?)
            .ok()?;
    }
    Some(())
}

/// Lets a guest make a table, fill it and end. Returns whether the caller inherits the table with its objects.
fn inherits_from_guest<B: HistoryId, H: KeyHash + Copy + Drop, R: Wait>(
    rt: &R,
    alloc: Global,
    server: &Server<B, H>,
    caller: &mut Caller<B>,
    guests: &mut Vec<Caller<B>>,
) -> Option<bool> {
    let mut guest = guests.pop()?;
    let both_are_values = leaves_table(rt, alloc, server, &mut guest, caller.pid())?;
    let table = guest.pid();
    drop(guest);
    Some(both_are_values && inherits(rt, alloc, server, caller, table)?)
}

/// Makes the table of a guest, which has an heir, fills it, and ends the guest. Returns whether both replies are
/// values.
fn leaves_table<B: HistoryId, H: KeyHash + Copy + Drop, R: Wait>(
    rt: &R,
    alloc: Global,
    server: &Server<B, H>,
    guest: &mut Caller<B>,
    heir: u32,
) -> Option<bool> {
    let table = guest.pid();
    let options = format!(in alloc; "[t{table},[named_table,{{heir,<0.{heir}.0>,gift}}]]");
    let is_made = caller_gets_value_formatted(rt, alloc, server, guest, ("new", options))?;
    let objects = format!(in alloc; "[t{table},[{{1}},{{2}},{{3}}]]");
    let is_filled = caller_gets_value_formatted(rt, alloc, server, guest, ("insert", objects))?;
    guest.end(rt, server).ok()?;
    Some(is_made && is_filled)
}

/// Returns whether the caller has one message, and can read the objects of the inherited table and delete it.
fn inherits<B: HistoryId, H: KeyHash + Copy + Drop, R: Wait>(
    rt: &R,
    alloc: Global,
    server: &Server<B, H>,
    caller: &mut Caller<B>,
    table: u32,
) -> Option<bool> {
    let has_message = has_one_message(rt, alloc, server, caller)?;
    let name = format!(in alloc; "[t{table}]");
    let has_objects = read_gives_list(rt, alloc, server, caller, ("tab2list", name), 3)?;
    let name = format!(in alloc; "[t{table}]");
    let is_deleted = caller_gets_value_formatted(rt, alloc, server, caller, ("delete", name))?;
    Some(has_message && has_objects && is_deleted)
}

/// Takes the caller's messages. Returns whether there is exactly one.
fn has_one_message<B: HistoryId, H: KeyHash + Copy + Drop, R: Wait>(
    rt: &R,
    alloc: Global,
    server: &Server<B, H>,
    caller: &mut Caller<B>,
) -> Option<bool> {
    let receive = build_call(alloc, ("receive", "[]"))?;
    let messages = caller.ask(rt, server, receive).ok()?;
    Some(is_list(&messages, 1))
}
