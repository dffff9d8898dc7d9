//! The calls of a reader: it reads the tables of the writers and its own, and it fixes and traverses the tables of the
//! writers.
// Table `tN` is the table of process N. A reader or a turn 'is right' if all its replies are right.
use super::{KEPT_KEYS, READER_OPERATIONS, WRITERS};
use crate::tests::calls::{build_formatted_call, caller_gets_value_formatted, read_gives_list};
use ets_term::{KeyHash, Term};
use node_core::Reply;
use node_shared::{Caller, HistoryId, Server};
use std::alloc::{AllocError, Global};
use std::sync::Wait;

/// More keys than a table has: a bound of the loop over its keys.
const MAX_KEYS: u32 = 1_000_000;

/// The number of turns in which a reader traverses the table of each writer once.
const TRAVERSAL_PERIOD: u32 = 50_000;

/// The turns of a period in which a reader traverses the table of the first and of the second writer. Each is 2 more
/// than a multiple of `OWN_WRITE_PERIOD`, since the multiple itself is a write, and the turn after it a read.
const TRAVERSALS: [u32; 2] = [25_002, 45_002];

/// In each period of this number of turns, turn 0 writes the own table of the reader, and turn 1 reads what it wrote.
const OWN_WRITE_PERIOD: u32 = 20;

/// The difference between the keys of successive turns. It has no common divisor with `KEPT_KEYS` but 1.
const KEY_DISTANCE: u32 = 7;

/// Makes all calls of a reader. Returns whether all replies are right.
pub(super) fn reader_is_right<B: HistoryId, H: KeyHash + Copy + Drop, R: Wait>(
    rt: &R,
    alloc: Global,
    server: &Server<B, H>,
    caller: &mut Caller<B>,
) -> Option<bool> {
    for turn in 0..READER_OPERATIONS {
        if !turn_is_right(rt, alloc, server, caller, turn)? {
            return Some(false);
        }
    }
    Some(true)
}

/// Makes the call of a turn: a traversal, a write, a read of what was written, or mostly a lookup of a kept key.
/// Returns whether its reply is right.
fn turn_is_right<B: HistoryId, H: KeyHash + Copy + Drop, R: Wait>(
    rt: &R,
    alloc: Global,
    server: &Server<B, H>,
    caller: &mut Caller<B>,
    turn: u32,
) -> Option<bool> {
    let [one, other] = WRITERS;
    let [turn_of_one, turn_of_other] = TRAVERSALS;
    // A lookup in an even turn is in the table of the first writer, in an odd turn in that of the second.
    let writer = if turn % 2 == 0 { one } else { other };
    let own_table = caller.pid();
    match turn % OWN_WRITE_PERIOD {
        0 => {
            let object = format!(in alloc; "[t{own_table},{{own,{turn}}}]");
            caller_gets_value_formatted(rt, alloc, server, caller, ("insert", object))
        }
        1 => {
            let written = turn.wrapping_sub(1);
            let pattern = format!(in alloc; "[t{own_table},{{own,{written}}}]");
            read_gives_list(rt, alloc, server, caller, ("match_object", pattern), 1)
        }
        _ if turn % TRAVERSAL_PERIOD == turn_of_one => traversal_is_exact(
            rt, alloc, server, caller, one,
        ),
        _ if turn % TRAVERSAL_PERIOD == turn_of_other => traversal_is_exact(
            rt, alloc, server, caller, other,
        ),
        _ => {
            let key = turn.wrapping_mul(KEY_DISTANCE) % KEPT_KEYS;
            let arguments = format!(in alloc; "[t{writer},{key}]");
            read_gives_list(rt, alloc, server, caller, ("lookup", arguments), 1)
        }
    }
}

/// Fixes the table of a writer, traverses it, and releases it. Returns whether each kept key was visited once.
fn traversal_is_exact<B: HistoryId, H: KeyHash + Copy + Drop, R: Wait>(
    rt: &R,
    alloc: Global,
    server: &Server<B, H>,
    caller: &mut Caller<B>,
    writer: u32,
) -> Option<bool> {
    let fix = format!(in alloc; "[t{writer},true]");
    let is_fixed = caller_gets_value_formatted(rt, alloc, server, caller, ("safe_fixtable", fix))?;
    let is_whole = visits_each_kept_key_once(rt, alloc, server, caller, writer)?;
    let release = format!(in alloc; "[t{writer},false]");
    let is_released = caller_gets_value_formatted(
        rt,
        alloc,
        server,
        caller,
        ("safe_fixtable", release),
    )?;
    Some(is_fixed && is_whole && is_released)
}

/// Traverses the table of a writer. Returns whether each kept key was visited once.
fn visits_each_kept_key_once<B: HistoryId, H: KeyHash + Copy + Drop, R: Wait>(
    rt: &R,
    alloc: Global,
    server: &Server<B, H>,
    caller: &mut Caller<B>,
    writer: u32,
) -> Option<bool> {
    let mut visits = Vec::new(alloc);
    visits.resize(KEPT_KEYS as usize, 0).ok()?;
    count_visits(rt, server, caller, writer, &mut visits)?;
    Some(visits.iter().all(|times| *times == 1))
}

/// Traverses the table of a writer, and counts in `visits` how often each kept key is visited.
fn count_visits<B: HistoryId, H: KeyHash + Copy + Drop, R: Wait>(
    rt: &R,
    server: &Server<B, H>,
    caller: &mut Caller<B>,
    writer: u32,
    visits: &mut Vec<u8>,
) -> Option<()> {
    let alloc = *visits.allocator();
    let first = format!(in alloc; "[t{writer}]");
    let mut current = key_of(rt, alloc, server, caller, ("first", first))?;
    for _ in 0..MAX_KEYS {
        let Some(key) = current else {
            break;
        };
        // Other keys than the kept ones are not counted.
        if let Some(times) = visits.get_mut(key as usize) {
            *times = u8::saturating_add(*times, 1);
        }
        let next = format!(in alloc; "[t{writer},{key}]");
        current = key_of(rt, alloc, server, caller, ("next", next))?;
    }
    Some(())
}

/// Makes a read, and returns the key that is its reply. The inner `None` is a reply that is not an integer, as at the
/// end of the table.
fn key_of<B: HistoryId, H: KeyHash + Copy + Drop, R: Wait>(
    rt: &R,
    alloc: Global,
    server: &Server<B, H>,
    caller: &mut Caller<B>,
    text: (&str, Result<String, AllocError>),
) -> Option<Option<u32>> {
    let request = build_formatted_call(alloc, text)?;
    Some(match caller.read(rt, server, &request).ok()? {
        Some(Reply::Value(Term::Int(key))) => u32::try_from(key).ok(),
        _ => None,
    })
}
