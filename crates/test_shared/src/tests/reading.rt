//! A test of reads of a server: a caller reads what it inserted.
// `read` replies, but adds no step to the history of the process. For a call that may change the table it does nothing,
// and returns `None`.
ghost use Rattle.std.specs.Prelude.{◌≡◌};

use super::calls::{build_call, build_calls};
use super::{join_callers, limits};
use ets_term::Fnv;
use node_core::{Call, Limits, Reply};
use node_shared::{Caller, HistoryId, Locking, NewHistory, Server};
use std::alloc::{AllocError, Global};
use std::marker::Brand;
use std::sync::Wait;
use std::test::Fail;
use term_text::print_term;

/// The calls that make a table and insert an object, each a name and its arguments.
const INSERTION: [(&str, &str); 2] = [("new", "[t,[named_table]]"), ("insert", "[t,{1,a}]")];

/// A read of the object, a read of an unknown table, a call that is not a read, and a read of the size.
const READS: [(&str, &str); 4] = [
    ("lookup", "[t,1]"),
    ("lookup", "[u,1]"),
    ("insert", "[t,{2}]"),
    ("info", "[t,size]"),
];

/// Their replies when they are made by `read` or `read_all`. There is no table u.
const REPLIES: &str = "[{1,a}];badarg;no read;1;";

/// Two reads, and a call that is not a read, for `read_into`, which writes each reply over the previous one.
const READS_INTO: [(&str, &str); 3] = [
    ("lookup", "[t,1]"),
    ("info", "[t,size]"),
    ("insert", "[t,{2}]"),
];

/// The reply after each of them. The insertion must leave it as it is, since it is not a read.
const REPLIES_INTO: &str = "[{1,a}];1;1; stays";

/// Appends the text of a reply and a semicolon: the value, the refusal, or `no read` if the call was not a read.
fn push_reply(alloc: Global, reply: Option<&Reply>, text: &mut String) -> Result<(), AllocError> {
    match reply {
        Some(Reply::Value(value)) => print_term(alloc, value, text)?,
        Some(Reply::Badarg) => text.push_str("badarg")?,
        Some(Reply::SystemLimit) => text.push_str("system_limit")?,
        Some(Reply::NoProcess) => text.push_str("no process")?,
        None => text.push_str("no read")?,
    }
    text.push_str(";")
}

/// Makes a call by `read`, and appends the reply.
fn push_read<B: HistoryId, R: Wait>(
    rt: &R,
    server: &Server<B, Fnv>,
    caller: &mut Caller<B>,
    request: &Call,
    text: &mut String,
) -> Option<()> {
    let alloc = *text.allocator();
    let reply = caller.read(rt, server, request).ok()?;
    push_reply(alloc, reply.as_ref(), text).ok()
}

/// Makes the calls `READS` one by one, by `read`. Returns whether their replies are `REPLIES`.
fn single_reads_are_right<B: HistoryId, R: Wait>(
    rt: &R,
    alloc: Global,
    server: &Server<B, Fnv>,
    caller: &mut Caller<B>,
) -> Option<bool> {
    let calls = build_calls(alloc, &READS)?;
    let mut text = String::new(alloc);
    for call in calls.as_slice() {
        push_read(rt, server, caller, call, &mut text)?;
    }
    Some(text.as_str() == REPLIES)
}

/// Makes the calls `READS` together, by `read_all`. Returns whether their replies are `REPLIES`.
fn reads_by_read_all_are_right<B: HistoryId, R: Wait>(
    rt: &R,
    alloc: Global,
    server: &Server<B, Fnv>,
    caller: &mut Caller<B>,
) -> Option<bool> {
    let calls = build_calls(alloc, &READS)?;
    let replies = caller.read_all(rt, alloc, server, calls.as_slice()).ok()?;
    drop(calls);
    let mut text = String::new(alloc);
    for reply in replies.as_slice() {
        push_reply(alloc, reply.as_ref(), &mut text).ok()?;
    }
    Some(text.as_str() == REPLIES)
}

/// Makes a call by `read_into`, and appends the reply. Appends ` stays` if the call was not a read and wrote no reply.
fn push_read_into<B: HistoryId, R: Wait>(
    rt: &R,
    server: &Server<B, Fnv>,
    caller: &mut Caller<B>,
    (request, reply): (&Call, &mut Reply),
    text: &mut String,
) -> Option<()> {
    let alloc = *text.allocator();
    let has_replied = caller.read_into(rt, server, request, reply).ok()?;
    push_reply(alloc, Some(&*reply), text).ok()?;
    text.push_str(if has_replied { "" } else { " stays" }).ok()
}

/// Makes the calls `READS_INTO` by `read_into`, each over the previous reply. Returns whether the replies are
/// `REPLIES_INTO`.
fn reads_into_one_reply_are_right<B: HistoryId, R: Wait>(
    rt: &R,
    alloc: Global,
    server: &Server<B, Fnv>,
    caller: &mut Caller<B>,
) -> Option<bool> {
    let calls = build_calls(alloc, &READS_INTO)?;
    let mut reply = Reply::NoProcess;
    let mut text = String::new(alloc);
    for call in calls.as_slice() {
        push_read_into(rt, server, caller, (call, &mut reply), &mut text)?;
    }
    Some(text.as_str() == REPLIES_INTO)
}

/// Makes a table and inserts an object under one lock, by `ask_all`, without any growth steps. Returns whether there
/// are two replies.
fn inserts_object<B: HistoryId, R: Wait>(
    rt: &R,
    alloc: Global,
    server: &Server<B, Fnv>,
    caller: &mut Caller<B>,
) -> Option<bool> {
    let calls = build_calls(alloc, &INSERTION)?;
    let replies = caller.ask_all(rt, server, calls, 0).ok()?;
    Some(replies.len() == 2)
}

/// Ends the process of a caller. Returns whether its next read has the reply `NoProcess`.
fn read_is_refused_after_end<B: HistoryId, R: Wait>(
    rt: &R,
    alloc: Global,
    server: &Server<B, Fnv>,
    caller: &mut Caller<B>,
) -> Option<bool> {
    let lookup = build_call(alloc, ("lookup", "[t,1]"))?;
    caller.end(rt, server).ok()?;
    let after_end = caller.read(rt, server, &lookup).ok()?;
    Some(matches!(after_end, Some(Reply::NoProcess)))
}

/// Inserts an object, reads it in all three ways, and ends the process. Returns whether each read has the right reply,
/// also after the end.
fn reads_what_it_inserted<B: HistoryId, R: Wait>(
    rt: &R,
    alloc: Global,
    server: &Server<B, Fnv>,
    caller: &mut Caller<B>,
) -> Option<bool> {
    let is_right = inserts_object(rt, alloc, server, caller)?
        && single_reads_are_right(rt, alloc, server, caller)?
        && reads_by_read_all_are_right(rt, alloc, server, caller)?
        && reads_into_one_reply_are_right(rt, alloc, server, caller)?;
    Some(is_right && read_is_refused_after_end(rt, alloc, server, caller)?)
}

/// Enrols a process. Returns whether its caller reads what it inserted.
fn new_caller_reads_what_it_inserted<B: HistoryId, R: Wait>(
    rt: &R,
    alloc: Global,
    server: &Server<B, Fnv>,
) -> Option<bool> {
    let mut callers = join_callers(rt, alloc, server, 1)?;
    reads_what_it_inserted(rt, alloc, server, callers.first_mut()?)
}

/// Creates a server, and returns whether a caller reads what it inserted. `B` names the history and the limits, by
/// the book of the kit's crate `logbook` that has the history, and the key of its first pen.
fn new_server_replies_to_reads<B: HistoryId, R: Wait>(
    rt: &R,
    alloc: Global,
    locking: Locking,
    history: NewHistory,
    limits: Limits,
) -> Option<bool>
    requires book { history.seen.book ≡ B.book }
    requires root { history.turn.nib.key ≡ B.root }
    requires limits { limits ≡ B.limits }
{
    let server = Server::<B, Fnv>::new(alloc, locking, history, limits, Fnv).ok()?;
    new_caller_reads_what_it_inserted(rt, alloc, &server)
}

#[test]
fn a_caller_reads_what_it_inserted(rt: HostRuntime) -> Result<(), Fail> {
    for locking in [Locking::Single, Locking::Sharded] {
        let history = NewHistory::new();
        let is_right = new_server_replies_to_reads::<Brand, _>(
            &rt,
            rt.alloc(),
            locking,
            history,
            limits(1),
        );
        assert!(rt; is_right.ok_or("no memory, or a refused enrolment")?);
    }
    Ok(())
}
