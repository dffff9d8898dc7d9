//! Helpers that build calls from text, make them, and check the replies. A call is a pair of texts: its name, and the
//! list of its arguments. Parameters `text` are such pairs. `None` means that a text is not a call, or that memory ran
//! out.
use ets_term::{Atom, KeyHash, Term};
use node_core::{Call, Reply};
use node_shared::{Caller, Client, HistoryId, Job, Server, Shared};
use std::alloc::{AllocError, Global};
use std::sync::Wait;
use std::sync::ledger::Ledger;
use term_text::read_term;

/// The arguments of `new` for the table t, and those of `insert` for nine objects. Four growth steps are then pending.
pub(super) const FILL_T: [&str; 2] = [
    "[t,[named_table]]",
    "[t,[{1},{2},{3},{4},{5},{6},{7},{8},{9}]]",
];

/// The same arguments for the table u.
pub(super) const FILL_U: [&str; 2] = [
    "[u,[named_table]]",
    "[u,[{1},{2},{3},{4},{5},{6},{7},{8},{9}]]",
];

/// Returns the call that a name and the text of its arguments spell.
pub(super) fn build_call(alloc: Global, text: (&str, &str)) -> Option<Call> {
    let name = Atom::new(alloc, text.0).ok()?;
    let (term, _) = read_term(alloc, text.1).ok()?;
    match term {
        Term::List(arguments) => Some(Call::new(name, arguments.into_vec())),
        _ => None,
    }
}

/// Returns the call of a name with formatted arguments: the result of `format!`.
pub(super) fn build_formatted_call(
    alloc: Global,
    text: (&str, Result<String, AllocError>),
) -> Option<Call> {
    let arguments = text.1.ok()?;
    build_call(alloc, (text.0, arguments.as_str()))
}

/// Returns the call of each of these texts.
pub(super) fn build_calls(alloc: Global, texts: &[(&str, &str)]) -> Option<Vec<Call>> {
    let mut calls = Vec::new(alloc);
    for text in texts {
        calls.push(build_call(alloc, *text)?).ok()?;
    }
    Some(calls)
}

/// Returns a job for each of these texts: to make its call.
pub(super) fn build_jobs(alloc: Global, texts: &[(&str, &str)]) -> Option<Vec<Job>> {
    let mut jobs = Vec::new(alloc);
    for text in texts {
        jobs.push(Job::Ask(build_call(alloc, *text)?)).ok()?;
    }
    Some(jobs)
}

/// Makes a call of a client, and returns whether the reply is a value, not a refusal.
pub(super) fn client_gets_value<L: Ledger, H: KeyHash + Copy + Drop, R: Wait>(
    rt: &R,
    alloc: Global,
    shared: &Shared<L, H>,
    client: &mut Client<L>,
    text: (&str, &str),
) -> Option<bool> {
    let request = build_call(alloc, text)?;
    Some(client.ask(rt, shared, &request).ok()?.is_value())
}

/// Makes a call of a caller, and returns whether the reply is a value, not a refusal.
pub(super) fn caller_gets_value<B: HistoryId, H: KeyHash + Copy + Drop, R: Wait>(
    rt: &R,
    alloc: Global,
    server: &Server<B, H>,
    caller: &mut Caller<B>,
    text: (&str, &str),
) -> Option<bool> {
    let request = build_call(alloc, text)?;
    Some(caller.ask(rt, server, request).ok()?.is_value())
}

/// Makes a call of a caller with formatted arguments, and returns whether the reply is a value, not a refusal.
pub(super) fn caller_gets_value_formatted<B: HistoryId, H: KeyHash + Copy + Drop, R: Wait>(
    rt: &R,
    alloc: Global,
    server: &Server<B, H>,
    caller: &mut Caller<B>,
    text: (&str, Result<String, AllocError>),
) -> Option<bool> {
    let request = build_formatted_call(alloc, text)?;
    Some(caller.ask(rt, server, request).ok()?.is_value())
}

/// Makes a call of a caller. Returns `None` also if the reply is a refusal.
pub(super) fn expect_value<B: HistoryId, H: KeyHash + Copy + Drop, R: Wait>(
    rt: &R,
    alloc: Global,
    server: &Server<B, H>,
    caller: &mut Caller<B>,
    text: (&str, &str),
) -> Option<()> {
    if caller_gets_value(rt, alloc, server, caller, text)? {
        Some(())
    } else {
        None
    }
}

/// Makes a call of a caller with formatted arguments. Returns `None` also if the reply is a refusal.
pub(super) fn expect_value_formatted<B: HistoryId, H: KeyHash + Copy + Drop, R: Wait>(
    rt: &R,
    alloc: Global,
    server: &Server<B, H>,
    caller: &mut Caller<B>,
    text: (&str, Result<String, AllocError>),
) -> Option<()> {
    if caller_gets_value_formatted(rt, alloc, server, caller, text)? {
        Some(())
    } else {
        None
    }
}

/// Makes a call with formatted arguments by `Caller::read`. Returns whether its reply is a list of `count` elements.
pub(super) fn read_gives_list<B: HistoryId, H: KeyHash + Copy + Drop, R: Wait>(
    rt: &R,
    alloc: Global,
    server: &Server<B, H>,
    caller: &mut Caller<B>,
    text: (&str, Result<String, AllocError>),
    count: usize,
) -> Option<bool> {
    let request = build_formatted_call(alloc, text)?;
    let reply = caller.read(rt, server, &request).ok()??;
    Some(is_list(&reply, count))
}

/// Returns whether a reply is a list of this length.
pub(super) fn is_list(reply: &Reply, count: usize) -> bool {
    match reply {
        Reply::Value(Term::List(terms)) => terms.len() == count,
        _ => false,
    }
}
