//! The calls that the clients make.
use ets_term::{Atom, Integer, KeyHash, Term};
use node_core::{Call, Reply};
use node_shared::{Client, Shared};
use std::alloc::Global;
use std::sync::Wait;
use std::sync::ledger::Ledger;
use term_text::read_term;

/// Makes a call. Returns `None` if it runs out of memory.
pub(crate) fn ask<L: Ledger, H: KeyHash + Copy + Drop, R: Wait>(
    rt: &R,
    shared: &Shared<L, H>,
    client: &mut Client<L>,
    call: Call,
) -> Option<()> {
    let is_answered = client.ask(rt, shared, &call).is_ok();
    drop(call);
    is_answered.then_some(())
}

/// Makes a call. Returns its reply if that is an integer, else `None`, also if memory runs out.
pub(crate) fn ask_integer<L: Ledger, H: KeyHash + Copy + Drop, R: Wait>(
    rt: &R,
    shared: &Shared<L, H>,
    client: &mut Client<L>,
    call: Call,
) -> Option<Integer> {
    let number = match client.ask(rt, shared, &call) {
        Ok(Reply::Value(Term::Int(number))) => Some(*number),
        _ => None,
    };
    drop(call);
    number
}

/// Returns the call that inserts an object with this key into the bag.
pub(crate) fn insertion(alloc: Global, key: Integer) -> Option<Call> {
    let args = format!(in alloc; "[notes,{{{key},note}}]").ok()?;
    call(alloc, "insert", args.as_str())
}

/// Returns the call of `next`: its reply is the key after this one.
pub(crate) fn next_call(alloc: Global, key: Integer) -> Option<Call> {
    let args = format!(in alloc; "[notes,{key}]").ok()?;
    call(alloc, "next", args.as_str())
}

/// Returns the call that the text of a name and the text of a list of arguments spell.
pub(crate) fn call(alloc: Global, name: &str, args: &str) -> Option<Call> {
    let name = Atom::new(alloc, name).ok()?;
    match read_term(alloc, args).ok()? {
        (Term::List(args), _) => Some(Call::new(name, args.into_vec())),
        _ => None,
    }
}
