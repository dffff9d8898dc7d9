//! Builds the calls that are timed, before the clock runs, and checks their replies.
use ets_term::{Atom, Integer, Items, Term};
use node_core::{Call, Reply};
use std::alloc::{AllocError, Global};

/// The identifier of the only table.
const TABLE: u32 = 0;

/// The value that an update writes: an arbitrary one that no object has before.
const NEW_VALUE: Integer = 7;

/// Builds the call that makes a table to which every process may write.
pub(crate) fn new_table_call(alloc: Global) -> Result<Call, AllocError> {
    let options = vec![in alloc; atom_term(alloc, "public")?]?;
    let args = vec![in alloc;
        atom_term(alloc, "t")?,
        Term::List(Items::from_vec(options)),
    ]?;
    build_call(alloc, "new", args)
}

/// Builds the call that inserts the object `{K,1}`.
pub(crate) fn insert_call(alloc: Global, k: u64) -> Result<Call, AllocError> {
    let elements = vec![in alloc; key_term(k), Term::Int(1)]?;
    let object = Term::Tuple(Items::from_vec(elements));
    build_call(alloc, "insert", vec![in alloc; Term::Tid(TABLE), object]?)
}

/// Builds the call that adds one to the value of the key's object.
pub(crate) fn count_up_call(alloc: Global, k: u64) -> Result<Call, AllocError> {
    let args = vec![in alloc; Term::Tid(TABLE), key_term(k), Term::Int(1)]?;
    build_call(alloc, "update_counter", args)
}

/// Builds the call that writes `NEW_VALUE` into the key's object.
pub(crate) fn write_call(alloc: Global, k: u64) -> Result<Call, AllocError> {
    let args = vec![in alloc; Term::Tid(TABLE), key_term(k), new_value(alloc)?]?;
    build_call(alloc, "update_element", args)
}

/// Builds the call that writes `NEW_VALUE` into the key's object, with a default object for a key without an object.
pub(crate) fn write_with_default_call(alloc: Global, k: u64) -> Result<Call, AllocError> {
    let elements = vec![in alloc; key_term(k), Term::Int(1)]?;
    let default = Term::Tuple(Items::from_vec(elements));
    let args = vec![in alloc; Term::Tid(TABLE), key_term(k), new_value(alloc)?, default]?;
    build_call(alloc, "update_element", args)
}

/// Builds the argument `{2,NEW_VALUE}` of `update_element`: the second element of an object is its value.
fn new_value(alloc: Global) -> Result<Term, AllocError> {
    Ok(Term::Tuple(Items::from_vec(vec![in alloc; Term::Int(2), Term::Int(NEW_VALUE)]?)))
}

/// Builds the call that returns the first key.
pub(crate) fn build_first(alloc: Global) -> Result<Call, AllocError> {
    build_call(alloc, "first", vec![in alloc; Term::Tid(TABLE)]?)
}

/// Builds a call of this name whose arguments are the table and a key.
pub(crate) fn call_of_key(alloc: Global, name: &str, k: u64) -> Result<Call, AllocError> {
    build_call(alloc, name, vec![in alloc; Term::Tid(TABLE), key_term(k)]?)
}

/// Returns the integer of a reply, or `None` if it is another term.
pub(crate) fn integer_of_reply(reply: &Reply) -> Option<u64> {
    match reply {
        Reply::Value(Term::Int(k)) => u64::try_from(*k).ok(),
        _ => None,
    }
}

/// Returns whether a reply is a tuple of a key and its objects, as `next_lookup` replies.
pub(crate) fn is_key_with_objects(reply: &Reply) -> bool {
    match reply {
        Reply::Value(Term::Tuple(elements)) => elements.len() == 2,
        _ => false,
    }
}

/// Returns whether the reply to a lookup has exactly one object.
pub(crate) fn has_object(reply: &Reply) -> bool {
    match reply {
        Reply::Value(Term::List(objects)) => objects.len() == 1,
        _ => false,
    }
}

/// Returns whether a reply is the atom of this text.
pub(crate) fn is_atom(reply: &Reply, text: &str) -> bool {
    match reply {
        Reply::Value(term) => term.is_atom(text),
        _ => false,
    }
}

/// Returns the key that is this integer.
fn key_term(k: u64) -> Term {
    Term::Int(Integer::from(k))
}

/// Builds the term of an atom.
fn atom_term(alloc: Global, text: &str) -> Result<Term, AllocError> {
    Ok(Term::Atom(build_atom(alloc, text)?))
}

/// Builds the atom of a text, which must be short printable ASCII. Any other text counts as out of memory.
fn build_atom(alloc: Global, text: &str) -> Result<Atom, AllocError> {
    match Atom::new(alloc, text) {
        Ok(atom) => Ok(atom),
        Err(_) => Err(AllocError),
    }
}

/// Builds a call from its name and arguments.
fn build_call(alloc: Global, text: &str, args: Vec<Term>) -> Result<Call, AllocError> {
    Ok(Call::new(build_atom(alloc, text)?, args))
}
