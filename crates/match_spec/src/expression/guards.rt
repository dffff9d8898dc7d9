//! The guard functions that test the kind of a term, such as `is_atom`, the conversions between `bool` and the atoms
//! `true` and `false`, and `xor`.
ghost use Rattle.std.specs.Prelude.{◌≡◌, IfOk};
ghost use Rattle.ets_term.specs.Data.{data_of};
ghost use Rattle.match_spec.specs.Functions.{truth, boolean, exclusive};
ghost use Rattle.match_spec.specs.inside.Functions.{guard_kind_of, is_kind};

use ets_term::{Atom, Term};
use std::alloc::{AllocError, Global};

/// The kind of term that a guard such as `is_atom` tests for. A table identifier is a `Reference`.
#[derive(Clone, Copy)]
pub(crate) enum GuardKind {
    Atom,
    Integer,
    List,
    Tuple,
    Binary,
    Pid,
    Reference,
}

/// Returns the kind of term that the guard with this name tests for, or `None` if no such guard has this name.
/// `is_number` tests for integers, because the store has no floats.
pub(crate) fn guard_kind_of(name: &str) -> Option<GuardKind>
    ensures { result ≡ guard_kind_of name.now }
{
    if name == "is_atom" {
        Some(GuardKind::Atom)
    } else if name == "is_integer" || name == "is_number" {
        Some(GuardKind::Integer)
    } else if name == "is_list" {
        Some(GuardKind::List)
    } else if name == "is_tuple" {
        Some(GuardKind::Tuple)
    } else if name == "is_binary" {
        Some(GuardKind::Binary)
    } else if name == "is_pid" {
        Some(GuardKind::Pid)
    } else if name == "is_reference" {
        Some(GuardKind::Reference)
    } else {
        None
    }
}

/// Checks whether the term is of the kind.
pub(crate) fn is_kind(kind: GuardKind, term: &Term) -> bool
    ensures { result ≡ is_kind kind (data_of term.now) }
{
    match (kind, term) {
        (GuardKind::Atom, Term::Atom(_)) => true,
        (GuardKind::Integer, Term::Int(_)) => true,
        (GuardKind::List, Term::List(_)) => true,
        (GuardKind::Tuple, Term::Tuple(_)) => true,
        (GuardKind::Binary, Term::Binary(_)) => true,
        (GuardKind::Pid, Term::Pid(_)) => true,
        (GuardKind::Reference, Term::Tid(_)) => true,
        _ => false,
    }
}

/// Returns `b` as a term: the atom `true` or `false`.
pub(crate) fn truth(alloc: Global, b: bool) -> Result<Term, AllocError>
    ensures { IfOk result (λ t. data_of t ≡ truth b) }
{
    if b {
        return Ok(Term::Atom(Atom::of_bytes(alloc, b"true")?));
    }
    Ok(Term::Atom(Atom::of_bytes(alloc, b"false")?))
}

/// Returns the boolean of the atom `true` or `false`, or `None` for any other term.
pub(crate) fn boolean(term: &Term) -> Option<bool>
    ensures { result ≡ boolean (data_of term.now) }
{
    let Term::Atom(name) = term else {
        return None;
    };
    let text = name.text();
    if text == "true" {
        Some(true)
    } else if text == "false" {
        Some(false)
    } else {
        None
    }
}

/// Computes `xor` of two booleans. `None` is the value of an argument that is not a boolean, and then also the result.
pub(crate) fn xor(x: Option<bool>, y: Option<bool>) -> Option<bool>
    ensures { result ≡ exclusive x y }
{
    match (x, y) {
        (Some(x), Some(y)) => Some(x != y),
        _ => None,
    }
}
