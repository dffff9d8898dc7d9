//! The call that bytes spell.
ghost use Rattle.std.specs.Prelude.{◌≡◌, IfOk};
ghost use Rattle.ets_term.specs.Views.{as_atom, as_list};
ghost use Rattle.node_text.specs.ExternalCalls as spec;

use crate::call_problem::CallProblem;
use ets_term::{Atom, Items, Term};
use external_term::{ExternalFault, read_external, read_pair};
use std::alloc::{AllocError, Global};

/// The call that bytes spell, or what is wrong with the bytes and where.
#[derive(Drop)]
pub enum ExternalCall {
    /// A call: its name and its arguments.
    Call(Atom, Items<Term>),
    /// The bytes are not a call: what is wrong, and its offset.
    Faulty(CallProblem, usize),
}

/// Reads the bytes of a call: a tuple in the external format, such as `{lookup,[t,a]}`. Its elements are the name, an
/// atom, and the list of the arguments.
pub fn read_external_call(alloc: Global, bytes: &[u8]) -> Result<ExternalCall, AllocError>
    ensures { IfOk result (λ c. c ≡ spec.parse_call bytes.now) }
{
    // The usual form is read without building the tuple. Anything else is read as one term, which gives the problem and
    // its offset.
    if let Some((name, args, taken)) = read_pair(alloc, bytes)
        && taken == bytes.len()
    {
        return Ok(call_with(name, args));
    }
    read_any(alloc, bytes)
}

/// Reads one term from the bytes, and then the call from the term.
fn read_any(alloc: Global, bytes: &[u8]) -> Result<ExternalCall, AllocError>
    ensures { IfOk result (λ c. c ≡ spec.parse_call bytes.now) }
{
    match read_external(alloc, bytes) {
        Ok((term, taken)) if taken == bytes.len() => Ok(call_from_term(term)),
        Ok((_, taken)) => Ok(ExternalCall::Faulty(CallProblem::TrailingBytes, taken)),
        Err(fault) => match fault.at() {
            Some(at) => Ok(ExternalCall::Faulty(problem_of(fault), at)),
            // Only out of memory has no offset.
            None => Err(AllocError),
        },
    }
}

/// Returns the call that a term represents, if it is a tuple of a name and arguments.
fn call_from_term(term: Term) -> ExternalCall
    ensures { result ≡ spec.call_from_term term }
{
    match term {
        Term::Tuple(terms) => call_from_elements(terms.into_vec()),
        _ => no_call(),
    }
}

/// Returns the call that a tuple with these elements represents.
fn call_from_elements(mut terms: Vec<Term>) -> ExternalCall
    ensures { result ≡ spec.call_from_elements terms.items }
{
    if terms.len() == 2
        && let Some(args) = terms.pop()
        && let Some(name) = terms.pop()
    {
        call_with(name, args)
    } else {
        no_call()
    }
}

/// Returns the call with this name and these arguments, if they are an atom and a list.
fn call_with(name: Term, args: Term) -> ExternalCall
    ensures { result ≡ spec.call_with (as_atom name) (as_list args) }
{
    let Term::Atom(name) = name else {
        return no_call();
    };
    match args {
        Term::List(args) => ExternalCall::Call(name, args),
        _ => no_call(),
    }
}

/// Returns the problem that a whole term is not a call, at offset 0.
fn no_call() -> ExternalCall
    ensures { result ≡ spec.no_call }
{
    ExternalCall::Faulty(CallProblem::NotACall, 0)
}

/// Converts a fault of the reader of terms into the problem of a call.
fn problem_of(fault: ExternalFault) -> CallProblem
    ensures { result ≡ spec.problem_of fault }
{
    match fault {
        // `Memory` does not occur here: it has no offset, so `read_any` has returned `AllocError`.
        ExternalFault::Truncated(_) | ExternalFault::Memory => CallProblem::Truncated,
        ExternalFault::BadVersion(_) => CallProblem::BadVersion,
        ExternalFault::UnsupportedTag(_) => CallProblem::UnsupportedTag,
        ExternalFault::TooDeep(_) => CallProblem::TooDeep,
        ExternalFault::ImproperList(_) => CallProblem::ImproperList,
        ExternalFault::BadAtom(_) => CallProblem::BadAtom,
        ExternalFault::BadInteger(_) => CallProblem::BadInteger,
        ExternalFault::ForeignIdentifier(_) => CallProblem::ForeignIdentifier,
    }
}
