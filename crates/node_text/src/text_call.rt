//! The call that a text spells.
ghost use Rattle.std.specs.Prelude.{◌≡◌, IfOk};
ghost use Rattle.node_text.specs.Texts as spec;

use ets_term::{Atom, Items, Term};
use std::alloc::{AllocError, Global};
use term_text::read_term_bytes;

/// The call that a text spells.
#[derive(Drop)]
pub enum TextCall {
    /// A call: its name and its arguments.
    Call(Atom, Items<Term>),
    /// The text is not a call; the offset of its first syntax error.
    Faulty(usize),
}

/// Reads the text of a call: a tuple of its name, an atom, and its arguments, such as `{lookup,t,a}`.
pub fn read_text_call(alloc: Global, text: &[u8]) -> Result<TextCall, AllocError>
    ensures { IfOk result (λ a. a ≡ spec.parse_call text.now) }
{
    match read_term_bytes(alloc, text) {
        Ok((term, taken)) if taken == text.len() => Ok(call_from_term(term)),
        Ok((_, taken)) => Ok(TextCall::Faulty(taken)),
        Err(fault) => match fault.at() {
            Some(at) => Ok(TextCall::Faulty(at)),
            // Only out of memory has no offset.
            None => Err(AllocError),
        },
    }
}

/// Returns the call that a term represents, if it is a tuple that begins with an atom. Otherwise the error is at offset
/// 0.
fn call_from_term(term: Term) -> TextCall
    ensures { result ≡ spec.call_from_term term }
{
    match term {
        Term::Tuple(terms) => call_from_elements(terms.into_vec()),
        _ => TextCall::Faulty(0),
    }
}

/// Returns the call that a tuple with these elements represents, if the first is an atom. Otherwise the error is at
/// offset 0.
fn call_from_elements(mut terms: Vec<Term>) -> TextCall
    ensures { result ≡ spec.call_from_elements terms.items }
{
    if terms.is_empty() {
        return TextCall::Faulty(0);
    }
    match terms.remove(0) {
        Term::Atom(name) => TextCall::Call(name, Items::from_vec(terms)),
        _ => TextCall::Faulty(0),
    }
}
