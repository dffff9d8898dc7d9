//! Reads atoms without quotes.
ghost use Rattle.std.specs.Prelude.{◌≡◌, ◌+◌, ◌≤◌, ◌<◌, ◌∷◌, [], List, true, length, IfOk, slice_index};
ghost use Rattle.term_text.specs.inside.Reader.{OpenBracket, name, reads_on};
ghost use Rattle.term_text.specs.inside.Parts.{EndsWithin, ReadsTerm};
ghost use Rattle.term_text.specs.Text.{is_lowercase};

use crate::bytes::past_name;
use crate::fault::TextFault;
use ets_term::{Atom, MAX_CHARACTERS, Term};
use std::alloc::Global;

/// Reads the atom without quotes that begins with a lowercase letter at the offset `at`. Returns the atom and the
/// offset after it. The fault of an atom of more than `MAX_CHARACTERS` has the offset `at`.
#[inline(always)]
pub(crate) fn name_at(alloc: Global, text: &[u8], at: usize) -> Result<(Term, usize), TextFault>
    requires within { at < length text.now }
    requires small { is_lowercase (slice_index text.now at) ≡ true }
    ensures within { EndsWithin text.now at result }
    // From the state after the first letter, in any open brackets `os`, the automaton reads the same atom, or fails.
    ensures reads { (os : List OpenBracket)
        → ReadsTerm text.now (at + 1) (reads_on (name at (slice_index text.now at ∷ [])) os) os result }
{
    let end = past_name(text, at);
    if end - at > MAX_CHARACTERS {
        return Err(TextFault::AtomTooLong(at));
    }
    let name = Atom::of_bytes(alloc, &text[at..end])?;
    Ok((Term::Atom(name), end))
}
