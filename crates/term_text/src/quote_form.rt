//! The kinds of texts in quotes: an atom, a string, and a string in a binary. They differ in the quote, and in the
//! limit on characters: the length of an atom, the depth of a string.
ghost use Rattle.std.specs.Prelude.{◌≡◌, ◌+◌, None};
ghost use Rattle.term_text.specs.inside.Reader.{quote};
ghost use Rattle.term_text.specs.inside.Parts.{IsShort, RefusesNext};

use crate::fault::TextFault;
use ets_term::MAX_CHARACTERS;

/// The kind of a text in quotes.
#[derive(Clone, Copy)]
pub(crate) enum QuoteForm {
    /// An atom in single quotes. Its opening quote is at this offset.
    Atom(usize),
    /// A string, which is read as a list of integers.
    String,
    /// A string in a binary.
    Binary,
}

impl QuoteForm {
    /// Returns the quote character of this kind of text.
    pub(crate) fn quote(self) -> u8
        ensures { result ≡ quote self }
    {
        match self {
            QuoteForm::Atom(_) => b'\'',
            QuoteForm::String | QuoteForm::Binary => b'"',
        }
    }

    /// Returns the fault if one more character, after `n` others, is not allowed: the atom is too long, or the string
    /// is at the last level. Returns `None` if it is allowed. `at` is the offset of the character.
    pub(crate) fn fault_of_next(self, at: usize, n: usize, out_of_levels: bool) -> Option<TextFault>
        ensures refuses { RefusesNext at self n out_of_levels result }
        ensures short { result ≡ None → IsShort self n → IsShort self (n + 1) }
    {
        match self {
            QuoteForm::Atom(start) if n == MAX_CHARACTERS => Some(TextFault::AtomTooLong(start)),
            QuoteForm::String if out_of_levels => Some(TextFault::TooDeep(at)),
            // A string in a binary has no limit on characters.
            _ => None,
        }
    }
}
