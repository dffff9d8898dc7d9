//! Atoms: texts of at most 255 characters, all printable ASCII. `Atom::new` checks its text; `Atom::of_bytes` leaves
//! the check to its caller.
ghost use Rattle.std.specs.Prelude.{◌≡◌, ◌<◌, ◌≤◌, ◌↔◌, length, IfOk, IsOk, IsErrOf};
ghost use Rattle.std.specs.List.{list_all};
ghost use Rattle.ets_term.specs.Character.{is_character, max_characters, max_inline, IsAtomText};

use crate::atom_text::AtomText;
use std::alloc::{AllocError, Global};
use std::marker::Model;

/// The greatest number of characters in an atom.
pub const MAX_CHARACTERS: usize = 255;

/// An atom: at most `MAX_CHARACTERS` characters, each printable ASCII, from the space to the tilde.
#[derive(Drop)]
pub struct Atom {
    text: AtomText,
}

// The value that contracts see of this type (`view`), and what is true of its fields between calls (`invariant`).
impl Model for Atom {
    ghost use Rattle.std.specs.Prelude.{List, ℕ};
    ghost use Rattle.ets_term.specs.Character.{IsAtomText};
    ghost use Rattle.ets_term.specs.inside.AtomTexts.{characters, EndsInline};

    ghost Value = { List ℕ };

    ghost view = { λ a. characters a.text };

    ghost invariant = { λ a. IsAtomText (characters a.text) × EndsInline a.text };
}

/// Why a text is not an atom.
#[derive(Debug, Drop)]
pub enum AtomFault {
    /// The text has more than `MAX_CHARACTERS` characters.
    TooLong,
    /// A character of the text is not printable ASCII.
    BadCharacter,
    /// An allocation failed.
    Memory,
}

// A refusal of memory becomes the fault `Memory`, so that `?` works in `Atom::new`.
impl From<AllocError> for AtomFault {
    ghost use Rattle.std.specs.Prelude.{◌≡◌};
    ghost use Rattle.ets_term.specs.declared.atom.AtomFault.TheVariants.{Memory};

    ghost from_gives = { λ _ e. e ≡ Memory };

    fn from(_error: AllocError) -> AtomFault {
        AtomFault::Memory
    }
}

#[tactic(auto, using(crate::proofs::Texts::atom_is_utf8))]
impl Atom {
    /// Returns the atom with this text, which may be empty. A text of up to 22 characters takes no memory.
    ///
    /// If the text has more than 255 characters, returns `TooLong`, even if a character is not printable. If a
    /// character of a shorter text is not printable ASCII, returns `BadCharacter`. If memory is refused, returns
    /// `Memory`.
    pub fn new(alloc: Global, text: &str) -> Result<Atom, AtomFault>
        ensures made { IfOk result (λ a. a ≡ text.now) }
        ensures fits { IfOk result (λ _. IsAtomText text.now) }
        ensures long { IsErrOf result AtomFault.TooLong ↔ max_characters < length text.now }
        ensures bad { IsErrOf result AtomFault.BadCharacter
            ↔ (length text.now ≤ max_characters) × ¬ IsAtomText text.now }
        ensures short { length text.now ≤ max_inline → ¬ IsErrOf result AtomFault.Memory }
    {
        if text.len() > MAX_CHARACTERS {
            return Err(AtomFault::TooLong);
        }
        if !is_printable(text.as_bytes()) {
            return Err(AtomFault::BadCharacter);
        }
        Ok(Atom {
            text: AtomText::of_text(alloc, text)?,
        })
    }

    /// Returns the atom with these characters, or an error if memory is refused. Does not check that they are the text
    /// of an atom; its caller must. Up to 22 characters take no memory.
    pub fn of_bytes(alloc: Global, bytes: &[u8]) -> Result<Atom, AllocError>
        requires { IsAtomText bytes.now }
        ensures same { IfOk result (λ a. a ≡ bytes.now) }
        ensures short { length bytes.now ≤ max_inline → IsOk result }
    {
        // Printable ASCII is valid UTF-8.
        let text = unsafe { str::from_utf8_unchecked(bytes) };
        Ok(Atom {
            text: AtomText::of_text(alloc, text)?,
        })
    }

    /// Returns the characters.
    pub fn text(&self) -> &str
        ensures text { result.now ≡ self.now }
        ensures fits { IsAtomText self.now }
    {
        self.text.as_str()
    }

    /// Returns an equal atom, or an error if memory is refused. An atom of up to 22 characters takes no memory.
    pub fn try_clone(&self, alloc: Global) -> Result<Atom, AllocError>
        ensures same { IfOk result (λ a. a ≡ self.now) }
        ensures short { length self.now ≤ max_inline → IsOk result }
    {
        Ok(Atom {
            text: AtomText::of_text(alloc, self.text())?,
        })
    }
}

/// Returns whether all bytes are printable ASCII, from the space (32) to the tilde (126).
fn is_printable(bytes: &[u8]) -> bool
    ensures { result ≡ list_all is_character bytes.now }
{
    bytes.iter().all(|b| *b >= 32 && *b <= 126)
}
