//! The characters of an atom: up to 22 inline, more in an allocation.
ghost use Rattle.std.specs.Prelude.{◌≡◌, ◌≤◌, length, IfOk, IsOk};
ghost use Rattle.std.specs.Str.{IsUtf8};
ghost use Rattle.ets_term.specs.Character.{max_inline};
ghost use Rattle.ets_term.specs.inside.AtomTexts.{characters, EndsInline};

use std::alloc::{AllocError, Global};

/// The greatest number of characters that are stored inline: 24 bytes, less one for the length and one for the tag.
pub(crate) const MAX_INLINE: usize = 22;

/// The characters of an atom. A value takes 24 bytes with its tag, as many as a `String`.
#[derive(Drop)]
pub(crate) enum AtomText {
    /// At most `MAX_INLINE` characters: the first `len` of `bytes`.
    Inline { len: u8, bytes: [u8; MAX_INLINE] },
    /// More characters. The box takes 8 bytes of the value, a `String` 24.
    Allocated(Box<String>),
}

impl AtomText {
    /// Returns a copy of the characters of a text, or an error if memory is refused. A text of up to 22 characters
    /// takes no memory.
    pub(crate) fn of_text(alloc: Global, text: &str) -> Result<AtomText, AllocError>
        ensures same { IfOk result (λ s. characters s ≡ text.now) }
        ensures fits { IfOk result (λ s. EndsInline s) }
        ensures short { length text.now ≤ max_inline → IsOk result }
    {
        if text.len() <= MAX_INLINE {
            return Ok(inline_text(text.as_bytes()));
        }
        Ok(AtomText::Allocated(Box::new(alloc, String::from_str(alloc, text)?)?))
    }

    /// Returns the characters.
    pub(crate) fn as_str(&self) -> &str
        requires fits { EndsInline self.now }
        requires text { IsUtf8 (characters self.now) }
        ensures { result.now ≡ characters self.now }
    {
        match self {
            // The clause `text` requires that the bytes are UTF-8.
            AtomText::Inline { len, bytes } => unsafe {
                str::from_utf8_unchecked(&bytes[..*len as usize])
            },
            AtomText::Allocated(text) => text.as_str(),
        }
    }
}

/// Copies a text of at most `MAX_INLINE` characters inline.
fn inline_text(text: &[u8]) -> AtomText
    requires { length text.now ≤ max_inline }
    ensures same { characters result ≡ text.now }
    ensures fits { EndsInline result }
{
    let mut bytes = [0; MAX_INLINE];
    bytes[..text.len()].copy_from_slice(text);
    AtomText::Inline {
        len: text.len() as u8,
        bytes,
    }
}
