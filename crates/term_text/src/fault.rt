//! Why no term is read at the beginning of a text: a syntax error with its offset, or memory that ran out.
ghost use Rattle.std.specs.Prelude.{◌≡◌};
ghost use Rattle.term_text.specs.Faults.{offset};

use std::alloc::{AllocError, AllocFailed};

/// Why no term is read at the start of a text: a syntax error, or memory that ran out. Offsets are in bytes, from 0.
#[derive(Debug, Clone, Copy, PartialEq, Eq)]
pub enum TextFault {
    /// No text of a term continues with the byte at this offset.
    Unexpected(usize),
    /// The text ends before the term is complete, or has only blanks. The value is the length of the text.
    Unclosed(usize),
    /// A number is out of its range. It begins at this offset, with its minus sign if it has one.
    OutOfRange(usize),
    /// At this offset a term, or a character of a string, is at level 129.
    TooDeep(usize),
    /// An atom has more than 255 characters. It begins at this offset.
    AtomTooLong(usize),
    /// Memory ran out. The text may be correct.
    Memory,
}

impl TextFault {
    /// Returns the offset of the fault in bytes, or `None` if memory ran out.
    pub fn at(&self) -> Option<usize>
        ensures { result ≡ offset self.now }
    {
        match self {
            TextFault::Unexpected(at)
            | TextFault::Unclosed(at)
            | TextFault::OutOfRange(at)
            | TextFault::TooDeep(at)
            | TextFault::AtomTooLong(at) => Some(*at),
            TextFault::Memory => None,
        }
    }
}

impl From<AllocError> for TextFault {
    ghost use Rattle.std.specs.Prelude.{◌≡◌};
    ghost use Rattle.term_text.specs.declared.fault.TextFault.TheVariants.{Memory};

    ghost from_gives = { λ _ e. e ≡ Memory };

    fn from(_error: AllocError) -> TextFault {
        TextFault::Memory
    }
}

impl<T: Drop> From<AllocFailed<T>> for TextFault {
    ghost use Rattle.std.specs.Prelude.{◌≡◌};
    ghost use Rattle.term_text.specs.declared.fault.TextFault.TheVariants.{Memory};

    ghost from_gives = { λ _ e. e ≡ Memory };

    fn from(_error: AllocFailed<T>) -> TextFault {
        TextFault::Memory
    }
}
