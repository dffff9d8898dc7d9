//! Why bytes do not begin with a term, and why a term is not written into memory or into a writer.
ghost use Rattle.std.specs.Prelude.{◌≡◌};
ghost use Rattle.external_term.specs.Faults.{offset};

use std::alloc::{AllocError, AllocFailed};
use std::io::Error;

/// Why bytes do not begin with a term. Offsets are in bytes, from 0.
#[derive(Debug, Clone, Copy, PartialEq, Eq)]
pub enum ExternalFault {
    /// The bytes end inside the field that begins at this offset, or fewer bytes are left there than items must follow.
    Truncated(usize),
    /// The first byte is not the version, 131. The offset is 0.
    BadVersion(usize),
    /// The byte at this offset is not a supported tag. The format also has tags that are not supported, such as those
    /// of floats (70) and maps (116).
    UnsupportedTag(usize),
    /// At this offset a term, or a character of a string, is at level 129.
    TooDeep(usize),
    /// The tail of a list, at this offset, is not the empty list.
    ImproperList(usize),
    /// The atom at this offset has more than 255 characters, or a character that is not printable ASCII. Or the term at
    /// this offset is not an atom, where the name of a node must be.
    BadAtom(usize),
    /// The integer at this offset does not fit 128 bits, or its magnitude has more than 16 bytes, zeros included.
    BadInteger(usize),
    /// The pid or reference at this offset is not of the Erlang node `nonode@nohost`, or a part of it other than its
    /// number is not 0. Or it is a reference without words.
    ForeignIdentifier(usize),
    /// Memory ran out. The bytes may be correct.
    Memory,
}

/// Why a term was not written.
#[derive(Debug, Clone, Copy, PartialEq, Eq)]
pub enum ExternalWriteFault {
    /// The term takes more than `MAX_BYTES`.
    TooLarge,
    /// An allocation failed.
    Memory,
}

/// Why a term was not written completely into a writer.
#[derive(Debug, Drop)]
pub enum ExternalSendFault {
    /// The term takes more than `MAX_BYTES`. The writer took no bytes.
    TooLarge,
    /// An allocation failed. The writer took no bytes.
    Memory,
    /// The writer returned that it took 0 bytes, after it took a prefix, which may be empty.
    Zero,
    /// The writer returned this error, after it took a prefix, which may be empty.
    Io(Error),
}

impl ExternalFault {
    /// Returns the offset of the fault in bytes, or `None` if memory ran out.
    pub fn at(&self) -> Option<usize>
        ensures { result ≡ offset self.now }
    {
        match self {
            ExternalFault::Truncated(at)
            | ExternalFault::BadVersion(at)
            | ExternalFault::UnsupportedTag(at)
            | ExternalFault::TooDeep(at)
            | ExternalFault::ImproperList(at)
            | ExternalFault::BadAtom(at)
            | ExternalFault::BadInteger(at)
            | ExternalFault::ForeignIdentifier(at) => Some(*at),
            ExternalFault::Memory => None,
        }
    }
}

impl From<AllocError> for ExternalFault {
    ghost use Rattle.std.specs.Prelude.{◌≡◌};
    ghost use Rattle.external_term.specs.declared.fault.ExternalFault.TheVariants.{Memory};

    ghost from_gives = { λ _ e. e ≡ Memory };

    fn from(_error: AllocError) -> ExternalFault {
        ExternalFault::Memory
    }
}

impl<T: Drop> From<AllocFailed<T>> for ExternalFault {
    ghost use Rattle.std.specs.Prelude.{◌≡◌};
    ghost use Rattle.external_term.specs.declared.fault.ExternalFault.TheVariants.{Memory};

    ghost from_gives = { λ _ e. e ≡ Memory };

    fn from(_error: AllocFailed<T>) -> ExternalFault {
        ExternalFault::Memory
    }
}
