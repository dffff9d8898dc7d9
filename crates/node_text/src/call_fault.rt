//! Why no step was run for a call.
ghost use Rattle.std.specs.Prelude.{◌≡◌};
ghost use Rattle.node_text.specs.inside.WrittenFault.{WritesFault};

use crate::status::{NO_MEMORY, SYNTAX};
use std::alloc::AllocError;

/// Why no step was run for a call.
#[derive(Drop)]
pub enum CallFault {
    /// The text or the bytes are not a call; the offset of the first fault.
    Syntax(usize),
    /// Memory ran out.
    Memory,
}

impl CallFault {
    /// Returns the status of the fault. Writes the offset of a syntax error to `len`, which otherwise stays 0.
    pub(crate) fn write(self, len: &mut usize) -> i32
        requires { len.old ≡ 0 }
        ensures { WritesFault self result len.new }
    {
        match self {
            CallFault::Syntax(at) => {
                *len = at;
                SYNTAX
            }
            CallFault::Memory => NO_MEMORY,
        }
    }
}

impl From<AllocError> for CallFault {
    ghost use Rattle.std.specs.Prelude.{◌≡◌};
    ghost use Rattle.node_text.specs.declared.call_fault.CallFault.TheVariants.{Memory};

    ghost from_gives = { λ _ e. e ≡ Memory };

    fn from(_error: AllocError) -> CallFault {
        CallFault::Memory
    }
}
