//! What the callers of a server do: lookups one by one, lookups in lists, or a mixture of lookups and insertions.
use crate::calls::call_of_key;
use crate::mixture::{KEYS, mixture};
use crate::order::shuffle;
use node_core::Call;
use node_shared::Locking;
use std::alloc::{AllocError, Global};

/// The number of lookups in a list.
pub(crate) const LIST_LEN: usize = 16;

/// The seed of the order of lookups.
const LOOKUP_SEED: u64 = 2;

/// The seed of the order of a mixture.
const MIXTURE_SEED: u64 = 1;

/// The calls of each caller.
#[derive(Clone, Copy)]
pub(crate) enum Load {
    /// Lookups one by one.
    Reads,
    /// Lookups in lists of `LIST_LEN`.
    Lists,
    /// Nine lookups, then an insertion, again and again.
    Mixture,
}

impl Load {
    /// Returns how many calls a caller makes each time it takes the lock.
    pub(crate) fn calls_per_lock(self) -> usize {
        match self {
            Load::Lists => LIST_LEN,
            Load::Reads | Load::Mixture => 1,
        }
    }

    /// Builds the calls of a caller.
    pub(crate) fn build_calls(self, alloc: Global, calls: u32) -> Result<Vec<Call>, AllocError> {
        match self {
            Load::Reads | Load::Lists => build_lookups(alloc, calls),
            Load::Mixture => mixture(alloc, calls, MIXTURE_SEED),
        }
    }
}

/// Builds `calls` lookups, in the order of `LOOKUP_SEED`.
fn build_lookups(alloc: Global, calls: u32) -> Result<Vec<Call>, AllocError> {
    let mut lookups = Vec::new(alloc);
    for k in shuffle(alloc, u64::from(calls), LOOKUP_SEED)? {
        lookups.push(call_of_key(alloc, "lookup", k % KEYS)?)?;
    }
    Ok(lookups)
}

/// What each caller does, and which lock the server has.
#[derive(Clone, Copy)]
pub(crate) struct Plan {
    pub(crate) load: Load,
    pub(crate) locking: Locking,
    /// The number of calls of each caller.
    pub(crate) calls: u32,
}

impl Plan {
    /// Returns the first word of the line that reports the time.
    pub(crate) fn name(self) -> &'static str {
        match (self.locking, self.load) {
            (Locking::Single, Load::Reads) => "server-reads",
            (Locking::Single, Load::Lists) => "server-lists",
            (Locking::Single, Load::Mixture) => "server",
            (Locking::Sharded, Load::Reads) => "server-sharded-reads",
            (Locking::Sharded, Load::Lists) => "server-sharded-lists",
            (Locking::Sharded, Load::Mixture) => "server-sharded",
        }
    }
}
