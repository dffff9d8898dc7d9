//! A mixture of calls on a table that has all keys: nine lookups, then an insertion, again and again.
use crate::calls::{call_of_key, insert_call};
use crate::order::shuffle;
use node_core::Call;
use std::alloc::{AllocError, Global};
use std::io;

/// How many keys the table has.
pub(crate) const KEYS: u64 = 10_000;

/// The greatest number of pending growth steps that run after an insertion.
pub(crate) const GROWTH_STEPS: u32 = 2;

/// Builds the mixture: `calls` calls on keys in the order of this seed.
pub(crate) fn mixture(alloc: Global, calls: u32, seed: u64) -> Result<Vec<Call>, AllocError> {
    let mut mixture = Vec::new(alloc);
    for (index, k) in shuffle(alloc, u64::from(calls), seed)?.iter().enumerate() {
        let k = k % KEYS;
        // Every tenth call is an insertion.
        let call = if index % 10 == 9 {
            insert_call(alloc, k)?
        } else {
            call_of_key(alloc, "lookup", k)?
        };
        mixture.push(call)?;
    }
    Ok(mixture)
}

/// How long the calls of all callers took, and how many lookups found an object.
#[derive(Clone, Copy)]
pub(crate) struct Timing {
    /// How long all calls took.
    pub(crate) nanoseconds: u64,
    /// How many lookups found an object.
    pub(crate) found: u64,
}

impl Timing {
    /// Prints the nanoseconds per call of callers, each of which made a mixture of `calls` calls.
    pub(crate) fn print(
        self,
        rt: &impl Print,
        who: &str,
        callers: u32,
        calls: u32,
    ) -> io::Result<()> {
        // Every tenth call is an insertion, the others are lookups.
        self.print_line(rt, who, callers, calls, calls - calls / 10)
    }

    /// Prints the nanoseconds per call of callers, each of which made `calls` lookups.
    pub(crate) fn print_lookups(
        self,
        rt: &impl Print,
        who: &str,
        callers: u32,
        calls: u32,
    ) -> io::Result<()> {
        self.print_line(rt, who, callers, calls, calls)
    }

    /// Prints the line of a run: the nanoseconds per call. Prints a warning first unless all lookups found an object:
    /// `lookups` of each caller. The word `mixture` is in the line of each run.
    fn print_line(
        self,
        rt: &impl Print,
        who: &str,
        callers: u32,
        calls: u32,
        lookups: u32,
    ) -> io::Result<()> {
        if self.found != u64::from(lookups).saturating_mul(u64::from(callers)) {
            println!(rt; "{who} mixture went wrong")?;
        }
        let all_calls = u64::from(calls).saturating_mul(u64::from(callers)).max(1);
        let tenths = self.nanoseconds.saturating_mul(10) / all_calls;
        println!(rt; "{who} mixture {}.{}", tenths / 10, tenths % 10)
    }
}
