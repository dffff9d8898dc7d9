//! The hints of a new number of intervals: a doubling creates some of them, and later insertions the rest. A hint
//! caches the place of the first item of an interval. At first it is unknown.

ghost use Rattle.std.specs.Prelude.{◌≡◌, ◌/◌, ◌^◌, ◌<◌, ◌≤◌, OnOk, OnErr};
ghost use Rattle.bucket_table.specs.inside.Intervals.{AreUnknown, HaveSameHints, HintsAreSound, IsDoubled};

use super::{Hints, SPLIT_KEY_BITS};
use node_list::NodeList;
use std::alloc::AllocError;
use std::mem;

/// The greatest number of hints that a doubling sets to unknown, 16 KiB. So no doubling takes long.
const HINTS_SET_AT_DOUBLING: usize = 4096;

/// The greatest number of further hints that one insertion sets to unknown, 1 KiB.
const HINTS_SET_AT_INSERTION: usize = 256;

/// The least number of interval bits to which insertions narrow intervals: 2^29 intervals, whose hints take 2 GiB.
const MIN_INTERVAL_BITS: u32 = 4;

impl Hints {
    /// Doubles the number of intervals: the current hints become the previous hints, and the new current hints are
    /// unknown. None of the previous hints is rehashed yet. If memory is refused, nothing changes.
    pub fn double(&mut self) -> Result<(), AllocError>
        requires wide { 0 < self.old.interval_bits }
        requires narrow { self.old.interval_bits < 63 }
        ensures ok { OnOk result (IsDoubled self.old self.new) }
        ensures err { OnErr result (self.new ≡ self.old) }
    {
        self.start_generation(2 * self.intervals())?;
        mem::swap(&mut self.current, &mut self.previous);
        // There are twice as many intervals, so a split key is shifted by one bit less.
        self.interval_bits -= 1;
        self.rehash_index = 0;
        Ok(())
    }

    /// Doubles the number of intervals if each interval has a current hint and half of the list's nodes outnumber the
    /// intervals. If memory is refused, the hints stay as they are, and a later insertion tries again.
    pub fn double_if_crowded(&mut self, list: &NodeList)
        requires hints { HintsAreSound self.old list.now.cells }
        ensures hints { HintsAreSound self.new list.now.cells }
        ensures interval_bits { self.new.interval_bits ≤ self.old.interval_bits }
    {
        let intervals = self.intervals();
        let is_crowded = self.current.len() >= intervals && intervals < list.len() / 2;
        if is_crowded && self.interval_bits > MIN_INTERVAL_BITS {
            let _outcome = self.double();
        }
    }

    /// Replaces the previous hints by unknown hints, with memory for `intervals` hints. The caller then makes them the
    /// current hints.
    fn start_generation(&mut self, intervals: usize) -> Result<(), AllocError>
        ensures ok { OnOk result (AreUnknown self.new.previous) }
        ensures rest { self.new ≡ record self.old { previous = self.new.previous } }
        ensures err { OnErr result (self.new ≡ self.old) }
    {
        let count = intervals.min(HINTS_SET_AT_DOUBLING);
        self.previous.renew(intervals, count)
    }

    /// Returns the number of intervals.
    #[inline(always)]
    pub fn intervals(&self) -> usize
        requires { self.now.interval_bits < 64 }
        ensures { result ≡ 2 ^ 33 / 2 ^ self.now.interval_bits }
    {
        (1usize << SPLIT_KEY_BITS) >> self.interval_bits
    }

    /// Adds unknown hints to the current hints, if some intervals have none yet. If memory is refused, it does nothing:
    /// a missing hint is unknown anyway.
    pub fn extend_generation(&mut self)
        requires narrow { self.old.interval_bits < 64 }
        ensures same { HaveSameHints self.old.current self.new.current }
        ensures rest { self.new ≡ record self.old { current = self.new.current } }
    {
        let intervals = self.intervals();
        let len = self.current.len();
        if len < intervals {
            let new_len = len.saturating_add(HINTS_SET_AT_INSERTION).min(intervals);
            self.current.extend_unknown(new_len);
        }
    }
}
