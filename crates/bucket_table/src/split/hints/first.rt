//! A hint caches the place of the first item of an interval. It changes if an insertion gives the interval a new first
//! item, or if the first item is removed.

ghost use Rattle.std.specs.Prelude.{◌≡◌, ◌/◌, ◌^◌, true, false, None, get_or};
ghost use Rattle.bucket_table.specs.inside.Directory.{HaveParity};
ghost use Rattle.bucket_table.specs.inside.Intervals.{HintsAreSound, IsNewFirst, KeepsFirst, IsItemIn, IsHintAfterRemoval};

use super::Hints;
use crate::split::hint::Hint;
use node_list::{At, NodeList};

impl Hints {
    /// Checks whether an item with this split key, if inserted now, would be the first of its interval by a known hint.
    /// The hint of the interval must then change. Returns `false` if the hint is unknown.
    pub fn is_new_first(&self, list: &NodeList, split_key: u64) -> bool
        requires hints { HintsAreSound self.now list.now.cells }
        ensures first { result ≡ true
            → IsNewFirst (2 ^ self.now.interval_bits) (split_key / 2 ^ self.now.interval_bits)
            list.now.cells split_key }
        ensures keeps { result ≡ false
            → KeepsFirst (2 ^ self.now.interval_bits) (split_key / 2 ^ self.now.interval_bits) list.now.cells split_key
            (get_or self.now.current (split_key / 2 ^ self.now.interval_bits) None) }
    {
        match self.current.get(self.interval_of(split_key)) {
            None => false,
            Some(None) => true,
            Some(Some(first)) => {
                list.reveal_invariant();
                split_key < list.split_key(first)
            }
        }
    }

    /// Returns the new hint of an interval for the case that its first item, at `at`, is removed. It is unknown if the
    /// next node is a dummy of the same interval.
    pub fn hint_after_removal(&self, list: &NodeList, interval: usize, at: At) -> Hint
        requires parity { HaveParity list.now.cells }
        requires hints { HintsAreSound self.now list.now.cells }
        requires item { IsItemIn (2 ^ self.now.interval_bits) interval at list.now.cells }
        ensures { IsHintAfterRemoval (2 ^ self.now.interval_bits) interval at list.now.cells result }
    {
        list.reveal_invariant();
        let Some(next) = list.after(at) else {
            return Hint::empty();
        };
        let split_key = list.split_key(next);
        if self.interval_of(split_key) != interval {
            return Hint::empty();
        }
        // The split key of an item is odd, and that of a dummy is even.
        if split_key % 2 == 1 {
            Hint::at(next)
        } else {
            Hint::unknown()
        }
    }
}
