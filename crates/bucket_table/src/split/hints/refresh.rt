//! An insertion sets the hint of its interval, if that is unknown, by a scan of the list up to the interval. A hint
//! caches the place of the first item of an interval.

ghost use Rattle.std.specs.Prelude.{◌≡◌, ◌/◌, ◌^◌};
ghost use Rattle.bucket_table.specs.inside.Directory.{HaveParity, HasKeyBelow};
ghost use Rattle.bucket_table.specs.inside.Intervals.{HintsAreSound, IsBeforeInterval, IsSoundHint};

use super::Hints;
use crate::split::hint::Hint;
use node_list::{At, NodeList};

impl Hints {
    /// Scans from a node before an interval to the last node before the interval. Returns that node and the hint of the
    /// interval.
    pub(super) fn scan_to_interval(&self, list: &NodeList, interval: usize, start: At) -> (At, Hint)
        requires parity { HaveParity list.now.cells }
        requires hints { HintsAreSound self.now list.now.cells }
        requires front { IsBeforeInterval (2 ^ self.now.interval_bits) interval start list.now.cells }
        ensures front { IsBeforeInterval (2 ^ self.now.interval_bits) interval result.0 list.now.cells }
        ensures hint { IsSoundHint (2 ^ self.now.interval_bits) interval list.now.cells result.1 }
    {
        list.reveal_invariant();
        let mut at = start;
        while let Some(next) = list.after(at) {
            let split_key = list.split_key(next);
            let next_interval = self.interval_of(split_key);
            // The next node is past the interval, which is thus empty.
            if next_interval > interval {
                return (at, Hint::empty());
            }
            if next_interval == interval {
                // The split key of an item is odd, and that of a dummy is even.
                if split_key % 2 == 1 {
                    return (at, Hint::at(next));
                }
                return (at, Hint::unknown());
            }
            at = next;
        }
        (at, Hint::empty())
    }

    /// If the hint of the split key's interval is unknown, sets it by a scan from `start`. Does nothing if `start` is
    /// not before the interval. Returns a node with a lesser split key, from which the insertion can start.
    pub fn refresh(&mut self, list: &NodeList, split_key: u64, start: At) -> At
        requires parity { HaveParity list.now.cells }
        requires hints { HintsAreSound self.old list.now.cells }
        requires below { HasKeyBelow split_key start list.now.cells }
        ensures hints { HintsAreSound self.new list.now.cells }
        ensures below { HasKeyBelow split_key result list.now.cells }
        ensures rest { self.new ≡ record self.old { current = self.new.current } }
    {
        let interval = self.interval_of(split_key);
        if self.current.get(interval).is_some() {
            return start;
        }
        // A scan from within the interval could miss its first item.
        if self.interval_of(list.split_key(start)) >= interval {
            return start;
        }
        let (at, hint) = self.scan_to_interval(list, interval, start);
        self.current.set_if_unknown(interval, hint);
        at
    }
}
