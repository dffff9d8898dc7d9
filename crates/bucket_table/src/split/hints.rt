//! The hints, a cache by which a search starts near its goal. An interval is a part of the split keys: at most a quarter
//! of a bucket's. Its hint is the place of its first item, *empty* or *unknown*. A doubling makes intervals half as wide.
//! The *previous* hints are from before the last doubling. A rehash splits them into *current* hints.
ghost use Rattle.std.specs.Prelude.{◌≡◌, ◌⊎◌, ◌<◌, ◌/◌, ◌^◌, [], Some, None, IfOk, IfSome, replicate};
ghost use Rattle.bucket_table.specs.inside.Intervals.{IsNearestBelow};

// The modules: the hint of the `first` item of an interval, the hints of one number of intervals (`generation`), the
// `refresh` of an unknown hint, and the `rehash` of the previous hints.
mod first;
mod generation;
mod refresh;
mod rehash;

use super::hint_list::HintList;
use node_list::At;
use std::alloc::{AllocError, Global};

/// The least number of intervals of a bucket, and the number of intervals in a group.
pub const INTERVALS_PER_BUCKET: usize = 4;

/// The number of bits of a split key: 32 bits of the hash, reversed, and a last bit. The last bit is 1 for an item and
/// 0 for a dummy.
const SPLIT_KEY_BITS: u32 = 33;

/// The greatest number of intervals whose hints `nearest_below` reads. It bounds the time of that call.
const MAX_INTERVALS_SCANNED: usize = 64;

/// The hints of all intervals of split keys: those of the present number of intervals (`current`), and those from before
/// the last doubling (`previous`). The previous hint at `rehash_index` is rehashed next. The interval of a split key is
/// `split_key >> interval_bits`.
#[derive(Drop)]
pub struct Hints {
    pub current: HintList,
    pub previous: HintList,
    pub rehash_index: usize,
    pub interval_bits: u32,
}

impl Hints {
    /// Creates the hints of two buckets without items.
    pub fn new(alloc: Global) -> Result<Hints, AllocError>
        ensures current { IfOk result (λ hints. hints.current ≡ replicate 8 (Some None)) }
        ensures previous { IfOk result (λ hints. hints.previous ≡ []) }
        ensures interval_bits { IfOk result (λ hints. hints.interval_bits ≡ 30) }
    {
        let current = HintList::of_empty_intervals(alloc, 2 * INTERVALS_PER_BUCKET)?;
        Ok(Hints {
            current,
            previous: HintList::new(alloc),
            rehash_index: 0,
            // Two buckets have 8 = 2^3 intervals, so the highest three bits of a split key number its interval.
            interval_bits: SPLIT_KEY_BITS - 3,
        })
    }

    /// Returns the number of the interval of a split key.
    pub fn interval_of(&self, split_key: u64) -> usize
        requires { self.now.interval_bits < 64 }
        ensures { result ≡ split_key / 2 ^ self.now.interval_bits }
    {
        (split_key >> self.interval_bits) as usize
    }

    /// Returns the place of the first item of the nearest interval below `interval` whose hint has a place. Reads the
    /// current and previous hints of at most `MAX_INTERVALS_SCANNED` intervals, down to the interval `floor`. Returns
    /// `None` if none of these hints has a place.
    pub fn nearest_below(&self, floor: usize, interval: usize) -> Option<At>
        ensures { IfSome result (λ at. IsNearestBelow floor interval at self.now.current
            ⊎ IsNearestBelow (floor / 2) (interval / 2) at self.now.previous) }
    {
        let mut lower = interval;
        while floor < lower && interval - lower < MAX_INTERVALS_SCANNED {
            lower -= 1;
            if let Some(Some(first)) = self.current.get(lower) {
                return Some(first);
            }
            // A previous interval is two current ones. Its hint is read after both current hints, and only if both
            // current intervals are below `interval`.
            if lower % 2 == 0 && lower / 2 < interval / 2 {
                if let Some(Some(first)) = self.previous.get(lower / 2) {
                    return Some(first);
                }
            }
        }
        None
    }

    /// Reads the current hints of the lower intervals of the same group of four, the nearest first. Returns the first
    /// place that such a hint has: the place of the first item of its interval. Returns `None` if no such hint has a
    /// place. All intervals of a group are of one bucket.
    #[inline(always)]
    pub fn near_hint_below(&self, interval: usize) -> Option<At>
        ensures { IfSome result (λ at. IsNearestBelow 0 interval at self.now.current) }
    {
        let mut below = interval;
        // The first interval of a group has a multiple of `INTERVALS_PER_BUCKET` as its number.
        while below % INTERVALS_PER_BUCKET != 0 {
            below -= 1;
            if let Some(Some(first)) = self.current.get(below) {
                return Some(first);
            }
        }
        None
    }
}
