//! A bucket is ready if the directory has the place of its dummy, the first node of the bucket. A search without a hint
//! starts at the nearest ready bucket: the bucket of its hash, or the first ready one among that bucket's ancestors. A
//! doubling adds buckets that are not ready.

ghost use Rattle.std.specs.Prelude.{◌≡◌, ℕ, ◌%◌, ◌<◌, ◌≤◌, ◌*◌, ◌^◌, ◌++◌, None, OnOk, OnErr, length, replicate};
ghost use Rattle.split_key.specs.Keys.{key_of_item};
ghost use Rattle.bucket_table.specs.inside.Directory.{IsNearestReady, AllReadyBelow, IsFirstUnready};
ghost use Rattle.bucket_table.specs.inside.Intervals.{HasIntervalsFor};
ghost use Rattle.bucket_table.specs.inside.SplitIndex.{RowsInvariant};

use super::SplitIndex;
use crate::split::hints::INTERVALS_PER_BUCKET;
use ets_term::KeyHash;
use node_list::At;
use split_key::{bucket_of, laws, parent, rev32};
use std::alloc::AllocError;

impl<H: KeyHash + Copy + Drop> SplitIndex<H> {
    /// Returns the first ready bucket among this bucket, its parent, the parent's parent and so on, with the place of
    /// its dummy.
    pub fn nearest_ready(&self, bucket: u32) -> (u32, At)
        requires rows { RowsInvariant H.hash self.now }
        requires below { bucket < length self.now.directory }
        ensures { IsNearestReady self.now.directory bucket result.0 result.1 }
    {
        // `at` is the number of a bucket here, not a place.
        let mut at = bucket;
        loop {
            if let Some(place) = self.directory.get(at as usize) {
                return (at, place);
            }
            // Bucket 0 is always ready.
            if at == 0 {
                unreachable!();
            }
            let before = parent(at);
            // The law does nothing at run time. It gives the proof that the number falls, so the loop ends.
            laws::parent_comes_before(at, before);
            at = before;
        }
    }

    /// Returns the nearest ready bucket for a hash, with the place of its dummy. A search by the hash can start there.
    pub fn bucket_start(&self, hash: u32) -> (u32, At)
        requires rows { RowsInvariant H.hash self.now }
        ensures { IsNearestReady self.now.directory (hash % length self.now.directory) result.0 result.1 }
    {
        let bucket = bucket_of(hash, self.directory.len() as u32);
        self.nearest_ready(bucket)
    }

    /// Doubles the number of intervals if a bucket would have fewer than four after a doubling of the buckets.
    fn narrow_intervals(&mut self) -> Result<(), AllocError>
        requires rows { RowsInvariant H.hash self.old }
        requires few { length self.old.directory < 2 ^ 20 }
        ensures rows { RowsInvariant H.hash self.new }
        ensures rest { self.new ≡ record self.old { hints = self.new.hints } }
        ensures ok { OnOk result (HasIntervalsFor (2 * length self.old.directory) self.new.hints.interval_bits) }
    {
        if self.hints.intervals() > INTERVALS_PER_BUCKET * self.directory.len() {
            return Ok(());
        }
        self.hints.double()
    }

    /// Doubles the number of buckets, with at least four intervals for each. The new buckets are not ready. If memory
    /// is refused, adds no bucket.
    pub fn double_buckets(&mut self) -> Result<(), AllocError>
        requires rows { RowsInvariant H.hash self.old }
        requires few { length self.old.directory < 2 ^ 20 }
        ensures rows { RowsInvariant H.hash self.new }
        ensures ok { OnOk result (self.new.directory
            ≡ self.old.directory ++ replicate (length self.old.directory) None) }
        ensures err { OnErr result (self.new.directory ≡ self.old.directory) }
        ensures list { self.new.list ≡ self.old.list }
        ensures hasher { self.new.hasher ≡ self.old.hasher }
    {
        self.narrow_intervals()?;
        self.directory.double()
    }

    /// Returns the lowest bucket from `from` on that is not ready. If all are ready, returns the number of buckets.
    pub fn first_unready(&self, from: usize) -> usize
        requires before { AllReadyBelow self.now.directory from }
        requires most { from ≤ length self.now.directory }
        ensures { IsFirstUnready self.now.directory result }
    {
        let mut first_unready = from;
        while first_unready < self.directory.len() {
            if self.directory.get(first_unready).is_none() {
                return first_unready;
            }
            first_unready += 1;
        }
        first_unready
    }
}

/// Computes the hash of an item from its split key: drops the last bit and reverses the others.
pub fn item_hash(split_key: u64) -> u32
    requires { split_key < 2 ^ 33 }
    ensures { (hash : ℕ) → split_key ≡ key_of_item hash → result ≡ hash % 2 ^ 32 }
{
    rev32((split_key / 2) as u32)
}
