//! When a bucket becomes ready, the previous hints of its first four intervals are rehashed, and those of its parent.
//! The parent is the bucket that a doubling split to create this bucket. A hint caches the place of the first item of an
//! interval.

ghost use Rattle.std.specs.Prelude.{◌≡◌};
ghost use Rattle.bucket_table.specs.inside.SplitIndex.{RowsInvariant, KeepsDirectory};

use super::SplitIndex;
use ets_term::KeyHash;
use split_key::{dummy_key, parent};

impl<H: KeyHash + Copy + Drop> SplitIndex<H> {
    /// Rehashes the first hints of a bucket, and those of its parent. After a list that was inserted by one call there
    /// may be no further insertion that rehashes them.
    pub fn rehash_with_parent(&mut self, bucket: u32)
        requires rows { RowsInvariant H.hash self.old }
        ensures rows { RowsInvariant H.hash self.new }
        ensures keeps { KeepsDirectory self.old self.new }
        ensures cells { self.new.list.cells ≡ self.old.list.cells }
    {
        self.rehash_bucket(bucket);
        if bucket > 0 {
            self.rehash_bucket(parent(bucket));
        }
    }

    /// Rehashes the first hints of a bucket.
    fn rehash_bucket(&mut self, bucket: u32)
        requires rows { RowsInvariant H.hash self.old }
        ensures rows { RowsInvariant H.hash self.new }
        ensures keeps { KeepsDirectory self.old self.new }
        ensures cells { self.new.list.cells ≡ self.old.list.cells }
    {
        self.hints.rehash_bucket(&self.list, dummy_key(bucket));
    }
}
