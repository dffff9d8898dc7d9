//! The items of a bucket are one interval of split keys, which begins at the bucket's dummy, and doubling
//! the buckets cuts that interval in two.
//!
//! *Guarantee.* One list sorted by split keys serves 2, 4, 8 .. buckets at once: each bucket of each
//! size is an interval of the list, and no node moves when the number of buckets is doubled.
//!
//! *Weakness.* Items with equal hashes have equal split keys, so a search must also compare their keys.
//! The order of the list has no meaning for a user, and a bad hasher makes a bucket long at every size.
//!
//! *Mechanism.* With `size` buckets, a hash belongs to bucket `hash mod size`: its low bits. A split key is the hash
//! with its bits reversed, so the bits of the bucket come first, and split keys sort by bucket. One further bit at the
//! end is 1 for an item and 0 for the dummy at the start of its bucket. With 8 buckets, in the order of their dummies:
//!
//! ```text
//!   bucket      0    4    2    6    1    5    3    7
//!   in bits    000  100  010  110  001  101  011  111
//!   reversed   000  001  010  011  100  101  110  111
//!   of 4        0         2         1         3
//!   of 2        0                   1
//! ```
//!
//! The last two rows show the dummies of 4 and of 2 buckets. Each dummy keeps its place in the list when the number of
//! buckets is doubled.
//!
//! *Limits.* Hashes and buckets are below 2^32, split keys below 2^33.
//!
//! O. Shalev and N. Shavit, "Split-ordered lists: lock-free extensible hash tables", J. ACM 53(3), 2006.
#![tactic(auto)]

// The modules: the `buckets` of hashes, the split `keys`, and the `laws` of both.
mod buckets;
mod keys;
pub mod laws;

pub use buckets::{bucket_of, parent};
pub use keys::{dummy_key, item_key, rev32};
