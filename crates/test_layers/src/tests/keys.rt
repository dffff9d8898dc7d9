//! Split keys and buckets, compared with expected values. The split key of an item is its reversed hash with a last bit
//! 1. The split key of a dummy is its reversed bucket number with a last bit 0. A split key has 33 bits.
use split_key::{bucket_of, dummy_key, item_key, parent, rev32};
use std::process::Abort;

/// The hash of the atom `a` by FNV-1a.
const HASH_OF_A: u32 = 58_490_007;

/// An eighth of the 2^33 split keys.
const EIGHTH: u64 = 1_073_741_824;

/// The 8 buckets in the order of their split keys: by their three bits, reversed. Each has an eighth of the split keys.
const EIGHT_IN_ORDER: [u32; 8] = [0, 4, 2, 6, 1, 5, 3, 7];

/// Returns whether the dummies of these buckets divide the split keys into eighths, in this order.
fn dummies_are_at_eighths(buckets: &[u32]) -> bool {
    let mut key = 0u64;
    for bucket in buckets {
        if dummy_key(*bucket) != key {
            return false;
        }
        key = key.wrapping_add(EIGHTH);
    }
    true
}

/// Checks the split keys of the dummies of 8 buckets.
#[test]
fn dummies_of_eight_buckets_are_at_eighths(rt: HostRuntime) {
    assert!(rt; dummies_are_at_eighths(&EIGHT_IN_ORDER));
}

/// Each row is a bucket, and the split key of its dummy.
const DUMMIES: [(u32, u64); 4] = [
    (0, 0),
    (1, 4_294_967_296),
    (2, 2_147_483_648),
    (3, 6_442_450_944),
];

/// Returns whether the dummy of each bucket has the split key of its row.
fn dummies_have_keys(rows: &[(u32, u64)]) -> bool {
    for (bucket, key) in rows {
        if dummy_key(*bucket) != *key {
            return false;
        }
    }
    true
}

/// Checks the split keys of dummies, which are even.
#[test]
fn dummies_have_their_split_keys(rt: HostRuntime) {
    assert!(rt; dummies_have_keys(&DUMMIES));
}

/// Each row is a hash, and the split key of an item of this hash.
const ITEMS: [(u32, u64); 4] = [
    (0, 1),
    (1, 4_294_967_297),
    (HASH_OF_A, 7_826_341_249),
    (u32::MAX, 8_589_934_591),
];

/// Returns whether an item of each hash has the split key of its row.
fn items_have_keys(rows: &[(u32, u64)]) -> bool {
    for (hash, key) in rows {
        if item_key(*hash) != *key {
            return false;
        }
    }
    true
}

/// Checks the split keys of items, which are odd, and `rev32`, which reverses the bits of a hash.
#[test]
fn items_have_their_split_keys(rt: HostRuntime) {
    assert!(rt; items_have_keys(&ITEMS));
    assert!(rt; rev32(1) == 2_147_483_648 && rev32(2_147_483_648) == 1);
}

/// Each row is a bucket, and its parent.
const PARENTS: [(u32, u32); 5] = [(1, 0), (3, 1), (6, 2), (12, 4), (u32::MAX, 2_147_483_647)];

/// Returns whether each bucket has the parent of its row. `parent` requires a bucket other than 0, so a row of bucket 0
/// fails.
fn buckets_have_parents(rows: &[(u32, u32)]) -> bool {
    for (bucket, wanted) in rows {
        if *bucket == 0 || parent(*bucket) != *wanted {
            return false;
        }
    }
    true
}

/// Checks the parents of buckets: a bucket without its highest bit.
#[test]
fn buckets_have_their_parents(rt: HostRuntime) {
    assert!(rt; buckets_have_parents(&PARENTS));
}

/// Returns whether a hash is in bucket `of_two` of two buckets, and in bucket `of_four` of four.
fn is_in_buckets(hash: u32, of_two: u32, of_four: u32) -> bool {
    let four = bucket_of(hash, 4);
    four == of_four && bucket_of(hash, 2) == of_two
}

/// Checks in which buckets the hash of the atom `a` is.
#[test]
fn a_hash_is_in_its_buckets(rt: HostRuntime) {
    assert!(rt; is_in_buckets(HASH_OF_A, 1, 3));
}
