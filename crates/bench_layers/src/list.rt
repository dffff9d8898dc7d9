//! Inserts items into a list with buckets, and searches for them.
ghost use Rattle.std.specs.Prelude.{◌≡◌, ◌≤◌, ◌<◌, ◌^◌, IfOk};
ghost use Rattle.split_key.specs.Keys.{IsPowerOfTwo};
ghost use Rattle.node_list.specs.ListState.{HasRoom};
ghost use Rattle.bench_layers.specs.Buckets.{IsReady};

use crate::lists::BucketedList;
use crate::order::{order_len, shuffled_number};
use ets_term::Integer;
use node_list::Steps;
use std::alloc::{AllocError, Global};

/// The greatest number of items, and of buckets.
const MAX_COUNT: u64 = 1 << 31;

/// The seed of the order in which items are inserted.
const INSERT_SEED: u64 = 1;

/// The seed of the order in which items are searched for.
const FIND_SEED: u64 = 2;

/// Inserts the objects `{K,1}`, for each K below `item_count` in shuffled order, into a list of `buckets` buckets. If
/// `finds` is 0, it then returns 0, so that the caller times the insertions alone. Otherwise it searches for each key
/// in another order, and returns how many it found. It also returns 0 if `buckets` is not a power of two, if
/// `item_count` or `buckets` is above 2^31, or if memory runs out.
#[unsafe(no_mangle)]
pub extern "C" fn bench_layers_list(alloc: Global, item_count: u64, buckets: u64, finds: u64) -> u64
    ensures { finds ≡ 0 → result ≡ 0 }
{
    if item_count > MAX_COUNT || buckets == 0 || buckets > MAX_COUNT {
        return 0;
    }
    if buckets.next_power_of_two() != buckets {
        return 0;
    }
    let Ok(list) = build_list(alloc, item_count, buckets) else {
        return 0;
    };
    if finds == 0 {
        return 0;
    }
    count_found(&list, item_count)
}

/// Builds a list of `buckets` buckets, and inserts the items.
fn build_list(alloc: Global, item_count: u64, buckets: u64) -> Result<BucketedList, AllocError>
    requires some { 0 < buckets }
    requires power { IsPowerOfTwo buckets }
    requires few_items { item_count ≤ 2 ^ 31 }
    requires few_buckets { buckets ≤ 2 ^ 31 }
    ensures { IfOk result (λ l. IsReady l) }
{
    let mut list = build_empty_list(alloc, item_count, buckets)?;
    insert(alloc, &mut list, item_count)?;
    Ok(list)
}

/// Builds a list without items: only the dummy, the sentinel node, of each of the `buckets` buckets. The list has
/// capacity for the items.
fn build_empty_list(
    alloc: Global,
    item_count: u64,
    buckets: u64,
) -> Result<BucketedList, AllocError>
    requires some { 0 < buckets }
    requires power { IsPowerOfTwo buckets }
    requires few_items { item_count ≤ 2 ^ 31 }
    requires few_buckets { buckets ≤ 2 ^ 31 }
    ensures ready { IfOk result (λ l. IsReady l) }
    ensures room { IfOk result (λ l. HasRoom l.list item_count) }
{
    let mut list = BucketedList::new(alloc, item_count as usize, buckets as usize)?;
    for _bucket in 1..buckets {
        list.add_dummy()?;
    }
    Ok(list)
}

/// Inserts an item for each number below `item_count`, in shuffled order.
fn insert(alloc: Global, list: &mut BucketedList, item_count: u64) -> Result<(), AllocError>
    requires ready { IsReady list.old }
    requires few_items { item_count ≤ 2 ^ 31 }
    requires room { HasRoom list.old.list item_count }
    ensures { IsReady list.new }
{
    let len = order_len(item_count);
    // The number of items still to insert. It is above 0 at each of them: only the proof needs `left > 0`.
    let mut left = item_count;
    for i in 0..len {
        let number = shuffled_number(i, INSERT_SEED, len - 1);
        if number < item_count && left > 0 {
            left -= 1;
            list.add_item(alloc, Integer::from(number))?;
        }
    }
    Ok(())
}

/// Searches for the item of each number below `item_count`, in another shuffled order. Returns how many it found.
fn count_found(list: &BucketedList, item_count: u64) -> u64
    requires ready { IsReady list.now }
    requires few_items { item_count ≤ 2 ^ 31 }
{
    let len = order_len(item_count);
    // A counter of visited nodes, which `has_item` needs. It is not read.
    let mut steps = Steps::new();
    let mut found = 0;
    for i in 0..len {
        let number = shuffled_number(i, FIND_SEED, len - 1);
        if number < item_count && list.has_item(Integer::from(number), &mut steps) {
            found += 1;
        }
    }
    found
}
