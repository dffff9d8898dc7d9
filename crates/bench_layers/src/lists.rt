//! A list that is divided into buckets, and the start of each bucket in it.
ghost use Rattle.std.specs.Prelude.{◌≡◌, ◌+◌, ◌≤◌, ◌<◌, ◌^◌, length, vec_len, vec_capacity, IfOk, OnOk};
ghost use Rattle.split_key.specs.Keys.{key_of_item};
ghost use Rattle.node_list.specs.ListState.{HasRoom};
ghost use Rattle.node_list.specs.Places.{HasSplitKeyAtMost};
ghost use Rattle.bench_layers.specs.Buckets.{HasDummies, IsReady};

use ets_term::{Fnv, Integer, Items, KeyHash, Term};
use node_list::{At, Chain, NodeList, Steps};
use packed_term::{Object, Packed};
use split_key::{bucket_of, item_key, laws, parent, rev32};
use std::alloc::{AllocError, Global};

/// A node list, sorted by split key, and the place of the dummy of each bucket: the sentinel node at the start of the
/// bucket.
#[derive(Drop)]
pub struct BucketedList {
    list: NodeList,
    dummies: Vec<At>,
}

impl BucketedList {
    /// Builds a list whose only node is the dummy of bucket 0. It has capacity for `items` items, and for the places of
    /// `buckets` more dummies.
    pub fn new(alloc: Global, items: usize, buckets: usize) -> Result<BucketedList, AllocError>
        ensures dummies { IfOk result (λ l. HasDummies l.dummies.items l.list.cells) }
        ensures one { IfOk result (λ l. vec_len l.dummies ≡ 1) }
        ensures room { IfOk result (λ l. HasRoom l.list items) }
        ensures capacity { IfOk result (λ l. 1 + buckets ≤ vec_capacity l.dummies) }
    {
        let mut list = NodeList::new(alloc)?;
        list.reserve(items)?;
        let mut dummies = Vec::new(alloc);
        dummies.push(list.head())?;
        dummies.reserve(buckets)?;
        Ok(BucketedList { list, dummies })
    }

    /// Inserts the dummy of the next bucket. The search for its place begins at the dummy of its parent bucket, whose
    /// number is the same without the highest bit. If memory is refused, returns an error and inserts nothing.
    pub fn add_dummy(&mut self) -> Result<(), AllocError>
        requires dummies { HasDummies self.old.dummies.items self.old.list.cells }
        requires some { 0 < vec_len self.old.dummies }
        requires few { vec_len self.old.dummies < 2 ^ 32 }
        requires capacity { vec_len self.old.dummies < vec_capacity self.old.dummies }
        ensures dummies { OnOk result (HasDummies self.new.dummies.items self.new.list.cells) }
        ensures len { OnOk result (vec_len self.new.dummies ≡ vec_len self.old.dummies + 1) }
        ensures capacity { vec_capacity self.new.dummies ≡ vec_capacity self.old.dummies }
        ensures nodes { OnOk result (length self.new.list.cells ≡ length self.old.list.cells + 1) }
        ensures room { OnOk result (self.new.list.capacity ≡ self.old.list.capacity + 1) }
    {
        let bucket = self.dummies.len() as u32;
        let parent_bucket = parent(bucket);
        laws::parent_comes_before(bucket, parent_bucket);
        let start = self.dummies[parent_bucket as usize];
        let at = self.list.insert_dummy(start, rev32(bucket))?;
        self.dummies.push_reserved(at);
        Ok(())
    }

    /// Returns the place of the dummy of this hash's bucket. A search or an insertion begins there.
    fn start(&self, hash: u32) -> At
        requires { IsReady self.now }
        ensures { HasSplitKeyAtMost (key_of_item hash) result self.now.list.cells }
    {
        let buckets = self.dummies.len() as u32;
        let bucket = bucket_of(hash, buckets);
        laws::bucket_is_interval(hash, bucket, buckets);
        self.dummies[bucket as usize]
    }

    /// Inserts the item of a number K, with the key K and the object `{K,1}`, into its bucket.
    pub fn add_item(&mut self, alloc: Global, number: Integer) -> Result<(), AllocError>
        requires ready { IsReady self.old }
        requires room { HasRoom self.old.list 1 }
        ensures ready { IsReady self.new }
        ensures nodes { OnOk result (length self.new.list.cells ≡ length self.old.list.cells + 1) }
        ensures room { self.new.list.capacity ≡ self.old.list.capacity }
    {
        let fields = vec![in alloc; Term::Int(number), Term::Int(1)]?;
        let object = Object::pack(alloc, &Term::Tuple(Items::from_vec(fields)))?;
        let key = Term::Int(number);
        let hash = Fnv.hash32(&key);
        let start = self.start(hash);
        let own_key = Packed::pack(alloc, &key)?;
        let chain = Chain::one(alloc, object);
        self.list.insert_item(start, rev32(hash), own_key, chain);
        Ok(())
    }

    /// Returns whether the item of this number is in its bucket.
    pub fn has_item(&self, number: Integer, steps: &mut Steps) -> bool
        requires { IsReady self.now }
    {
        let key = Term::Int(number);
        let hash = Fnv.hash32(&key);
        let start = self.start(hash);
        self.list.find(start, item_key(hash), &key, steps).is_some()
    }
}
