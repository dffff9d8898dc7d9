//! The rows alone: the slots of a table, each a key with its objects.
use crate::bench_table::{BenchTable, build_object, has_value, is_full, key_of, value_of};
use bucket_table::{Rows, SlotEntry, SplitRows};
use ets_term::Fnv;
use node_list::Chain;
use packed_term::{Object, Packed};
use std::alloc::{AllocError, Global};

impl BenchTable for SplitRows<Fnv> {
    fn empty(alloc: Global) -> Result<SplitRows<Fnv>, AllocError> {
        SplitRows::new(alloc, Fnv)
    }

    fn name() -> &'static str {
        "rows"
    }

    fn insert(&mut self, alloc: Global, k: u64) -> Result<bool, AllocError> {
        let key = key_of(k);
        let SlotEntry::Vacant(hash) = self.entry(&key) else {
            return Ok(false);
        };
        let objects = Chain::one(alloc, Object::pack(alloc, &build_object(alloc, k)?)?);
        self.put_at(hash, &key, objects)?;
        if grow_if_pending(self)? {
            grow_if_pending(self)?;
        }
        Ok(true)
    }

    fn has_object(&mut self, k: u64) -> bool {
        match self.get(&key_of(k)) {
            Some(objects) => has_value(objects),
            None => false,
        }
    }

    fn lacks_key(&mut self, k: u64) -> bool {
        self.get(&key_of(k)).is_none()
    }

    fn count_up(&mut self, alloc: Global, k: u64) -> Result<bool, AllocError> {
        let Some(place) = self.find(&key_of(k)) else {
            return Ok(false);
        };
        let Some(value) = self.objects_at(place).first().and_then(value_of) else {
            return Ok(false);
        };
        let next = Packed::integer(alloc, value.wrapping_add(1))?;
        // The slot has no objects while the value is changed.
        let mut objects = self.replace_at(place, Chain::new(alloc));
        objects.set_element(1, next);
        self.replace_at(place, objects);
        Ok(true)
    }

    fn delete(&mut self, k: u64) -> bool {
        self.remove(&key_of(k)).is_some()
    }

    fn double(&mut self) -> Result<(), AllocError> {
        self.grow()?;
        Ok(())
    }
}

/// Makes the first unready bucket ready, or doubles the buckets if they are full. Returns whether a growth step was
/// pending.
fn grow_if_pending(rows: &mut SplitRows<Fnv>) -> Result<bool, AllocError> {
    if let Some(bucket) = rows.first_unready() {
        rows.ready(bucket)?;
        return Ok(true);
    }
    let must_double = is_full(rows.len(), rows.buckets());
    if must_double {
        rows.grow()?;
    }
    Ok(must_double)
}
