//! A whole table: the calls of ets, without the table names and the protection that a node adds.
use crate::bench_table::{BenchTable, build_object, has_value, is_full, key_of};
use bucket_table::SplitRows;
use counters::{Op, Ops};
use ets_term::Fnv;
use std::alloc::{AllocError, Global};
use table_ops::{Kind, Refusal, Table};

/// The counter operation that adds 1 to the second element.
const ADD_ONE: Ops = Ops::One(Op {
    position: 2,
    increment: 1,
    threshold: None,
});

/// Returns an error if the refusal is out of memory, or false for any other refusal.
fn out_of_memory_or_false(refusal: Refusal) -> Result<bool, AllocError> {
    match refusal {
        Refusal::Memory => Err(AllocError),
        _ => Ok(false),
    }
}

impl BenchTable for Table<SplitRows<Fnv>> {
    fn empty(alloc: Global) -> Result<Table<SplitRows<Fnv>>, AllocError> {
        let rows = SplitRows::new(alloc, Fnv)?;
        // The key is element 1, and `u32::MAX` is the limit of objects.
        Ok(Table::new(alloc, rows, Kind::Set, 1, u32::MAX))
    }

    fn name() -> &'static str {
        "table"
    }

    fn insert(&mut self, alloc: Global, k: u64) -> Result<bool, AllocError> {
        let objects = [build_object(alloc, k)?];
        if let Err(refusal) = Table::insert(self, &objects) {
            return out_of_memory_or_false(refusal);
        }
        if grow_if_pending(self)? {
            grow_if_pending(self)?;
        }
        Ok(true)
    }

    fn has_object(&mut self, k: u64) -> bool {
        has_value(self.lookup(&key_of(k)))
    }

    fn lacks_key(&mut self, k: u64) -> bool {
        !self.member(&key_of(k))
    }

    fn count_up(&mut self, _alloc: Global, k: u64) -> Result<bool, AllocError> {
        match self.update_counter(&key_of(k), &ADD_ONE, None) {
            Ok(_) => Ok(true),
            Err(refusal) => out_of_memory_or_false(refusal),
        }
    }

    fn delete(&mut self, k: u64) -> bool {
        let before = self.size();
        // The table is not fixed, so that no tombstone stays: `false`.
        self.delete_key(&key_of(k), false);
        self.size() < before
    }

    fn double(&mut self) -> Result<(), AllocError> {
        self.grow()?;
        Ok(())
    }
}

/// Makes the first unready bucket ready, or doubles the buckets if they are full. Returns whether a growth step was
/// pending.
fn grow_if_pending(table: &mut Table<SplitRows<Fnv>>) -> Result<bool, AllocError> {
    if let Some(bucket) = table.first_unready() {
        table.ready(bucket)?;
        return Ok(true);
    }
    let must_double = is_full(table.slots(), table.buckets());
    if must_double {
        table.grow()?;
    }
    Ok(must_double)
}
