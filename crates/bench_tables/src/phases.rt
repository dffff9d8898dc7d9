//! The phases of the benchmark: one call for each key, in an order of the phase's own.
use crate::bench_table::BenchTable;
use crate::order::shuffle;
use std::alloc::{AllocError, Global};

/// A phase of the benchmark. All its calls are of one kind.
#[derive(Clone, Copy)]
pub enum Phase {
    /// Insertions of new keys.
    Insert,
    /// Lookups of keys in the table.
    Hit,
    /// Searches for keys that are not in the table.
    Miss,
    /// Additions of one to the value of a key.
    Counter,
    /// Deletions of keys in the table.
    Delete,
}

/// All phases, in the order in which a table goes through them.
pub const PHASES: [Phase; 5] = [
    Phase::Insert,
    Phase::Hit,
    Phase::Miss,
    Phase::Counter,
    Phase::Delete,
];

impl Phase {
    /// Returns the name of the phase in a report.
    pub(crate) fn name(self) -> &'static str {
        match self {
            Phase::Insert => "insert",
            Phase::Hit => "hit",
            Phase::Miss => "miss",
            Phase::Counter => "counter",
            Phase::Delete => "delete",
        }
    }

    /// Returns the seed of the order in which the phase takes the keys. Each phase has an order of its own.
    fn seed(self) -> u64 {
        match self {
            Phase::Insert => 1,
            Phase::Hit => 2,
            Phase::Miss => 3,
            Phase::Counter => 4,
            Phase::Delete => 5,
        }
    }

    /// Returns the keys in this phase's order. The keys of `Miss` are not in the table.
    pub(crate) fn keys(self, alloc: Global, count: u64) -> Result<Vec<u64>, AllocError> {
        match self {
            Phase::Miss => absent_keys(alloc, count, self.seed()),
            _ => shuffle(alloc, count, self.seed()),
        }
    }

    /// Runs the phase. Returns how many of its calls did what they should.
    pub(crate) fn run<T: BenchTable>(
        self,
        alloc: Global,
        table: &mut T,
        keys: &[u64],
    ) -> Result<u64, AllocError> {
        match self {
            Phase::Insert => insert_all(alloc, table, keys),
            Phase::Hit => Ok(hit_all(table, keys)),
            Phase::Miss => Ok(miss_all(table, keys)),
            Phase::Counter => count_up_all(alloc, table, keys),
            Phase::Delete => Ok(delete_all(table, keys)),
        }
    }
}

/// Returns `count` keys that are not in the table, in the order of this seed. The keys of the table are below `count`.
fn absent_keys(alloc: Global, count: u64, seed: u64) -> Result<Vec<u64>, AllocError> {
    let mut keys = shuffle(alloc, count, seed)?;
    for key in &mut keys {
        *key = key.wrapping_add(count);
    }
    Ok(keys)
}

/// Inserts an object under each key. Returns how many calls did so.
fn insert_all<T: BenchTable>(
    alloc: Global,
    table: &mut T,
    keys: &[u64],
) -> Result<u64, AllocError> {
    let mut inserted: u64 = 0;
    for key in keys {
        inserted = inserted.wrapping_add(u64::from(table.insert(alloc, *key)?));
    }
    Ok(inserted)
}

/// Looks up the object of each key. Returns how many were found.
fn hit_all<T: BenchTable>(table: &mut T, keys: &[u64]) -> u64 {
    let mut found: u64 = 0;
    for key in keys {
        found = found.wrapping_add(u64::from(table.has_object(*key)));
    }
    found
}

/// Searches for each key, none of which is in the table. Returns how many were missing.
fn miss_all<T: BenchTable>(table: &mut T, keys: &[u64]) -> u64 {
    let mut missed: u64 = 0;
    for key in keys {
        missed = missed.wrapping_add(u64::from(table.lacks_key(*key)));
    }
    missed
}

/// Adds one to the value of each key. Returns how many calls did so.
fn count_up_all<T: BenchTable>(
    alloc: Global,
    table: &mut T,
    keys: &[u64],
) -> Result<u64, AllocError> {
    let mut counted: u64 = 0;
    for key in keys {
        counted = counted.wrapping_add(u64::from(table.count_up(alloc, *key)?));
    }
    Ok(counted)
}

/// Deletes the object of each key. Returns how many calls did so.
fn delete_all<T: BenchTable>(table: &mut T, keys: &[u64]) -> u64 {
    let mut deleted: u64 = 0;
    for key in keys {
        deleted = deleted.wrapping_add(u64::from(table.delete(*key)));
    }
    deleted
}
