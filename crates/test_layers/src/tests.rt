//! Tests of the layers below a table, from terms up to fixed tables.

// A term that is too deep for recursion.
mod depths;
// Fixes, tombstones and traversals of one table.
mod fixes;
// The hasher FNV-1a.
mod hashes;
// The seeded hash of terms, `Keyed`.
mod keyed;
// Split keys and buckets.
mod keys;
// Node lists and chains.
mod lists;
// Terms: atoms, depths and order.
mod terms;
// The text of terms: reading and printing.
mod text;
// Updates of counters and elements.
mod updates;

/// Returns the value if the operation on the value succeeded, else drops the value and returns the error. Tests
/// build a value by pushes that may run out of memory.
fn keep_if_ok<T: Drop, E>(outcome: Result<(), E>, value: T) -> Result<T, E> {
    match outcome {
        Ok(()) => Ok(value),
        Err(error) => {
            drop(value);
            Err(error)
        }
    }
}

/// Returns the value if the operation on the value succeeded (`Some`), else drops the value and returns `None`.
fn keep_if_some<T: Drop>(outcome: Option<()>, value: T) -> Option<T> {
    match outcome {
        Some(()) => Some(value),
        None => {
            drop(value);
            None
        }
    }
}
