//! The modules of the tests, and what they share: types for the numbers of processes, tables and buckets, and
//! `keep_if_ok` for changes that can fail.

// Tests of `node_core::Node`: steps and their replies.
mod node;
// Reads the terms that the tests write as texts.
mod text;
// Tests of `ownership::World`: processes, tables, owners and heirs.
mod world;

/// The number of a process.
#[derive(Clone, Copy, PartialEq, Eq)]
pub struct Pid(u32);

/// The identifier of a table.
#[derive(Clone, Copy, PartialEq, Eq)]
pub struct Tid(u32);

/// The number of a bucket of a table.
#[derive(Clone, Copy, PartialEq, Eq)]
pub struct Bucket(u32);

/// Returns the value if the change of it succeeded; otherwise drops the value and returns the error of the change.
fn keep_if_ok<T: Drop, E>(changed: Result<(), E>, value: T) -> Result<T, E> {
    match changed {
        Ok(()) => Ok(value),
        Err(error) => {
            drop(value);
            Err(error)
        }
    }
}
