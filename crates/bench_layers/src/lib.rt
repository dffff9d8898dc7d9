//! Functions of the lowest layers, which a program of `bench/`, the driver, times. Each is safe, ends, and returns a
//! number that the driver compares.
#![tactic(auto)]

mod list; // inserts items into a list and searches for them
mod lists; // a list with its buckets
mod order; // a shuffled order of the items
mod text; // reads and prints a term

pub use list::bench_layers_list;
pub use text::{bench_layers_print, bench_layers_read};
