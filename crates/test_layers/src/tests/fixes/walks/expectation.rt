//! What a table should have during a traversal, and what the traversal has visited. It is a plain model, a vector of
//! values by key, with which the table is compared.
use crate::tests::keep_if_some;
use std::alloc::Global;

/// What a table should have during a traversal, while other processes insert and delete. It begins with the lower half
/// of the keys.
#[derive(Drop)]
pub(super) struct Expectation {
    /// The number of keys. They are the numbers below it.
    pub(super) keys: u32,
    /// The values of each key's objects. A value is 1, 2 or 4, so that a set of values is one number, a bit for each.
    /// No two objects of a key have the same value.
    values: Vec<u32>,
    /// Whether each key is stable: it has had values at the start and after each step so far.
    stable: Vec<bool>,
    /// Whether the traversal has visited each key.
    visited: Vec<bool>,
}

impl Expectation {
    /// Builds the expectation of a table that has the lower half of the keys, each with the value 1.
    pub(super) fn new(alloc: Global, keys: u32) -> Option<Expectation> {
        let mut expectation = Expectation {
            keys,
            values: Vec::new(alloc),
            stable: Vec::new(alloc),
            visited: Vec::new(alloc),
        };
        keep_if_some(expectation.push_keys(), expectation)
    }

    /// Pushes what is expected of each key at the start.
    fn push_keys(&mut self) -> Option<()> {
        for key in 0..self.keys {
            let is_present = key < self.keys / 2;
            self.values.push(u32::from(is_present)).ok()?;
            self.stable.push(is_present).ok()?;
            self.visited.push(false).ok()?;
        }
        Some(())
    }

    /// Returns the values of a key, a bit for each. 0 means that the key has no objects.
    pub(super) fn values_of(&self, key: u32) -> u32 {
        self.values.get(key as usize).copied().unwrap_or(0)
    }

    /// Sets the values of a key, a bit for each. A key without values is no longer stable.
    pub(super) fn set_values(&mut self, key: u32, values: u32) {
        if let Some(current) = self.values.get_mut(key as usize) {
            *current = values;
        }
        if let Some(stable) = self.stable.get_mut(key as usize) {
            *stable = *stable && values != 0;
        }
    }

    /// Marks a key as visited. Returns whether it has values and is visited for the first time.
    pub(super) fn mark_visited(&mut self, key: u32) -> bool {
        let is_present = self.values_of(key) != 0;
        match self.visited.get_mut(key as usize) {
            Some(visited) => {
                let is_first = !*visited;
                *visited = true;
                is_present && is_first
            }
            None => false,
        }
    }

    /// Returns how many keys are stable.
    pub(super) fn count_stable(&self) -> usize {
        self.stable.iter().filter(|stable| **stable).count()
    }

    /// Returns whether the traversal has visited each stable key.
    pub(super) fn has_visited_stable(&self) -> bool {
        for (stable, visited) in self.stable.iter().zip(self.visited.iter()) {
            if *stable && !*visited {
                return false;
            }
        }
        true
    }

    /// Returns how many keys have values.
    pub(super) fn count_present(&self) -> usize {
        self.values.iter().filter(|values| **values != 0).count()
    }
}
