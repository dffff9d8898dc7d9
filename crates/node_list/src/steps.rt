//! The counter of the nodes that a search reads. The contract of a search states the count after it.
ghost use Rattle.std.specs.Prelude.{◌≡◌};
ghost use Rattle.node_list.specs.Ticks.{tick};

use std::marker::Model;

/// A counter of visited nodes. It only rises, by 1 at a time. At the greatest `u64` it stays.
#[derive(Drop)]
pub struct Steps {
    count: u64,
}

// The value that contracts see of this type (`view`).
impl Model for Steps {
    ghost use Rattle.std.specs.Prelude.{ℕ};
    ghost use Rattle.std.specs.Coded.{coded_ℕ};

    ghost Value = { ℕ };

    ghost coded = { coded_ℕ };

    ghost view = { λ s. s.count };
}

impl Steps {
    /// Returns a counter at 0.
    pub fn new() -> Steps
        ensures { result ≡ 0 }
    {
        Steps { count: 0 }
    }

    /// Returns the count, at most the greatest `u64`.
    pub fn count(&self) -> u64
        ensures { result ≡ self.now }
    {
        self.count
    }

    /// Adds 1, unless the count is the greatest `u64`.
    pub fn tick(&mut self)
        ensures { self.new ≡ tick self.old }
    {
        // `count` is a `&mut u64` into `self`.
        let Steps { count } = self;
        *count = count.saturating_add(1);
    }
}
