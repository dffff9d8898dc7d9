//! `Looks`, the counter of the objects that a search tests. A search passes the counter as `looks` to the functions
//! that test objects by a `Trial`. The counter exists at run time, as one `u64`.
ghost use Rattle.std.specs.Prelude.{◌≡◌};
ghost use Rattle.node_list.specs.Ticks.{tick};

use std::marker::Model;

/// A counter of tested objects. Each test of an object by a pattern or match specification adds 1, up to the greatest
/// `u64`. The contracts of searches state by this count how many objects a search tests. If memory runs out, they state
/// only a bound. A search without a `Looks` as an argument makes one and drops it.
#[derive(Drop)]
pub struct Looks {
    count: u64,
}

// The value that contracts see of this type (`view`).
impl Model for Looks {
    ghost use Rattle.std.specs.Prelude.{ℕ};
    ghost use Rattle.std.specs.Coded.{coded_ℕ};

    ghost Value = { ℕ };

    ghost coded = { coded_ℕ };

    ghost view = { λ l. l.count };
}

impl Looks {
    /// Returns a counter at 0.
    pub fn new() -> Looks
        ensures { result ≡ 0 }
    {
        Looks { count: 0 }
    }

    /// Returns the number of objects counted so far, at most the greatest `u64`.
    pub fn count(&self) -> u64
        ensures { result ≡ self.now }
    {
        self.count
    }

    /// Counts one more object, unless the count is the greatest `u64`.
    pub(crate) fn tick(&mut self)
        ensures { self.new ≡ tick self.old }
    {
        let Looks { count } = self;
        *count = count.saturating_add(1);
    }
}
