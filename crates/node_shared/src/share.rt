//! The share of a process: the right to run its steps, and its part of the ledger, which counts its entries in the
//! journal.
ghost use Rattle.std.specs.Prelude.{◌≡◌};

use std::marker::Model;
use std::sync::ledger;
use std::sync::ledger::Ledger;

/// The right to run the steps of one process, and the count of its entries in the journal. A contract sees the process
/// and the count.
#[derive(Drop)]
pub struct Share<L: Ledger> {
    /// The process's part of the ledger: the kit's token, whose amount is the count of the process's entries.
    pub(crate) tokens: ledger::Share<L>,
    /// The number of the process.
    pub(crate) pid: u32,
}

impl<L: Ledger> Model for Share<L> {
    ghost use Rattle.std.specs.Prelude.{◌≡◌};
    ghost use Rattle.node_shared.specs.Records.{ShareState};

    ghost Value = { ShareState };

    ghost view = { λ s. record { pid = s.pid; amount = s.tokens.amount } };

    ghost invariant = { λ s. s.tokens.parts ≡ 1 };
}

impl<L: Ledger> Share<L> {
    /// Returns the number of the process. It takes no memory.
    pub fn pid(&self) -> u32
        ensures { result ≡ self.now.pid }
    {
        self.pid
    }
}
