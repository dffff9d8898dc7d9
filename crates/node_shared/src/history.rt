//! A history that exists only in proofs: the entries of a server. Tokens of the kit's crate `logbook` know it. The
//! owner's token knows all of it, and a caller's token what the caller saw. At run time the history is one atomic word,
//! which stays 0.
ghost use Rattle.std.specs.Prelude.{◌≡◌, ◌≤◌, length};
ghost use mathlib.Core.List.{IsPrefix};

mod adding;
mod owner;
mod rule;
mod writer;

use logbook::{Seen, Word};
pub use owner::{HistoryOwner, NewHistory};
pub use rule::{HistoryRule, Line};
use std::marker::{Brand, Model, PhantomData};
pub use writer::HistoryWriter;

/// Names a history, and the limits of its node. A program chooses them anew for each history.
pub trait HistoryId {
    ghost use Rattle.std.specs.Prelude.{ℕ};
    ghost use Rattle.logbook.specs.Pages.{Book};
    ghost use Rattle.node_core.specs.declared.limits.Limits.{Limits};

    /// The book of the crate `logbook` that has the history.
    ghost book: { Book };

    /// The key of the history's first pen. It tells the history from others in this book.
    ghost root: { ℕ };

    /// The limits of the node.
    ghost limits: { Limits };
}

/// The type that a program passes for `B`. The proof of the call picks its meaning, so these values are placeholders.
impl HistoryId for Brand {
    ghost use Rattle.node_shared.specs.inside.History.{no_book, no_limits};

    ghost book = { no_book };

    ghost root = { 0 };

    ghost limits = { no_limits };
}

/// The atomic word of a history, which stays 0.
pub type HistoryWord = Word<Line, u64, HistoryRule>;

/// A token of the log: a beginning of it that was seen. It has no bytes.
type Token = Seen<Line, u64, HistoryRule>;

/// What was seen of a history: its first entries. It has no bytes.
#[derive(Drop)]
pub struct SeenHistory<B: HistoryId> {
    seen: Token,
    id: PhantomData<B>,
}

impl<B: HistoryId> Model for SeenHistory<B> {
    ghost use Rattle.std.specs.Prelude.{◌≡◌, List};
    ghost use Rattle.std.specs.Coded.{coded_list};
    ghost use Rattle.node_shared.specs.declared.entry.Entry.{Entry};
    ghost use Rattle.node_shared.specs.contracts.entry.Entry as entry;
    ghost use Rattle.node_shared.specs.inside.Lines.{history_of};

    ghost Value = { List Entry };

    ghost coded = { coded_list entry.the_row.coded };

    ghost view = { λ s. history_of B.root s.seen.log };

    ghost invariant = { λ s. s.seen.book ≡ B.book };
}

impl<B: HistoryId> SeenHistory<B> {
    /// Returns a copy.
    pub(crate) fn again(&self) -> SeenHistory<B>
        ensures { result ≡ self.now }
    {
        SeenHistory {
            seen: self.seen.again(),
            id: PhantomData,
        }
    }

    /// Shows that these entries are the first of the other ones, which are as many or more. It does nothing.
    pub(crate) fn begins(&self, other: &SeenHistory<B>)
        requires { length self.now ≤ length other.now }
        ensures { IsPrefix self.now other.now }
    {
        let mut both = self.seen.again();
        both.learn(&other.seen);
    }

    /// Returns a history that begins with all that both have seen.
    pub(crate) fn with(&self, other: &SeenHistory<B>) -> SeenHistory<B>
        ensures this { IsPrefix self.now result }
        ensures that { IsPrefix other.now result }
    {
        let mut seen = self.seen.again();
        seen.learn(&other.seen);
        SeenHistory {
            seen,
            id: PhantomData,
        }
    }
}
