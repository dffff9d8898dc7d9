//! The writers of a history's entries, one for each process.
ghost use Rattle.std.specs.Prelude.{◌≡◌, ◌≢◌, []};
ghost use mathlib.Core.List.{IsPrefix};
ghost use Rattle.node_shared.specs.Journal.{entries_of};

use crate::history::adding::confirm_own;
use crate::history::{HistoryId, HistoryWord, SeenHistory, Token};
use logbook::Pen;
use std::marker::{Model, PhantomData};

/// The writer of a process's entries: a token of the history as it was after the last of them, and the pen that alone
/// may add another one. `word` is an atomic word of the history's book, which stays 0 and which no other thread uses. A
/// contract sees the process and its entries.
#[derive(Drop)]
pub struct HistoryWriter<B: HistoryId> {
    pub(super) pid: u32,
    pub(super) mine: Token,
    pub(super) turn: Pen,
    pub(super) word: HistoryWord,
    pub(super) id: PhantomData<B>,
}

impl<B: HistoryId> Model for HistoryWriter<B> {
    ghost use Rattle.std.specs.Prelude.{◌≡◌, Some};
    ghost use Rattle.logbook.specs.Pages.{may_write};
    ghost use Rattle.node_shared.specs.Journal.{entries_of};
    ghost use Rattle.node_shared.specs.Records.{RecordState};
    ghost use Rattle.node_shared.specs.inside.Codes.{record_code};
    ghost use Rattle.node_shared.specs.inside.Lines.{history_of, turn_of, of_process, word_of, IsSpent};

    ghost Value = { RecordState };

    ghost coded = { record_code };

    ghost view = { λ w. record { pid = w.pid; entries = entries_of w.pid (history_of B.root w.mine.log) } };

    ghost invariant = { λ w. (w.mine.book ≡ B.book) × (w.turn.book ≡ B.book) × (w.turn.nib.right ≡ may_write)
        × (turn_of (of_process B.root w.pid) w.mine.log ≡ Some w.turn.nib.key)
        × (w.word ≡ word_of B.book w.word.key) × IsSpent w.word.key w.mine.log };
}

impl<B: HistoryId> HistoryWriter<B> {
    /// Returns the number of the process.
    pub(crate) fn pid(&self) -> u32
        ensures { result ≡ self.now.pid }
    {
        self.pid
    }

    /// Shows that the process has an entry. It does nothing.
    pub(crate) fn has_joined(&self)
        ensures { self.now.entries ≢ [] }
    {
        // The borrow gives the proof the invariant of `self`.
        let _turn = &self.turn;
    }

    /// Shows that what was seen has, of the process, exactly the writer's entries. It writes 0 over 0 in the writer's
    /// own word: in this atomic step the pen tells that no entry of the process was added since.
    pub(crate) fn confirm(&mut self, seen: &SeenHistory<B>)
        requires { IsPrefix self.old.entries (entries_of self.old.pid seen.now) }
        ensures same { self.new ≡ self.old }
        ensures exact { entries_of self.old.pid seen.now ≡ self.old.entries }
    {
        let mut now = self.mine.again();
        now.learn(&seen.seen);
        confirm_own::<B>(&self.word, self.pid, &mut now, &self.mine, &mut self.turn);
    }
}
