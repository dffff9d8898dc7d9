//! The owner of a history, which knows all of it and adds entries.
ghost use Rattle.std.specs.Prelude.{◌≡◌, ℕ, true, false, [], ◌∷◌, ◌++◌, length, Some};
ghost use mathlib.Core.List.{IsPrefix};
ghost use Rattle.logbook.specs.Pages.{may_write};
ghost use Rattle.node_shared.specs.Journal.{is_entry_of, entries_of};
ghost use Rattle.node_shared.specs.inside.Lines.{head_of, of_server, turn_of, history_of};

use crate::entry::Entry;
use crate::history::adding::{add_entry, confirm, new_pen, open_turn};
use crate::history::rule::{Added, Turn};
use crate::history::writer::HistoryWriter;
use crate::history::{HistoryId, HistoryWord, SeenHistory, Token};
use logbook::{Pen, Seen, Start, Word};
use std::marker::{Model, PhantomData};
use std::mem;

/// An empty history for a new server, which gives it a name `B`. At run time it is one atomic word.
#[derive(Drop)]
pub struct NewHistory {
    pub(crate) word: HistoryWord,
    seen: Token,
    /// The pen that may add the first line.
    turn: Pen,
    ghost word_is: { word ≡ head_of seen.book },
    ghost pen_is: { turn.book ≡ seen.book },
    ghost may: { turn.nib.right ≡ may_write },
    ghost first: { turn_of (of_server turn.nib.key) seen.log ≡ Some turn.nib.key },
    ghost none: { length (history_of turn.nib.key seen.log) ≡ 0 },
}

impl NewHistory {
    /// Creates an empty history. It takes no memory.
    pub fn new() -> NewHistory
        ensures { history_of result.turn.nib.key result.seen.log ≡ [] }
    {
        let (mut seen, mut first, _second) = Seen::open(Start::alone(), 0, 0);
        let word = Word::tracked(0, &mut first);
        let (turn, _) = new_pen(&word, &mut seen);
        NewHistory { word, seen, turn }
    }

    /// Gives the history the name `B`, and returns its word and its owner.
    pub(crate) fn into_named<B: HistoryId>(self) -> (HistoryWord, HistoryOwner<B>)
        requires book { self.seen.book ≡ B.book }
        requires root { self.turn.nib.key ≡ B.root }
        ensures same { result.0 ≡ self.word }
        ensures word { result.0 ≡ head_of B.book }
        ensures none { result.1 ≡ [] }
    {
        let NewHistory { word, seen, turn } = self;
        (
            word,
            HistoryOwner {
                seen,
                turn,
                id: PhantomData,
            },
        )
    }
}

/// The token that knows the whole history, with the pen that may add to it. A contract sees it as its entries.
#[derive(Drop)]
pub struct HistoryOwner<B: HistoryId> {
    seen: Token,
    turn: Pen,
    id: PhantomData<B>,
}

impl<B: HistoryId> Model for HistoryOwner<B> {
    ghost use Rattle.std.specs.Prelude.{◌≡◌, List, Some};
    ghost use Rattle.std.specs.Coded.{coded_list};
    ghost use Rattle.logbook.specs.Pages.{may_write};
    ghost use Rattle.node_shared.specs.declared.entry.Entry.{Entry};
    ghost use Rattle.node_shared.specs.contracts.entry.Entry as entry;
    ghost use Rattle.node_shared.specs.inside.Lines.{history_of, turn_of, of_server};

    ghost Value = { List Entry };

    ghost coded = { coded_list entry.the_row.coded };

    ghost view = { λ o. history_of B.root o.seen.log };

    ghost invariant = { λ o. (o.seen.book ≡ B.book) × (o.turn.book ≡ B.book) × (o.turn.nib.right ≡ may_write)
        × (turn_of (of_server B.root) o.seen.log ≡ Some o.turn.nib.key) };
}

impl<B: HistoryId> HistoryOwner<B> {
    /// Returns a token of the whole history.
    pub(crate) fn token(&self) -> SeenHistory<B>
        ensures { result ≡ self.now }
    {
        SeenHistory {
            seen: self.seen.again(),
            id: PhantomData,
        }
    }

    /// Adds an entry of the writer's process, as the last of the history, and returns it. The history had all that
    /// `seen` has, and of the process the writer's entries. `seen` becomes the whole history.
    pub(crate) fn enter(
        &mut self,
        word: &HistoryWord,
        writer: &mut HistoryWriter<B>,
        seen: &mut SeenHistory<B>,
        added: Entry,
    ) -> Entry
        requires word { word.now ≡ head_of B.book }
        requires own { is_entry_of writer.old.pid added ≡ true }
        ensures all { self.new ≡ self.old ++ added ∷ [] }
        ensures own { writer.new ≡ record { pid = writer.old.pid; entries = writer.old.entries ++ added ∷ [] } }
        ensures seen { seen.new ≡ self.new }
        ensures before { IsPrefix seen.old self.old }
        ensures exact { entries_of writer.old.pid self.old ≡ writer.old.entries }
        ensures same { result ≡ added }
    {
        let mut now = self.seen.again();
        now.learn(&writer.mine);
        now.learn(&seen.seen);
        let (next, _) = new_pen(word, &mut now);
        let (own, _) = new_pen(word, &mut now);
        let to = Turn {
            next: mem::replace(&mut writer.turn, now.no_pen()),
        };
        // The owner's pen passes the turn to the writer's pen, and that one to the owner's next pen.
        let turn = mem::replace(&mut self.turn, now.no_pen());
        open_turn::<B>(word, &mut now, &self.seen, turn, &to);
        let opened = now.again();
        let Turn { next: turn } = to;
        let line = Added {
            entry: added,
            next,
            own,
        };
        add_entry::<B>(word, &mut now, &opened, &writer.mine, turn, &line);
        let Added { entry, next, own } = line;
        self.seen = now.again();
        self.turn = next;
        writer.mine = now.again();
        writer.turn = own;
        seen.seen = now;
        entry
    }

    /// Adds the first entry of a process, as the last of the history. Returns the process's writer and the entry.
    pub(crate) fn enter_first(
        &mut self,
        word: &HistoryWord,
        pid: u32,
        added: Entry,
    ) -> (HistoryWriter<B>, Entry)
        requires word { word.now ≡ head_of B.book }
        requires own { is_entry_of pid added ≡ true }
        requires none { entries_of pid self.old ≡ [] }
        ensures all { self.new ≡ self.old ++ added ∷ [] }
        ensures own { result.0 ≡ record { pid = pid; entries = added ∷ [] } }
        ensures same { result.1 ≡ added }
    {
        let mut now = self.seen.again();
        let (next, _) = new_pen(word, &mut now);
        let (own, _) = new_pen(word, &mut now);
        let (opener, home) = new_pen(word, &mut now);
        let to = Turn { next: opener };
        // The opener adds the entry. So its word is then at home, and the writer gets it.
        let turn = mem::replace(&mut self.turn, now.no_pen());
        open_turn::<B>(word, &mut now, &self.seen, turn, &to);
        let opened = now.again();
        let Turn { next: turn } = to;
        let line = Added {
            entry: added,
            next,
            own,
        };
        add_entry::<B>(word, &mut now, &opened, &opened, turn, &line);
        let Added { entry, next, own } = line;
        self.seen = now.again();
        self.turn = next;
        let writer = HistoryWriter {
            pid,
            mine: now,
            turn: own,
            word: home,
            id: PhantomData,
        };
        (writer, entry)
    }

    /// Adds an entry of no process, as the last of the history.
    pub(crate) fn enter_growth(&mut self, word: &HistoryWord, added: Entry)
        requires word { word.now ≡ head_of B.book }
        requires own { (p : ℕ) → is_entry_of p added ≡ false }
        ensures all { self.new ≡ self.old ++ added ∷ [] }
    {
        let mut now = self.seen.again();
        let (next, _) = new_pen(word, &mut now);
        let turn = mem::replace(&mut self.turn, now.no_pen());
        let line = Added {
            entry: added,
            next,
            own: now.no_pen(),
        };
        add_entry::<B>(word, &mut now, &self.seen, &self.seen, turn, &line);
        let Added {
            entry: _,
            next,
            own: _,
        } = line;
        self.seen = now;
        self.turn = next;
    }

    /// Shows that the history has all that `seen` has, which becomes the whole history.
    pub(crate) fn show(&mut self, word: &HistoryWord, seen: &mut SeenHistory<B>)
        requires word { word.now ≡ head_of B.book }
        ensures same { self.new ≡ self.old }
        ensures seen { seen.new ≡ self.old }
        ensures before { IsPrefix seen.old self.old }
    {
        let mut now = self.seen.again();
        now.learn(&seen.seen);
        confirm::<B>(word, &mut now, &self.seen, &mut self.turn);
        seen.seen = now;
    }
}
