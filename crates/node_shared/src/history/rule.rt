//! The lines of the log of a book, and the steps that change it.
use crate::entry::Entry;
use crate::history::HistoryId;
use logbook::{Gain, Pen, Plain, Play, Rule};
use std::marker::PhantomData;

/// A line of the log. No value of this type exists at run time.
pub struct Line {
    pub entry: Option<Entry>,
    /// The key of the first pen of the line's server.
    pub chain: u64,
    /// The key of the pen that may add the server's next line.
    pub next: u64,
    /// The key of the pen that may add the next line of the entry's process.
    pub own: u64,
}

/// The rule that always holds: each line was added with the pen whose turn it was.
pub struct HistoryRule;

impl Rule<Line, u64> for HistoryRule {
    ghost use Rattle.std.specs.Prelude.{[]};
    ghost use base.Fml.{ftrue};
    ghost use Rattle.node_shared.specs.inside.Lines.{IsKept};

    ghost holds = { λ cells log. IsKept cells log };

    ghost first = { [] };

    ghost hinted = { λ n log. Unit {0} };

    ghost shows = { λ log. [] };

    ghost keeps = { λ names log. ftrue };

    ghost moves = { λ ask before after answer. Unit {0} };
}

/// Users of the book trade nothing.
pub struct Nothing;

impl Gain<Line, u64> for Nothing {
    ghost use base.Fml.{ftrue};

    ghost after = { λ names about answer. ftrue };
}

/// The atomic step that makes a pen.
pub struct MakePen;

impl Play<Line, u64> for MakePen {
    ghost use Rattle.node_shared.specs.inside.Lines.{MakesPen};

    ghost then = { MakesPen };
}

impl Plain<(), Line, u64> for MakePen {
    ghost use Rattle.std.specs.Prelude.{None};
    ghost use Rattle.node_shared.specs.inside.Lines.{no_line};

    ghost ask = { λ _. no_line };

    ghost state = { λ _. None };
}

/// The atomic step that adds a line.
pub struct AddLine<B: HistoryId> {
    id: PhantomData<B>,
}

impl<B: HistoryId> Play<Line, u64> for AddLine<B> {
    ghost use Rattle.node_shared.specs.inside.Lines.{AddsLine};

    ghost then = { AddsLine };
}

/// What a line says that has no entry: whose turn is next.
pub struct Turn {
    pub next: Pen,
}

impl<B: HistoryId> Plain<Turn, Line, u64> for AddLine<B> {
    ghost use Rattle.std.specs.Prelude.{None};

    ghost ask = { λ t. record { entry = None; chain = B.root; next = t.next.nib.key; own = 0 } };

    ghost state = { λ _. None };
}

/// What a line says that has an entry.
pub struct Added {
    pub entry: Entry,
    pub next: Pen,
    pub own: Pen,
}

impl<B: HistoryId> Plain<Added, Line, u64> for AddLine<B> {
    ghost use Rattle.std.specs.Prelude.{None, Some};

    ghost ask = { λ a. record { entry = Some a.entry; chain = B.root; next = a.next.nib.key; own = a.own.nib.key } };

    ghost state = { λ _. None };
}

/// The atomic step that adds nothing, and tells that no line was added since.
pub struct Confirm;

impl Play<Line, u64> for Confirm {
    ghost use Rattle.node_shared.specs.inside.Lines.{Confirms};

    ghost then = { Confirms };
}
