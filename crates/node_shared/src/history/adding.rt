//! The atomic steps on a history's word: they make pens, add lines to the log, or tell that none was added.
// A pen is a token of `logbook`. Here it is the right to add the next line of a server, or of a process of the server.
// `server` and `mine` are tokens: it was the pen's turn when the log was that of this token.
ghost use Rattle.std.specs.Prelude.{◌≡◌, ℕ, true, [], ◌∷◌, ◌++◌, Some};
ghost use mathlib.Core.List.{IsPrefix};
ghost use Rattle.logbook.specs.Pages.{may_write};
ghost use Rattle.node_shared.specs.Journal.{is_entry_of, entries_of};
ghost use Rattle.node_shared.specs.inside.Lines.{word_of, head_of, of_server, of_process, turn_of, history_of, IsNew, IsSpent, MayEnter};

use crate::history::rule::{AddLine, Added, Confirm, HistoryRule, Line, MakePen, Nothing, Turn};
use crate::history::{HistoryId, HistoryWord, Token};
use logbook::{Offer, Pen, Word};

/// Makes a pen and its word, which is at home once the pen has added a line. No line names the pen yet.
pub(super) fn new_pen(word: &HistoryWord, seen: &mut Token) -> (Pen, HistoryWord)
    requires { word.now ≡ head_of seen.old.book }
    ensures book { seen.new.book ≡ seen.old.book }
    ensures later { IsPrefix seen.old.log seen.new.log }
    ensures pen { (result.0.book ≡ seen.old.book) × (result.0.nib.right ≡ may_write) }
    ensures fresh { IsNew result.0.nib.key seen.new.log }
    ensures word { result.1 ≡ word_of seen.old.book result.0.nib.key }
{
    let mut offer: Offer<Line, u64, HistoryRule, Nothing> = seen.plain::<Nothing, (), MakePen>(&());
    let mut pen = seen.no_pen();
    word.compare_exchange::<MakePen, Nothing>(0, 0, seen, &mut offer, &mut pen);
    let made = Word::tracked(0, &mut pen);
    (pen, made)
}

/// Adds a line without an entry, which passes the server's turn to another pen.
pub(super) fn open_turn<B: HistoryId>(
    word: &HistoryWord,
    seen: &mut Token,
    server: &Token,
    mut turn: Pen,
    to: &Turn,
)
    requires word { word.now ≡ head_of B.book }
    requires books { (seen.old.book ≡ B.book) × (turn.book ≡ B.book) }
    requires right { turn.nib.right ≡ may_write }
    requires early { IsPrefix server.now.log seen.old.log }
    requires turn { turn_of (of_server B.root) server.now.log ≡ Some turn.nib.key }
    ensures book { seen.new.book ≡ B.book }
    ensures later { IsPrefix seen.old.log seen.new.log }
    ensures same { history_of B.root seen.new.log ≡ history_of B.root server.now.log }
    ensures next { turn_of (of_server B.root) seen.new.log ≡ Some to.now.next.nib.key }
    ensures before { IsPrefix (history_of B.root seen.old.log) (history_of B.root server.now.log) }
{
    let mut offer: Offer<Line, u64, HistoryRule, Nothing> = seen.plain::<Nothing, Turn, AddLine<B>>(
        to,
    );
    word.compare_exchange::<AddLine<B>, Nothing>(0, 0, seen, &mut offer, &mut turn);
}

/// Adds a line with an entry. It passes the server's turn, and that of the entry's process, to other pens.
pub(super) fn add_entry<B: HistoryId>(
    word: &HistoryWord,
    seen: &mut Token,
    server: &Token,
    mine: &Token,
    mut turn: Pen,
    added: &Added,
)
    requires word { word.now ≡ head_of B.book }
    requires books { (seen.old.book ≡ B.book) × (turn.book ≡ B.book) }
    requires right { turn.nib.right ≡ may_write }
    requires early { IsPrefix server.now.log seen.old.log }
    requires own_early { IsPrefix mine.now.log seen.old.log }
    requires turn { turn_of (of_server B.root) server.now.log ≡ Some turn.nib.key }
    requires own { (p : ℕ) → is_entry_of p added.now.entry ≡ true
        → MayEnter B.root p server.now.log mine.now.log turn.nib.key }
    ensures book { seen.new.book ≡ B.book }
    ensures all { history_of B.root seen.new.log ≡ history_of B.root server.now.log ++ added.now.entry ∷ [] }
    ensures exact { (p : ℕ) → turn_of (of_process B.root p) mine.now.log ≡ Some turn.nib.key
        → entries_of p (history_of B.root server.now.log) ≡ entries_of p (history_of B.root mine.now.log) }
    ensures later { IsPrefix seen.old.log seen.new.log }
    ensures next { turn_of (of_server B.root) seen.new.log ≡ Some added.now.next.nib.key }
    ensures spent { IsSpent turn.nib.key seen.new.log }
    ensures own { (p : ℕ) → is_entry_of p added.now.entry ≡ true
        → turn_of (of_process B.root p) seen.new.log ≡ Some added.now.own.nib.key }
    ensures before { IsPrefix (history_of B.root seen.old.log) (history_of B.root server.now.log) }
{
    let mut offer: Offer<Line, u64, HistoryRule, Nothing> = seen.plain::<
        Nothing,
        Added,
        AddLine<B>,
    >(added);
    word.compare_exchange::<AddLine<B>, Nothing>(0, 0, seen, &mut offer, &mut turn);
}

/// Adds nothing. The server's pen, whose turn it is, shows that the server has no line more.
pub(super) fn confirm<B: HistoryId>(
    word: &HistoryWord,
    seen: &mut Token,
    server: &Token,
    turn: &mut Pen,
)
    requires word { word.now ≡ head_of B.book }
    requires books { (seen.old.book ≡ B.book) × (turn.old.book ≡ B.book) }
    requires right { turn.old.nib.right ≡ may_write }
    requires early { IsPrefix server.now.log seen.old.log }
    requires turn { turn_of (of_server B.root) server.now.log ≡ Some turn.old.nib.key }
    ensures book { seen.new.book ≡ B.book }
    ensures pen { (turn.new.book ≡ B.book) × (turn.new.nib ≡ turn.old.nib) }
    ensures same { history_of B.root seen.new.log ≡ history_of B.root server.now.log }
    ensures before { IsPrefix (history_of B.root seen.old.log) (history_of B.root server.now.log) }
{
    let mut offer: Offer<Line, u64, HistoryRule, Nothing> = seen.plain::<Nothing, (), MakePen>(&());
    word.compare_exchange::<Confirm, Nothing>(0, 0, seen, &mut offer, turn);
}

/// Adds nothing. The pen of a process, whose turn it is, shows that the process has no entry more. The word may be any
/// that is at home: such a step shows the same on each word of a book.
pub(super) fn confirm_own<B: HistoryId>(
    word: &HistoryWord,
    pid: u32,
    seen: &mut Token,
    mine: &Token,
    turn: &mut Pen,
)
    requires word { word.now ≡ word_of B.book word.now.key }
    requires home { IsSpent word.now.key mine.now.log }
    requires books { (seen.old.book ≡ B.book) × (turn.old.book ≡ B.book) }
    requires right { turn.old.nib.right ≡ may_write }
    requires early { IsPrefix mine.now.log seen.old.log }
    requires turn { turn_of (of_process B.root pid) mine.now.log ≡ Some turn.old.nib.key }
    ensures later { IsPrefix seen.old.log seen.new.log }
    ensures pen { (turn.new.book ≡ B.book) × (turn.new.nib ≡ turn.old.nib) }
    ensures exact { entries_of pid (history_of B.root seen.new.log) ≡ entries_of pid (history_of B.root mine.now.log) }
{
    let mut offer: Offer<Line, u64, HistoryRule, Nothing> = seen.plain::<Nothing, (), MakePen>(&());
    word.compare_exchange::<Confirm, Nothing>(0, 0, seen, &mut offer, turn);
}
