//! How a caller sees the history of its server, before it reads.
// A reader compares lengths: the history has all that the caller saw if it is at least as long. The caller's own server
// always has such a history, but no contract can say so. So `look` may answer `false`, also if a length is the greatest
// `u64` and says nothing. A caller that has the lock as a writer needs no length: the owner's pen shows it.
ghost use Rattle.std.specs.Prelude.{◌≡◌, MatchBool};
ghost use Rattle.node_shared.specs.Journal.{IsRun};
ghost use Rattle.node_shared.specs.Serving.{SeesMore};
ghost use Rattle.node_shared.specs.inside.Lines.{head_of};

use super::Caller;
use crate::history::{HistoryId, HistoryWord};
use crate::served::ServedNode;
use ets_term::KeyHash;

impl<B: HistoryId> Caller<B> {
    /// Sees the whole history if its length shows that it has all that this caller saw. Returns whether it did.
    pub(super) fn look<H: KeyHash + Copy + Drop>(&mut self, served: &ServedNode<B, H>) -> bool
        ensures seen { MatchBool result (self.new.seen ≡ served.now.history) (self.new ≡ self.old) }
        ensures more { MatchBool result (SeesMore self.old self.new) (self.new ≡ self.old) }
    {
        let count = served.count();
        if self.count > count || self.count == u64::MAX {
            return false;
        }
        let all = served.token();
        self.seen.begins(&all);
        self.writer.confirm(&all);
        self.seen = all;
        self.count = count;
        true
    }

    /// Sees the whole history. The node does not change.
    pub(super) fn look_alone<H: KeyHash + Copy + Drop>(
        &mut self,
        word: &HistoryWord,
        served: &mut ServedNode<B, H>,
    )
        requires { word.now ≡ head_of B.book }
        ensures seen { self.new.seen ≡ served.old.history }
        ensures more { SeesMore self.old self.new }
        ensures run { IsRun B.limits served.old.history served.old.state }
        ensures same { served.new ≡ served.old }
    {
        served.show(word, &mut self.seen);
        self.writer.confirm(&self.seen);
        self.count = served.count();
    }
}
