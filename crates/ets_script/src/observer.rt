//! Observers of answered lines.
use crate::answer::Answer;
use crate::script::Script;
use ets_term::KeyHash;

/// An observer of each answered line, in order. It does not change the script.
pub trait Observer {
    /// Called when a line was answered. A line that is too long is passed as an empty text.
    fn line_answered<H: KeyHash + Copy + Drop>(
        &mut self,
        script: &Script<H>,
        line: &[u8],
        answer: &Answer,
    );

    /// Called when the answers so far were written.
    fn flush(&mut self);
}

/// An observer that does nothing.
#[derive(Drop)]
pub struct NoObserver;

impl Observer for NoObserver {
    fn line_answered<H: KeyHash + Copy + Drop>(
        &mut self,
        _script: &Script<H>,
        _line: &[u8],
        _answer: &Answer,
    ) {}

    fn flush(&mut self) {}
}
