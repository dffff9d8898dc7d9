//! Writes the reasons of refused lines to a second writer.
ghost use Rattle.std.specs.Prelude.{◌≡◌, ◌+◌, ◌-◌, ◌<◌, ◌^◌, ◌⊎◌, false, OnOk, OnErr};
ghost use Rattle.node_reasons.specs.Diagnostics.{diagnostic_text};
ghost use Rattle.ets_packets.specs.Output.{HasWriterOf};
ghost use Rattle.ets_script.specs.inside.Explanations.{Explains};
ghost use Rattle.ets_script.specs.inside.Reasons.{KeepsOutput, WritesAll, WritesText, WritesWhy, reason_line};

use crate::answer::Answer;
use crate::explain::explain;
use crate::observer::Observer;
use crate::script::Script;
use ets_packets::Output;
use ets_term::KeyHash;
use node_reasons::Diagnostic;
use std::alloc::{AllocError, Global};
use std::io::Write;

/// An observer that writes for each refused line its number and why it was refused. After its writer failed, it writes
/// no more.
#[derive(Drop)]
pub struct WhyWriter<'a, E> {
    alloc: Global,
    output: Output<'a, E>,
    /// The number of lines so far.
    lines: u64,
    /// Whether the writer has failed.
    has_failed: bool,
}

impl<'a, E: Write> WhyWriter<'a, E> {
    /// Creates the observer, before the first line.
    pub fn new(alloc: Global, output: Output<'a, E>) -> WhyWriter<'a, E>
        ensures lines { result.lines ≡ 0 }
        ensures output { result.output ≡ output.entry }
        ensures working { result.has_failed ≡ false }
    {
        WhyWriter {
            alloc,
            output,
            lines: 0,
            has_failed: false,
        }
    }

    /// Counts the next line, and returns its number. The first is line 1.
    fn next_number(&mut self) -> u64
        ensures number { self.old.lines < 2 ^ 64 - 1 → result ≡ self.old.lines + 1 }
        ensures lines { self.new.lines ≡ result }
        ensures same_output { self.new.output ≡ self.old.output }
        ensures same_state { self.new.has_failed ≡ self.old.has_failed }
    {
        self.lines = self.lines.saturating_add(1);
        self.lines
    }

    /// Writes a diagnostic that `write_why` has found, with the number of its line. If memory runs out for the text,
    /// writes nothing.
    fn write_reason(&mut self, number: u64, diagnostic: &Diagnostic<'_>) -> Result<(), AllocError>
        ensures same_lines { self.new.lines ≡ self.old.lines }
        ensures same_writer { HasWriterOf self.old.output self.new.output }
        ensures ok { OnOk result (WritesText E.contents self.old self.new
            (reason_line number (diagnostic_text diagnostic.now))) }
        ensures err { OnErr result (self.new ≡ self.old) }
    {
        let text = format!(in self.alloc; "line {number}: {diagnostic}\n")?;
        self.write_text(text.as_bytes());
        Ok(())
    }

    /// Writes this text, unless the writer has failed before.
    fn write_text(&mut self, text: &[u8])
        ensures same_lines { self.new.lines ≡ self.old.lines }
        ensures same_writer { HasWriterOf self.old.output self.new.output }
        ensures text { WritesText E.contents self.old self.new text.now }
    {
        if !self.has_failed {
            self.has_failed = self.output.add(text).is_err();
        }
    }

    /// Finds out whether this line was refused and why, and passes the diagnostic to `write_reason`. Writes nothing if
    /// the line was not refused, or memory runs out.
    fn write_why<H: KeyHash + Copy + Drop>(
        &mut self,
        number: u64,
        script: &Script<H>,
        line: &[u8],
        answer: &Answer,
    ) -> Result<(), AllocError>
        ensures same_lines { self.new.lines ≡ self.old.lines }
        ensures same_writer { HasWriterOf self.old.output self.new.output }
        ensures ok { OnOk result (WritesWhy E.contents self.old self.new number
            (Explains script.now line.now answer.now)) }
        ensures err { OnErr result (self.new ≡ self.old) }
    {
        match explain(script, line, answer)? {
            Some(diagnostic) => self.write_reason(number, &diagnostic),
            None => Ok(()),
        }
    }
}

impl<E: Write> Observer for WhyWriter<'_, E> {
    fn line_answered<H: KeyHash + Copy + Drop>(
        &mut self,
        script: &Script<H>,
        line: &[u8],
        answer: &Answer,
    )
        ensures lines { self.old.lines < 2 ^ 64 - 1 → self.new.lines ≡ self.old.lines + 1 }
        ensures same_writer { HasWriterOf self.old.output self.new.output }
        ensures text { WritesWhy E.contents self.old self.new self.new.lines
            (Explains script.now line.now answer.now) ⊎ KeepsOutput self.old self.new }
    {
        let number = self.next_number();
        // If memory runs out, the reason of this line is left out, and the script goes on.
        let _ = self.write_why(number, script, line, answer);
    }

    fn flush(&mut self)
        ensures same_lines { self.new.lines ≡ self.old.lines }
        ensures same_writer { HasWriterOf self.old.output self.new.output }
        ensures text { WritesAll E.contents self.old self.new }
    {
        if !self.has_failed {
            self.has_failed = self.output.flush().is_err();
        }
    }
}
