//! Runs a script line by line, from its first line to its last.
ghost use Rattle.std.specs.Prelude.{◌≡◌, [], false, IfOk, IfErr, OnOk, OnErr};
ghost use Rattle.node_core.specs.Observable.{observable};
ghost use Rattle.ets_packets.specs.Traffic.{flow, traffic};
ghost use Rattle.ets_packets.specs.Output.{HasWriterOf, buffered_bytes, writer_flow};
ghost use Rattle.ets_script.specs.Flows.{flows};
ghost use Rattle.ets_script.specs.Numbers.{ConstantsHaveValues};
ghost use Rattle.ets_script.specs.Script.{at_start};
ghost use Rattle.ets_script.specs.Stops.{Completes, LeavesNode, Stops};
ghost use Rattle.ets_script.specs.inside.Answered.{AnswersNext, AnswersPart, EndsAll, BreaksAtEnd};

use crate::answer::Answer;
use crate::fault::ScriptFault;
use crate::line_buffer::LineBuffer;
use crate::lines::NextLine;
use crate::node_settings::NodeSettings;
use crate::observer::{NoObserver, Observer};
use crate::script::Script;
use crate::streams::Streams;
use crate::why_writer::WhyWriter;
use ets_packets::{Output, WriteFault, output_buffer};
use ets_term::KeyHash;
use node_core::Node;
use std::alloc::Global;
use std::io::{Read, Write};

/// The greatest number of times that a script reads its input, so that a script with an endless input stops.
pub const MAX_READS: u32 = 1_000_000_000;

/// Answers each line of a script, from an empty node with these settings to the node that it returns. All answers so
/// far are written before each read, and at the end.
pub fn run_script<R: Read, W: Write, H: KeyHash + Copy + Drop>(
    alloc: Global,
    streams: &mut Streams<R, W>,
    settings: NodeSettings<H>,
) -> Result<Node<H>, ScriptFault>
    ensures ok { IfOk result (λ node. LeavesNode (at_start settings.limits) (observable node)
        (flows R.remaining W.contents streams.old streams.new)) }
    ensures err { IfErr result (Stops (at_start settings.limits)
        (flows R.remaining W.contents streams.old streams.new)) }
    ensures numbers { ConstantsHaveValues }
{
    run_within(alloc, streams, settings, MAX_READS)
}

/// Runs a script as `run_script` does, with at most this many reads.
pub fn run_within<R: Read, W: Write, H: KeyHash + Copy + Drop>(
    alloc: Global,
    streams: &mut Streams<R, W>,
    settings: NodeSettings<H>,
    reads: u32,
) -> Result<Node<H>, ScriptFault>
    ensures ok { IfOk result (λ node. LeavesNode (at_start settings.limits) (observable node)
        (flows R.remaining W.contents streams.old streams.new)) }
    ensures err { IfErr result (Stops (at_start settings.limits)
        (flows R.remaining W.contents streams.old streams.new)) }
{
    let script = Script::new(alloc, settings.limits, settings.hasher);
    run_with(streams, script, reads, &mut NoObserver)
}

/// Runs a script as `run_script` does, and reports why lines were refused. Writes a line for each, after the answers to
/// the lines that were read with it. If writing a reason fails, no more reasons are reported, but lines are still
/// answered.
pub fn run_script_with_reasons<R: Read, W: Write, E: Write, H: KeyHash + Copy + Drop>(
    alloc: Global,
    streams: &mut Streams<R, W>,
    errors: &mut E,
    settings: NodeSettings<H>,
) -> Result<Node<H>, ScriptFault>
    ensures ok { IfOk result (λ node. LeavesNode (at_start settings.limits) (observable node)
        (flows R.remaining W.contents streams.old streams.new)) }
    ensures err { IfErr result (Stops (at_start settings.limits)
        (flows R.remaining W.contents streams.old streams.new)) }
{
    let Ok(mut bytes) = output_buffer(alloc) else {
        return Err(ScriptFault::Memory);
    };
    let mut reasons = WhyWriter::new(alloc, Output::new(&mut bytes, errors));
    let script = Script::new(alloc, settings.limits, settings.hasher);
    let end = run_with(streams, script, MAX_READS, &mut reasons);
    reasons.flush();
    end
}

/// Runs a script from its present state, with at most this many reads and an observer.
fn run_with<R: Read, W: Write, H: KeyHash + Copy + Drop, L: Observer>(
    streams: &mut Streams<R, W>,
    mut script: Script<H>,
    reads: u32,
    observer: &mut L,
) -> Result<Node<H>, ScriptFault>
    ensures ok { IfOk result (λ node. LeavesNode script (observable node)
        (flows R.remaining W.contents streams.old streams.new)) }
    ensures err { IfErr result (Stops script
        (flows R.remaining W.contents streams.old streams.new)) }
{
    match answer_streams(streams, &mut script, reads, observer) {
        Ok(()) => Ok(script.into_node()),
        Err(fault) => {
            drop(script);
            Err(fault)
        }
    }
}

/// Answers all lines of the input, with at most this many reads.
fn answer_streams<R: Read, W: Write, H: KeyHash + Copy + Drop, L: Observer>(
    streams: &mut Streams<R, W>,
    script: &mut Script<H>,
    reads: u32,
    observer: &mut L,
) -> Result<(), ScriptFault>
    ensures ok { OnOk result (Completes script.old script.new
        (flows R.remaining W.contents streams.old streams.new)) }
    ensures err { IfErr result (Stops script.old
        (flows R.remaining W.contents streams.old streams.new)) }
{
    let alloc = script.allocator();
    let Ok(mut buffer) = LineBuffer::new(alloc, reads) else {
        return Err(ScriptFault::Memory);
    };
    let Ok(mut bytes) = output_buffer(alloc) else {
        return Err(ScriptFault::Memory);
    };
    let mut output = Output::new(&mut bytes, &mut streams.output);
    let input = &mut streams.input;
    answer_all(input, &mut output, &mut buffer, script, observer)
}

/// Answers all lines, and writes all answers.
fn answer_all<R: Read, W: Write, H: KeyHash + Copy + Drop, L: Observer>(
    reader: &mut R,
    output: &mut Output<'_, W>,
    buffer: &mut LineBuffer,
    script: &mut Script<H>,
    observer: &mut L,
) -> Result<(), ScriptFault>
    requires waiting { buffered_bytes output.old ≡ [] }
    requires buffer { (buffer.old.bytes ≡ []) × (buffer.old.is_skipping ≡ false) }
    ensures same_writer { HasWriterOf output.old output.new }
    ensures ok { OnOk result (Completes script.old script.new
        (traffic (flow R.remaining reader.old reader.new)
        (writer_flow W.contents output.old output.new))) }
    ensures err { IfErr result (Stops script.old
        (traffic (flow R.remaining reader.old reader.new)
        (writer_flow W.contents output.old output.new))) }
{
    let mut answer = Answer::Silent;
    loop {
        let Some(taken) = answer_next(buffer, script, observer, &mut answer) else {
            output.flush()?;
            observer.flush();
            buffer.skip_long();
            if buffer.refill(reader)? == 0 {
                answer_last(buffer, output, script, observer)?;
                return Ok(());
            }
            continue;
        };
        answer.print(output)?;
        buffer.consume(taken);
    }
}

/// Answers the next line, if its LF is buffered, and returns the number of the line's bytes. Returns `None` if more
/// bytes must be read first. The answer is written over the previous answer.
fn answer_next<H: KeyHash + Copy + Drop, L: Observer>(
    buffer: &LineBuffer,
    script: &mut Script<H>,
    observer: &mut L,
    answer: &mut Answer,
) -> Option<usize>
    ensures { AnswersNext buffer.now script.old script.new answer.new result }
{
    match buffer.next_line() {
        NextLine::Text { text, taken } => {
            let line = &buffer.bytes()[..text];
            script.answer(line, answer);
            observer.line_answered(script, line, answer);
            Some(taken)
        }
        NextLine::TooLong { taken } => {
            *answer = Answer::TooLong;
            observer.line_answered(script, &[], answer);
            Some(taken)
        }
        NextLine::NeedsMore => None,
    }
}

/// Answers the buffered bytes as the last line, which has no LF, and writes all answers.
fn answer_last<W: Write, H: KeyHash + Copy + Drop, L: Observer>(
    buffer: &LineBuffer,
    output: &mut Output<'_, W>,
    script: &mut Script<H>,
    observer: &mut L,
) -> Result<(), WriteFault>
    ensures same_writer { HasWriterOf output.old output.new }
    ensures ok { OnOk result (EndsAll buffer.now script.old script.new (buffered_bytes output.old)
        (writer_flow W.contents output.old output.new)) }
    ensures err { OnErr result (BreaksAtEnd buffer.now script.old script.new
        (buffered_bytes output.old) (writer_flow W.contents output.old output.new)) }
{
    let last = answer_part(buffer, script);
    observer.line_answered(script, buffer.bytes(), &last);
    last.print(output)?;
    output.flush()
}

/// Answers the buffered bytes as a line without an LF, or returns `TooLong` if the start of the line was discarded. An
/// empty line prints nothing.
fn answer_part<H: KeyHash + Copy + Drop>(buffer: &LineBuffer, script: &mut Script<H>) -> Answer
    ensures { AnswersPart buffer.now.is_skipping script.old buffer.now.bytes result script.new }
{
    if buffer.is_skipping() {
        return Answer::TooLong;
    }
    let mut answer = Answer::Silent;
    script.answer(buffer.bytes(), &mut answer);
    answer
}
