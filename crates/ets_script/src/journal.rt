//! Prints the results of a script whose processes ran in threads of their own.
ghost use Rattle.std.specs.Prelude.{◌≡◌, ◌≤◌, ◌++◌, flat_map, codes, length, [], OnOk, OnErr};
ghost use Rattle.std.specs.Io.KnownBytes.{Appends};
ghost use Rattle.ets_packets.specs.Output.{Breaks, Adds, Fails, HasWriterOf, buffered_bytes, writer_flow};
ghost use Rattle.ets_script.specs.Replies.{answer_text};
ghost use Rattle.ets_script.specs.Threads.{entry_text, stopped_text};
ghost use Rattle.ets_script.specs.inside.Journal.{stop_text, run_text, out_text};

use crate::answer::{Answer, print_reply};
use crate::names::Names;
use crate::plan::PlannedAnswers;
use crate::processes::RunResult;
use ets_packets::{Output, WriteFault};
use node_shared::{Entry, SharedEntry};
use std::io::Write;

/// Prints the planned answers and the results of the processes, and flushes the output.
pub fn print_results<W: Write>(
    planned: &PlannedAnswers,
    run: &RunResult,
    output: &mut Output<'_, W>,
) -> Result<(), WriteFault>
    requires waiting { buffered_bytes output.old ≡ [] }
    requires named { length run.now.left.items ≤ length planned.now.names }
    ensures same_writer { HasWriterOf output.old output.new }
    ensures ok { OnOk result (Appends (W.contents output.old.writer.now)
        (W.contents output.new.writer.now) (out_text planned.now run.now)) }
    ensures err { OnErr result (Breaks (writer_flow W.contents output.old output.new)
        (out_text planned.now run.now)) }
{
    print_all(planned, run, output)?;
    output.flush()
}

/// Prints the planned answers, and then the results of the processes.
fn print_all<W: Write>(
    planned: &PlannedAnswers,
    run: &RunResult,
    output: &mut Output<'_, W>,
) -> Result<(), WriteFault>
    requires { length run.now.left.items ≤ length planned.now.names }
    ensures same_writer { HasWriterOf output.old output.new }
    ensures ok { OnOk result (Adds W.contents output.old output.new
        (out_text planned.now run.now)) }
    ensures err { OnErr result (Fails W.contents output.old output.new
        (out_text planned.now run.now)) }
{
    print_answers(planned.answers.as_slice(), output)?;
    print_run(&planned.names, run, output)
}

/// Prints the journal, and then a `** nomem` line for each process that did not run all its jobs.
fn print_run<W: Write>(
    names: &Names,
    run: &RunResult,
    output: &mut Output<'_, W>,
) -> Result<(), WriteFault>
    requires { length run.now.left.items ≤ length names.now }
    ensures same_writer { HasWriterOf output.old output.new }
    ensures ok { OnOk result (Adds W.contents output.old output.new
        (run_text names.now run.now)) }
    ensures err { OnErr result (Fails W.contents output.old output.new
        (run_text names.now run.now)) }
{
    print_entries(names, run.entries.as_slice(), output)?;
    print_stopped_processes(names, run.left.as_slice(), output)
}

/// Prints answers, one after another.
fn print_answers<W: Write>(answers: &[Answer], output: &mut Output<'_, W>) -> Result<(), WriteFault>
    ensures same_writer { HasWriterOf output.old output.new }
    ensures ok { OnOk result (Adds W.contents output.old output.new
        (flat_map answer_text answers.now)) }
    ensures err { OnErr result (Fails W.contents output.old output.new
        (flat_map answer_text answers.now)) }
{
    for answer in answers {
        answer.print(output)?;
    }
    Ok(())
}

/// Prints the lines of the entries in order. An entry that no process made has no line.
fn print_entries<W: Write>(
    names: &Names,
    entries: &[SharedEntry],
    output: &mut Output<'_, W>,
) -> Result<(), WriteFault>
    ensures same_writer { HasWriterOf output.old output.new }
    ensures ok { OnOk result (Adds W.contents output.old output.new
        (flat_map (entry_text names.now) entries.now)) }
    ensures err { OnErr result (Fails W.contents output.old output.new
        (flat_map (entry_text names.now) entries.now)) }
{
    for entry in entries {
        print_entry(names, entry.get(), output)?;
    }
    Ok(())
}

/// Prints the line of an entry: the process's name and the reply. Prints nothing for a growth step, which no process
/// makes.
fn print_entry<W: Write>(
    names: &Names,
    entry: &Entry,
    output: &mut Output<'_, W>,
) -> Result<(), WriteFault>
    ensures same_writer { HasWriterOf output.old output.new }
    ensures ok { OnOk result (Adds W.contents output.old output.new
        (entry_text names.now entry.now)) }
    ensures err { OnErr result (Fails W.contents output.old output.new
        (entry_text names.now entry.now)) }
{
    match entry.process() {
        Some(number) => {
            print_name(names.name(number as usize), output)?;
            print_reply(&entry.reply, output)
        }
        None => Ok(()),
    }
}

/// Prints the name of a process and a space, which begin a line.
fn print_name<W: Write>(name: &[u8], output: &mut Output<'_, W>) -> Result<(), WriteFault>
    ensures same_writer { HasWriterOf output.old output.new }
    ensures ok { OnOk result (Adds W.contents output.old output.new (name.now ++ codes " ")) }
    ensures err { OnErr result (Fails W.contents output.old output.new (name.now ++ codes " ")) }
{
    output.add(name)?;
    output.add(b" ")
}

/// Prints a `** nomem` line for each process that did not run all its jobs. `left` has the number of jobs that each
/// process did not run.
fn print_stopped_processes<W: Write>(
    names: &Names,
    left: &[usize],
    output: &mut Output<'_, W>,
) -> Result<(), WriteFault>
    requires { length left.now ≤ length names.now }
    ensures same_writer { HasWriterOf output.old output.new }
    ensures ok { OnOk result (Adds W.contents output.old output.new
        (stopped_text names.now left.now)) }
    ensures err { OnErr result (Fails W.contents output.old output.new
        (stopped_text names.now left.now)) }
{
    for number in 0..left.len() {
        print_stop(names.name(number), left[number], output)?;
    }
    Ok(())
}

/// Prints the `** nomem` line of a process that did not run its last `left` jobs, or nothing if it ran all its jobs.
fn print_stop<W: Write>(
    name: &[u8],
    left: usize,
    output: &mut Output<'_, W>,
) -> Result<(), WriteFault>
    ensures same_writer { HasWriterOf output.old output.new }
    ensures ok { OnOk result (Adds W.contents output.old output.new (stop_text name.now left)) }
    ensures err { OnErr result (Fails W.contents output.old output.new (stop_text name.now left)) }
{
    if left == 0 {
        return Ok(());
    }
    print_name(name, output)?;
    output.add(b"** nomem\n")
}
