//! Runs scripts, and compares what they print with the answers that docs/script.md says they have.
mod calls; // scripts of calls
mod command_line; // options
mod devices; // helpers: readers and writers that are slow or fail
mod faults; // reads and writes that fail
mod limits; // limits of processes, tables and objects
mod long; // long lines and long scripts
mod pending; // growth steps that are pending after a script
mod program; // the exit status and the errors
mod syntax; // lines that are not commands, and ends of lines
mod threads; // a thread for each process

use devices::{Devices, FlushLog, Source, Target};
use ets_script::{NodeSettings, ScriptFault, Streams, run_within};
use ets_term::{AllSame, Fnv, KeyHash};
use node_core::{Limits, Node};
use std::alloc::Global;

/// How a script ends.
#[derive(Clone, Copy, PartialEq, Eq)]
enum End {
    /// The end of the input was read, and all answers were written.
    Whole,
    /// A read failed.
    Read,
    /// A write or a flush failed.
    Write,
    /// Memory ran out.
    Memory,
    /// The journal of a script in threads does not fit the records of its clients.
    Unclosed,
}

/// How a script is run.
#[derive(Clone, Copy)]
struct Run {
    /// How the reader and the writer behave.
    devices: Devices,
    /// The limits of processes, tables and objects.
    limits: Limits,
    /// The greatest number of reads. A script that needs more ends with a read fault.
    max_reads: u32,
}

/// Returns a run with good devices, the usual limits, and more reads than any script here needs.
fn usual_run() -> Run {
    Run {
        devices: devices::GOOD_DEVICES,
        limits: Limits::usual(),
        max_reads: 1_000_000_000,
    }
}

/// Returns how a script ended.
fn end_of<H: KeyHash + Copy + Drop>(outcome: Result<Node<H>, ScriptFault>) -> End {
    match outcome {
        Ok(_) => End::Whole,
        Err(fault) => end_by_fault(&fault),
    }
}

/// Returns how a script with this fault ended.
fn end_by_fault(fault: &ScriptFault) -> End {
    match fault {
        ScriptFault::Read => End::Read,
        ScriptFault::Write => End::Write,
        ScriptFault::Memory => End::Memory,
        ScriptFault::Differs(_) | ScriptFault::Missing(_) => End::Unclosed,
    }
}

/// Runs a script twice: with a hash that spreads keys, and with one hash for all keys. Returns whether both runs have
/// this end and wrote exactly these answers.
fn ends_with_answers(alloc: Global, run: &Run, script: &[u8], answers: &[u8], end: End) -> bool {
    ends_with_answers_with_hasher(alloc, run, Fnv, script, answers, end)
        && ends_with_answers_with_hasher(alloc, run, AllSame, script, answers, end)
}

/// Runs a script with this hasher. Returns whether it has this end and wrote exactly these answers. All answers must be
/// flushed before each read and at the end, unless a write fails.
fn ends_with_answers_with_hasher<H: KeyHash + Copy + Drop>(
    alloc: Global,
    run: &Run,
    hasher: H,
    script: &[u8],
    answers: &[u8],
    end: End,
) -> bool {
    let log = FlushLog::new();
    let mut streams = Streams {
        input: Source {
            left: script,
            max_read_bytes: run.devices.max_read_bytes,
            reads_before_fault: run.devices.reads_before_fault,
            log: &log,
        },
        output: Target {
            taken: Vec::new(alloc),
            max_write_bytes: run.devices.max_write_bytes,
            writes_before_fault: run.devices.writes_before_fault,
            fails_to_flush: run.devices.fails_to_flush,
            log: &log,
        },
    };
    let settings = NodeSettings {
        limits: run.limits,
        hasher,
    };
    let outcome = run_within(alloc, &mut streams, settings, run.max_reads);
    streams.output.taken.as_slice() == answers
        && end_of(outcome) == end
        && (end == End::Write || log.is_all_flushed(answers.len()))
}

/// Runs each row's script. Returns the index of the first script that has other answers than its row or does not run to
/// its end. If all scripts are right, returns the number of rows.
fn first_wrong_script(alloc: Global, run: &Run, rows: &[(&[u8], &[u8])]) -> usize {
    for (index, (script, answers)) in rows.iter().enumerate() {
        if !ends_with_answers(alloc, run, *script, *answers, End::Whole) {
            return index;
        }
    }
    rows.len()
}
