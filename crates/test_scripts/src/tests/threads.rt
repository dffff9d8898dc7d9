//! Scripts whose processes run in threads of their own. All answers are printed at the end of the input.
use super::devices::{Devices, FlushLog, GOOD_DEVICES, Source, Target};
use super::{End, end_by_fault};
use ets_script::{NodeSettings, Streams, run_threads};
use ets_term::Fnv;
use node_core::Limits;
use std::alloc::Global;
use std::sync::Wait;
use std::thread::Threads;

/// A script, how it is run, what it must print, and how it must end.
#[derive(Clone, Copy)]
struct Row<'a> {
    /// How the reader and the writer behave.
    devices: Devices,
    /// The limit of processes.
    processes: u32,
    script: &'a [u8],
    /// What the script prints.
    output: &'a [u8],
    /// How the script ends.
    end: End,
}

/// Returns a row with good devices and a script that runs to its end.
fn whole_row<'a>(processes: u32, script: &'a [u8], output: &'a [u8]) -> Row<'a> {
    Row {
        devices: GOOD_DEVICES,
        processes,
        script,
        output,
        end: End::Whole,
    }
}

/// Runs the script of a row with each process in a thread. Returns whether it prints and ends as the row says.
fn row_holds<T: Threads + Wait + Sync>(rt: &T, alloc: Global, row: &Row<'_>) -> bool {
    let log = FlushLog::new();
    let mut streams = Streams {
        input: Source {
            left: row.script,
            max_read_bytes: row.devices.max_read_bytes,
            reads_before_fault: row.devices.reads_before_fault,
            log: &log,
        },
        output: Target {
            taken: Vec::new(alloc),
            max_write_bytes: row.devices.max_write_bytes,
            writes_before_fault: row.devices.writes_before_fault,
            fails_to_flush: row.devices.fails_to_flush,
            log: &log,
        },
    };
    let limits = Limits {
        processes: row.processes,
        ..Limits::usual()
    };
    let settings = NodeSettings {
        limits,
        hasher: Fnv,
    };
    let end = match run_threads(rt, alloc, &mut streams, settings) {
        Ok(()) => End::Whole,
        Err(fault) => end_by_fault(&fault),
    };
    streams.output.taken.as_slice() == row.output && end == row.end
}

#[test]
fn processes_past_the_limit_are_refused(rt: HostRuntime) {
    let rows = [
        whole_row(1, b"", b""),
        whole_row(
            0,
            b"spawn p\np receive()\n",
            b"** system_limit\n** noproc\n",
        ),
        whole_row(
            1,
            b"spawn p\nspawn q\nq receive()\n",
            b"** system_limit\n** noproc\np <0.0.0>\n",
        ),
    ];
    for row in rows {
        assert!(rt; row_holds(&rt, rt.alloc(), &row), "{:?}", row.script);
    }
}

#[test]
fn nothing_is_printed_before_the_end_of_the_input(rt: HostRuntime) {
    let devices = Devices {
        // Each read returns a line, `spawn p` with its LF, and the second read fails.
        max_read_bytes: 8,
        reads_before_fault: 1,
        ..GOOD_DEVICES
    };
    let row = Row {
        devices,
        end: End::Read,
        ..whole_row(1, b"spawn p\nspawn p\n", b"")
    };
    assert!(rt; row_holds(&rt, rt.alloc(), &row));
}

#[test]
fn a_failing_writer_ends_the_script(rt: HostRuntime) {
    let devices = Devices {
        // Six bytes are written before the third write fails.
        max_write_bytes: 3,
        writes_before_fault: 2,
        ..GOOD_DEVICES
    };
    let row = Row {
        devices,
        end: End::Write,
        ..whole_row(1, b"spawn p\n", b"p <0.0")
    };
    assert!(rt; row_holds(&rt, rt.alloc(), &row));
}
