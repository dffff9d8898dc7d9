//! The exit status of the program, and what it prints on standard error.
use super::devices::{Devices, FlushLog, GOOD_DEVICES, Source, Target};
use ets_script::options::Settings;
use ets_script::{ScriptFault, Streams, answer_alone};
use std::alloc::{AllocError, Global};
use std::io;
use std::test::Fail;

/// The settings of a command line without options.
const NO_OPTIONS: Settings = Settings {
    // Processes do not run in threads of their own.
    threads: false,
    // Keys do not all have the same hash.
    same: false,
    // The greatest number of objects in a table.
    objects: 1_000_000,
};

/// Runs the program on one line with these devices. Returns its exit status, and whether it printed these words on
/// standard error.
fn status_of_one_line(alloc: Global, devices: &Devices, words: &[u8]) -> io::Result<(u8, bool)> {
    let log = FlushLog::new();
    let mut streams = Streams {
        input: Source {
            left: b"spawn p\n",
            max_read_bytes: devices.max_read_bytes,
            reads_before_fault: devices.reads_before_fault,
            log: &log,
        },
        output: Target {
            taken: Vec::new(alloc),
            max_write_bytes: devices.max_write_bytes,
            writes_before_fault: devices.writes_before_fault,
            fails_to_flush: devices.fails_to_flush,
            log: &log,
        },
    };
    let mut errors = Vec::new(alloc);
    let status = answer_alone(alloc, &NO_OPTIONS, &mut streams, &mut errors)?;
    Ok((status, errors.as_slice() == words))
}

/// Returns whether a fault is printed in these words.
fn fault_has_words(alloc: Global, fault: &ScriptFault, words: &str) -> Result<bool, AllocError> {
    Ok(format!(in alloc; "{fault}")?.as_str() == words)
}

/// Prints each fault in its words.
#[test]
fn faults_are_printed_in_their_words(rt: HostRuntime) -> Result<(), Fail> {
    let alloc = rt.alloc();
    assert!(rt; fault_has_words(alloc, &ScriptFault::Read, "read fault")?);
    assert!(rt; fault_has_words(alloc, &ScriptFault::Write, "write fault")?);
    assert!(rt; fault_has_words(alloc, &ScriptFault::Memory, "** nomem")?);
    assert!(rt; fault_has_words(alloc, &ScriptFault::Differs(7), "differs <0.7.0>")?);
    assert!(rt; fault_has_words(alloc, &ScriptFault::Missing(4095), "missing <0.4095.0>")?);
    Ok(())
}

/// Runs a line with good devices, with a failing read, and with a failing write. Only good devices have the status 0.
#[test]
fn the_status_is_1_after_a_device_fault(rt: HostRuntime) -> Result<(), Fail> {
    let alloc = rt.alloc();
    let failing_read = Devices {
        reads_before_fault: 1,
        ..GOOD_DEVICES
    };
    let failing_write = Devices {
        writes_before_fault: 0,
        ..GOOD_DEVICES
    };
    assert!(rt; status_of_one_line(alloc, &GOOD_DEVICES, b"")? == (0, true));
    assert!(rt; status_of_one_line(alloc, &failing_read, b"read fault\n")? == (1, true));
    assert!(rt; status_of_one_line(alloc, &failing_write, b"write fault\n")? == (1, true));
    Ok(())
}
