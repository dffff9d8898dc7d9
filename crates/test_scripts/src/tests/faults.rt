//! Which answers are written if the reader or the writer of a script is slow or fails.
use super::devices::{Devices, GOOD_DEVICES};
use super::{End, Run, ends_with_answers, ends_with_answers_with_hasher, usual_run};
use ets_term::Fnv;
use std::alloc::{AllocError, Global};
use std::test::Fail;

/// A script of four lines of `LINE_BYTES` bytes each.
const SCRIPT: &[u8] = b"spawn p\nspawn q\nspawn r\nspawn s\n";

/// The answers of `SCRIPT`, of `LINE_BYTES` bytes each too.
const ANSWERS: &[u8] = b"<0.0.0>\n<0.1.0>\n<0.2.0>\n<0.3.0>\n";

/// The length of a line of the scripts, and of an answer to `spawn`, with its LF.
const LINE_BYTES: usize = 8;

/// The length of the answer `** noproc` with its LF.
const REFUSAL_BYTES: usize = 10;

/// Returns a run with these devices and the usual limits.
fn with_devices(devices: Devices) -> Run {
    Run {
        devices,
        ..usual_run()
    }
}

/// Returns whether the whole script is answered if a read returns and a write takes at most a few bytes.
fn all_slow_devices_answer(alloc: Global) -> bool {
    // A byte, a part of a line, a whole line, and three lines with a part of the fourth.
    for max_read_bytes in [1, 3, LINE_BYTES, 31] {
        for max_write_bytes in [1, 3, LINE_BYTES, 31] {
            let run = with_devices(Devices {
                max_read_bytes,
                max_write_bytes,
                ..GOOD_DEVICES
            });
            if !ends_with_answers(alloc, &run, SCRIPT, ANSWERS, End::Whole) {
                return false;
            }
        }
    }
    true
}

/// Runs a script over devices that read and write a few bytes at a time.
#[test]
fn scripts_are_answered_over_slow_devices(rt: HostRuntime) {
    assert!(rt; all_slow_devices_answer(rt.alloc()));
}

/// Returns whether exactly the lines that were read whole before a failing read are answered. A read returns at most
/// `max_read_bytes` bytes.
fn whole_lines_are_answered(alloc: Global, max_read_bytes: usize) -> bool {
    // Ten reads of at most three bytes do not reach the end of the script.
    for reads_before_fault in 0..=10 {
        let lines = max_read_bytes.saturating_mul(reads_before_fault as usize) / LINE_BYTES;
        let run = with_devices(Devices {
            max_read_bytes,
            reads_before_fault,
            ..GOOD_DEVICES
        });
        let prefix = &ANSWERS[..ANSWERS.len().min(lines.saturating_mul(LINE_BYTES))];
        if !ends_with_answers(alloc, &run, SCRIPT, prefix, End::Read) {
            return false;
        }
    }
    true
}

/// Answers the lines that came before a read fails.
#[test]
fn lines_before_a_failing_read_are_answered(rt: HostRuntime) {
    assert!(rt; whole_lines_are_answered(rt.alloc(), 1));
    assert!(rt; whole_lines_are_answered(rt.alloc(), 3));
}

/// Lets each of the first four writes fail. Returns whether exactly the bytes before the failing write are written, a
/// prefix of the answers. A write takes at most `max_write_bytes` bytes, and each read returns one line.
fn prefix_of_answers_is_written(alloc: Global, max_write_bytes: usize) -> bool {
    for writes_before_fault in 0..4 {
        let run = with_devices(Devices {
            max_read_bytes: LINE_BYTES,
            max_write_bytes,
            writes_before_fault,
            ..GOOD_DEVICES
        });
        let written = max_write_bytes.saturating_mul(writes_before_fault as usize);
        let prefix = &ANSWERS[..ANSWERS.len().min(written)];
        if !ends_with_answers(alloc, &run, SCRIPT, prefix, End::Write) {
            return false;
        }
    }
    true
}

/// Writes a prefix of the answers before a write fails.
#[test]
fn a_prefix_is_written_before_a_failing_write(rt: HostRuntime) {
    assert!(rt; prefix_of_answers_is_written(rt.alloc(), LINE_BYTES));
    assert!(rt; prefix_of_answers_is_written(rt.alloc(), 1));
}

/// Ends with a write fault if a write takes no byte, and if a flush fails.
#[test]
fn a_stuck_writer_ends_the_script(rt: HostRuntime) {
    let stuck = with_devices(Devices {
        max_write_bytes: 0,
        ..GOOD_DEVICES
    });
    assert!(rt; ends_with_answers(rt.alloc(), &stuck, SCRIPT, b"", End::Write));
    let unflushed = with_devices(Devices {
        fails_to_flush: true,
        ..GOOD_DEVICES
    });
    assert!(rt; ends_with_answers(rt.alloc(), &unflushed, SCRIPT, b"", End::Write));
}

/// Returns whether `SCRIPT` is answered and has this end if there are at most `max_reads` reads, each of a line.
fn ends_within(alloc: Global, max_reads: u32, end: End) -> bool {
    let devices = Devices {
        max_read_bytes: LINE_BYTES,
        ..GOOD_DEVICES
    };
    let run = Run {
        max_reads,
        ..with_devices(devices)
    };
    ends_with_answers(alloc, &run, SCRIPT, ANSWERS, end)
}

/// Reads four lines, one in each read. A fifth read must find the end of the input.
#[test]
fn the_last_read_must_find_the_end(rt: HostRuntime) {
    assert!(rt; ends_within(rt.alloc(), 4, End::Read));
    assert!(rt; ends_within(rt.alloc(), 5, End::Whole));
}

/// The number of lines of a long script.
const LINES: u32 = 120;

/// Returns a line `LINES` times.
fn repeat_lines(alloc: Global, line: &[u8]) -> Result<Vec<u8>, AllocError> {
    let mut text = Vec::new(alloc);
    for _ in 0..LINES {
        text.extend_from_slice(line)?;
    }
    Ok(text)
}

/// Returns devices that read one line at a time. For the end `Write`, the write after `lines` writes fails. For another
/// end the read after `lines` reads fails.
fn failing_devices(end: End, lines: u32) -> Devices {
    let slow = Devices {
        max_read_bytes: LINE_BYTES,
        ..GOOD_DEVICES
    };
    match end {
        End::Write => Devices {
            writes_before_fault: lines,
            ..slow
        },
        _ => Devices {
            reads_before_fault: lines,
            ..slow
        },
    }
}

/// Lets the reader or the writer fail after each number of lines. Returns the first number of lines for which the
/// written bytes are not exactly the answers to these lines.
fn first_wrong_prefix(alloc: Global, script: &[u8], answers: &[u8], end: End) -> Option<u32> {
    for lines in 0..LINES {
        let written = REFUSAL_BYTES.saturating_mul(lines as usize);
        let prefix = &answers[..answers.len().min(written)];
        let run = with_devices(failing_devices(end, lines));
        if !ends_with_answers_with_hasher(alloc, &run, Fnv, script, prefix, end) {
            return Some(lines);
        }
    }
    None
}

/// Lets each read of a long script fail in a run of its own, and each write.
#[test]
fn answers_before_any_fault_are_written(rt: HostRuntime) -> Result<(), Fail> {
    let alloc = rt.alloc();
    // `p` is not spawned. The argument only pads the line to `LINE_BYTES`.
    let script = repeat_lines(alloc, b"p a(10)\n")?;
    let answers = repeat_lines(alloc, b"** noproc\n")?;
    let (script, answers) = (script.as_slice(), answers.as_slice());
    assert_eq!(rt; first_wrong_prefix(alloc, script, answers, End::Read), None);
    assert_eq!(rt;
        first_wrong_prefix(alloc, script, answers, End::Write),
        None
    );
    Ok(())
}
