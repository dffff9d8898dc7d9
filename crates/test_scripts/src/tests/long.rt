//! Long lines, long binaries and long scripts, with their answers.
use super::devices::{Devices, GOOD_DEVICES};
use super::{End, Run, ends_with_answers, ends_with_answers_with_hasher, usual_run};
use ets_term::Fnv;
use node_core::Limits;
use std::alloc::{AllocError, Global};
use std::test::Fail;

/// Runs a script of `letters` letters followed by the text `end`. Returns whether it has these answers.
fn long_line_is_answered(
    alloc: Global,
    run: &Run,
    letters: usize,
    end: &[u8],
    answers: &[u8],
) -> Result<bool, AllocError> {
    let mut script = vec![in alloc; b'a'; letters]?;
    script.extend_from_slice(end)?;
    Ok(ends_with_answers(alloc, run, script.as_slice(), answers, End::Whole))
}

/// The length of the longest line that is read.
const LONGEST: usize = 65_536;

/// The length of the shortest line that is too long.
const PAST_LONGEST: usize = 65_537;

/// The answers if the long line is read, which is not a command, and then the line after it.
const SYNTAX_FAULT: &[u8] = b"** syntax 0\n<0.0.0>\n";

/// The answers if the long line is refused unread, and then the line after it is read.
const LINE_TOO_LONG: &[u8] = b"** line too long\n<0.0.0>\n";

/// Returns whether a line of `LONGEST` bytes is read, and a longer one is not. A CR before the LF is a byte of the
/// line. A row is the number of letters of the first line, the text after them, and the answers.
fn long_lines_are_answered(alloc: Global, run: &Run) -> Result<bool, AllocError> {
    // 65,535 letters and a CR are as long as the longest line.
    let rows: [(usize, &[u8], &[u8]); 8] = [
        (LONGEST, b"\nspawn p\n", SYNTAX_FAULT),
        (PAST_LONGEST, b"\nspawn p\n", LINE_TOO_LONG),
        (65_535, b"\r\nspawn p\n", SYNTAX_FAULT),
        (LONGEST, b"\r\nspawn p\n", LINE_TOO_LONG),
        (300_000, b"\nspawn p\n", LINE_TOO_LONG),
        (LONGEST, b"", b"** syntax 0\n"),
        (PAST_LONGEST, b"", b"** line too long\n"),
        (200_000, b"", b"** line too long\n"),
    ];
    for (letters, end, answers) in rows {
        if !long_line_is_answered(alloc, run, letters, end, answers)? {
            return Ok(false);
        }
    }
    Ok(true)
}

/// Answers long lines that one read returns whole.
#[test]
fn long_lines_are_answered_or_refused(rt: HostRuntime) -> Result<(), Fail> {
    assert!(rt; long_lines_are_answered(rt.alloc(), &usual_run())?);
    Ok(())
}

/// Answers long lines of which each read returns a part.
#[test]
fn long_lines_in_parts_are_answered_or_refused(rt: HostRuntime) -> Result<(), Fail> {
    let devices = Devices {
        max_read_bytes: 5_000,
        ..GOOD_DEVICES
    };
    let run = Run {
        devices,
        ..usual_run()
    };
    assert!(rt; long_lines_are_answered(rt.alloc(), &run)?);
    Ok(())
}

/// Returns whether the first line is answered before the next read, which fails. The first read returns this line and
/// `letters` letters of a second one.
fn line_is_answered_before_next_read(alloc: Global, letters: usize) -> Result<bool, AllocError> {
    let script = with_repeats(alloc, b"spawn p\n", b"a", letters, b"")?;
    let devices = Devices {
        reads_before_fault: 1,
        ..GOOD_DEVICES
    };
    let run = Run {
        devices,
        ..usual_run()
    };
    Ok(ends_with_answers(alloc, &run, script.as_slice(), b"<0.0.0>\n", End::Read))
}

#[test]
fn answers_go_out_within_a_long_line(rt: HostRuntime) -> Result<(), Fail> {
    // More letters than the longest line has.
    assert!(rt; line_is_answered_before_next_read(rt.alloc(), 70_000)?);
    Ok(())
}

/// Returns the text `front`, then `count` times the text `repeated`, and then the text `end`.
fn with_repeats(
    alloc: Global,
    front: &[u8],
    repeated: &[u8],
    count: usize,
    end: &[u8],
) -> Result<Vec<u8>, AllocError> {
    let mut text = Vec::from_slice(alloc, front)?;
    for _ in 0..count {
        text.extend_from_slice(repeated)?;
    }
    text.extend_from_slice(end)?;
    Ok(text)
}

/// Stores a binary of one letter `a` and then `bytes` letters `b`. Returns whether a lookup finds it: whether the script
/// writes exactly the expected answers.
fn long_binary_is_found(alloc: Global, bytes: usize) -> Result<bool, AllocError> {
    let script = with_repeats(
        alloc,
        b"spawn p\np new(t,[named_table])\np insert(t,{'A',<<\"a",
        b"b",
        bytes,
        b"\">>})\np lookup(t,'A')\n",
    )?;
    let answers = with_repeats(
        alloc,
        b"<0.0.0>\nt\ntrue\n[{'A',<<97",
        b",98",
        bytes,
        b">>}]\n",
    )?;
    Ok(ends_with_answers(
        alloc,
        &usual_run(),
        script.as_slice(),
        answers.as_slice(),
        End::Whole,
    ))
}

/// Stores a long binary that is spelled in quotes.
#[test]
fn long_texts_in_quotes_are_stored(rt: HostRuntime) -> Result<(), Fail> {
    // The line is shorter than `LONGEST`.
    assert!(rt; long_binary_is_found(rt.alloc(), 60_000)?);
    Ok(())
}

/// Returns whether a script with `lines` lines after its first line is answered if each read returns one byte.
fn script_is_read_by_bytes(alloc: Global, lines: usize) -> Result<bool, AllocError> {
    let script = with_repeats(alloc, b"spawn p\n", b"spawn p\n", lines, b"")?;
    let answers = with_repeats(alloc, b"<0.0.0>\n", b"** badarg\n", lines, b"")?;
    let devices = Devices {
        max_read_bytes: 1,
        ..GOOD_DEVICES
    };
    let run = Run {
        devices,
        ..usual_run()
    };
    Ok(ends_with_answers(
        alloc,
        &run,
        script.as_slice(),
        answers.as_slice(),
        End::Whole,
    ))
}

/// Answers a script that is read byte by byte.
#[test]
fn a_script_read_byte_by_byte_is_answered(rt: HostRuntime) -> Result<(), Fail> {
    // An arbitrary number of lines; each takes eight reads.
    assert!(rt; script_is_read_by_bytes(rt.alloc(), 2_500)?);
    Ok(())
}

/// Appends a line that spawns a process to the script, and the pid with this number to the answers.
fn add_spawn(
    alloc: Global,
    number: u32,
    script: &mut Vec<u8>,
    answers: &mut Vec<u8>,
) -> Result<(), AllocError> {
    script.extend_from_slice(format!(in alloc; "spawn p{number}\n")?.as_bytes())?;
    answers.extend_from_slice(format!(in alloc; "<0.{number}.0>\n")?.as_bytes())
}

/// Returns whether `count` processes are spawned, and one more is past the limit.
fn processes_are_spawned(alloc: Global, count: u32) -> Result<bool, AllocError> {
    let mut script = Vec::new(alloc);
    let mut answers = Vec::new(alloc);
    for number in 0..count {
        add_spawn(alloc, number, &mut script, &mut answers)?;
    }
    script.extend_from_slice(b"spawn q\n")?;
    answers.extend_from_slice(b"** system_limit\n")?;
    let limits = Limits {
        processes: count,
        tables: 1,
        objects: 1,
    };
    let run = Run {
        limits,
        ..usual_run()
    };
    Ok(ends_with_answers_with_hasher(
        alloc,
        &run,
        Fnv,
        script.as_slice(),
        answers.as_slice(),
        End::Whole,
    ))
}

/// Spawns as many processes as the usual limit allows, and then more than 2^16 with a greater limit.
#[test]
fn as_many_processes_are_spawned_as_the_limit(rt: HostRuntime) -> Result<(), Fail> {
    assert!(rt; processes_are_spawned(rt.alloc(), Limits::usual().processes)?);
    assert!(rt; processes_are_spawned(rt.alloc(), 66_000)?);
    Ok(())
}
