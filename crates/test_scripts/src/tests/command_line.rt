//! Command lines of the program. `settings` parses `--threads`, `--hash` and `--max-objects`. `parse_options` also
//! parses the other options, such as the limits of processes and tables.
use clap::error::ErrorKind;
use ets_script::{parse_options, settings};
use node_core::Limits;
use std::alloc::Global;

/// Whether each process runs in a thread of its own.
#[derive(Clone, Copy, PartialEq, Eq)]
enum Threads {
    Off,
    On,
}

/// The hasher of keys.
#[derive(Clone, Copy, PartialEq, Eq)]
enum Hash {
    Fnv,
    /// One hash for all keys.
    Same,
}

/// The greatest number of objects in a table if no option sets it.
const USUAL_OBJECTS: u32 = 1_000_000;

/// What `settings` parses: the threads, the hasher, and the greatest number of objects in a table.
type Parsed = (Threads, Hash, u32);

/// Returns what `settings` parses from these words, or the kind of the refusal.
fn parse_words(alloc: Global, words: &[&str]) -> Result<Parsed, ErrorKind> {
    match settings(alloc, words) {
        Ok(settings) => {
            let threads = if settings.threads {
                Threads::On
            } else {
                Threads::Off
            };
            let hash = if settings.same { Hash::Same } else { Hash::Fnv };
            Ok((threads, hash, settings.objects))
        }
        Err(error) => Err(error.kind()),
    }
}

/// Parses words that `settings` accepts. A row is the words of a command line, and the settings that are parsed.
#[test]
fn words_have_their_settings(rt: HostRuntime) {
    let alloc = rt.alloc();
    let rows: [(&[&str], Parsed); 11] = [
        (&["ets_script"], (Threads::Off, Hash::Fnv, USUAL_OBJECTS)),
        (
            &["ets_script", "--threads"],
            (Threads::On, Hash::Fnv, USUAL_OBJECTS),
        ),
        (
            &[
                "ets_script",
                "--hash=same",
                "--threads",
                "--max-objects",
                "3",
            ],
            (Threads::On, Hash::Same, 3),
        ),
        (
            &["ets_script", "--hash", "fnv"],
            (Threads::Off, Hash::Fnv, USUAL_OBJECTS),
        ),
        (
            &["ets_script", "--hash", "same"],
            (Threads::Off, Hash::Same, USUAL_OBJECTS),
        ),
        (
            &["ets_script", "--hash=same"],
            (Threads::Off, Hash::Same, USUAL_OBJECTS),
        ),
        (
            &["ets_script", "--max-objects", "3"],
            (Threads::Off, Hash::Fnv, 3),
        ),
        (
            &["ets_script", "--max-objects=0"],
            (Threads::Off, Hash::Fnv, 0),
        ),
        (
            &["ets_script", "--max-objects", "4294967295"],
            (Threads::Off, Hash::Fnv, u32::MAX),
        ),
        (
            &["ets_script", "--max-objects", "007", "--hash", "same"],
            (Threads::Off, Hash::Same, 7),
        ),
        (
            &["another_name", "--hash", "same", "--max-objects", "3"],
            (Threads::Off, Hash::Same, 3),
        ),
    ];
    for (words, wanted) in rows {
        assert!(rt; parse_words(alloc, words) == Ok(wanted), "{words:?}");
    }
}

/// Parses words that `settings` refuses. A row is the words of a command line, and the kind of the refusal.
#[test]
fn wrong_words_are_refused(rt: HostRuntime) {
    let alloc = rt.alloc();
    let rows: [(&[&str], ErrorKind); 12] = [
        (&["ets_script", "--hash", "md5"], ErrorKind::InvalidValue),
        (&["ets_script", "--hash", "SAME"], ErrorKind::InvalidValue),
        (&["ets_script", "--hash"], ErrorKind::InvalidValue),
        (
            &["ets_script", "--max-objects", "4294967296"],
            ErrorKind::ValueValidation,
        ),
        (
            &["ets_script", "--max-objects=-1"],
            ErrorKind::ValueValidation,
        ),
        (
            &["ets_script", "--max-objects", "many"],
            ErrorKind::ValueValidation,
        ),
        (
            &["ets_script", "--max-objects", ""],
            ErrorKind::ValueValidation,
        ),
        (
            &["ets_script", "--hash", "same", "--hash", "fnv"],
            ErrorKind::ArgumentConflict,
        ),
        (
            &["ets_script", "--threads", "--threads"],
            ErrorKind::ArgumentConflict,
        ),
        (&["ets_script", "--threads=true"], ErrorKind::TooManyValues),
        (&["ets_script", "script"], ErrorKind::UnknownArgument),
        (&["ets_script", "--help"], ErrorKind::DisplayHelp),
    ];
    for (words, wanted) in rows {
        assert!(rt; parse_words(alloc, words) == Err(wanted), "{words:?}");
    }
}

/// The greatest number of processes.
#[derive(Clone, Copy, PartialEq, Eq)]
struct Processes(u32);

/// The greatest number of tables.
#[derive(Clone, Copy, PartialEq, Eq)]
struct Tables(u32);

/// The greatest number of objects in a table.
#[derive(Clone, Copy, PartialEq, Eq)]
struct Objects(u32);

/// The limits that `parse_options` parses.
type ParsedLimits = (Processes, Tables, Objects);

/// Returns the limits that `parse_options` parses from these words, or the kind of the refusal.
fn parse_limits(alloc: Global, words: &[&str]) -> Result<ParsedLimits, ErrorKind> {
    match parse_options(alloc, words) {
        Ok(parsed) => Ok((
            Processes(parsed.processes),
            Tables(parsed.tables),
            Objects(parsed.settings.objects),
        )),
        Err(error) => Err(error.kind()),
    }
}

/// Parses words that `parse_options` accepts. A row is the words of a command line, and the limits that they set.
#[test]
fn words_have_their_limits(rt: HostRuntime) {
    let alloc = rt.alloc();
    let usual = Limits::usual();
    let processes = Processes(usual.processes);
    let tables = Tables(usual.tables);
    let objects = Objects(usual.objects);
    let rows: [(&[&str], ParsedLimits); 7] = [
        (&["ets_script"], (processes, tables, objects)),
        (
            &["ets_script", "--threads", "--hash=same"],
            (processes, tables, objects),
        ),
        (
            &["ets_script", "--max-processes", "2"],
            (Processes(2), tables, objects),
        ),
        (
            &["ets_script", "--max-tables=0"],
            (processes, Tables(0), objects),
        ),
        (
            &["ets_script", "--max-objects=7"],
            (processes, tables, Objects(7)),
        ),
        (
            &[
                "ets_script",
                "--max-tables",
                "4294967295",
                "--max-processes=4294967294",
                "--threads",
            ],
            (Processes(4_294_967_294), Tables(4_294_967_295), objects),
        ),
        // A number may have a leading zero or a plus sign.
        (
            &[
                "ets_script",
                "--max-processes",
                "01",
                "--max-objects",
                "+3",
                "--max-tables",
                "2",
            ],
            (Processes(1), Tables(2), Objects(3)),
        ),
    ];
    for (words, wanted) in rows {
        assert!(rt; parse_limits(alloc, words) == Ok(wanted), "{words:?}");
    }
}

/// Parses words that `parse_options` refuses. A row is the words of a command line, and the kind of the refusal. At the
/// end, `settings` refuses an option that only `parse_options` has.
#[test]
fn wrong_limits_are_refused(rt: HostRuntime) {
    let alloc = rt.alloc();
    let rows: [(&[&str], ErrorKind); 9] = [
        (
            &["ets_script", "--max-processes", "4294967296"],
            ErrorKind::ValueValidation,
        ),
        (
            &["ets_script", "--max-processes=-1"],
            ErrorKind::ValueValidation,
        ),
        (
            &["ets_script", "--max-tables", "many"],
            ErrorKind::ValueValidation,
        ),
        (
            &["ets_script", "--max-tables", ""],
            ErrorKind::ValueValidation,
        ),
        (&["ets_script", "--max-tables"], ErrorKind::InvalidValue),
        (
            &["ets_script", "--max-tables=1", "--max-tables", "1"],
            ErrorKind::ArgumentConflict,
        ),
        (&["ets_script", "--hash", "md5"], ErrorKind::InvalidValue),
        (&["ets_script", "--version"], ErrorKind::DisplayVersion),
        (&["ets_script", "--help"], ErrorKind::DisplayHelp),
    ];
    for (words, wanted) in rows {
        assert!(rt; parse_limits(alloc, words) == Err(wanted), "{words:?}");
    }
    let unknown: [&str; 3] = ["ets_script", "--max-tables", "3"];
    assert!(rt; parse_words(alloc, unknown.as_slice()) == Err(ErrorKind::UnknownArgument));
}
