//! After each call of a spawned process, a script runs at most two pending growth steps, first those of the table that
//! was changed last. After another line it runs none.
use super::devices::{FlushLog, GOOD_DEVICES, Source, Target};
use ets_script::{NodeSettings, Streams, run_script};
use ets_term::Fnv;
use node_core::{Limits, Step};
use std::alloc::{AllocError, Global};
use std::test::Fail;

/// The growth step that is pending in the node after a script.
#[derive(Clone, Copy, PartialEq, Eq)]
enum Pending {
    Nothing,
    /// To ready this bucket of the first table.
    Bucket(u32),
    /// Any other step, such as a doubling.
    OtherStep,
    /// The script did not run to its end.
    ScriptFailed,
}

/// Returns the pending step in the words of `Pending`.
fn pending_of_step(step: Option<Step>) -> Pending {
    match step {
        None => Pending::Nothing,
        Some(Step::Ready(0, bucket)) => Pending::Bucket(bucket),
        Some(_) => Pending::OtherStep,
    }
}

/// Runs a script. Returns the step that is pending in its node at the end.
fn pending_after(alloc: Global, script: &[u8]) -> Pending {
    let log = FlushLog::new();
    let mut streams = Streams {
        input: Source {
            left: script,
            max_read_bytes: GOOD_DEVICES.max_read_bytes,
            reads_before_fault: GOOD_DEVICES.reads_before_fault,
            log: &log,
        },
        output: Target {
            taken: Vec::new(alloc),
            max_write_bytes: GOOD_DEVICES.max_write_bytes,
            writes_before_fault: GOOD_DEVICES.writes_before_fault,
            fails_to_flush: GOOD_DEVICES.fails_to_flush,
            log: &log,
        },
    };
    let settings = NodeSettings {
        limits: Limits::usual(),
        hasher: Fnv,
    };
    match run_script(alloc, &mut streams, settings) {
        Ok(node) => pending_of_step(node.due()),
        Err(_) => Pending::ScriptFailed,
    }
}

/// Joins the three parts of a script.
fn join_parts(alloc: Global, parts: [&str; 3]) -> Result<String, AllocError> {
    let mut script = String::new(alloc);
    for part in parts {
        script.push_str(part)?;
    }
    Ok(script)
}

/// Lines that spawn two processes and make a table.
const MAKE_TABLE: &str = "spawn p\nspawn q\np new(t,[named_table])\n";

/// Lines that insert nine objects one by one. After the last one, two growth steps run: the two buckets are doubled to
/// four, and bucket 2 is readied.
const INSERT_NINE: &str =
    "p insert(t,{1})\np insert(t,{2})\np insert(t,{3})\np insert(t,{4})\np insert(t,{5})\np insert(t,{6})\np insert(t,{7})\np insert(t,{8})\np insert(t,{9})\n";

/// A line that inserts forty objects. The buckets double three times for them, in later steps.
const INSERT_FORTY: &str =
    "p insert(t,[{1},{2},{3},{4},{5},{6},{7},{8},{9},{10},{11},{12},{13},{14},{15},{16},{17},{18},{19},{20},{21},{22},{23},{24},{25},{26},{27},{28},{29},{30},{31},{32},{33},{34},{35},{36},{37},{38},{39},{40}])\n";

/// Lines that make another table and change it. It was changed last, so its step is run. A step of the first table
/// follows one of four such lines, and not this one.
const CHANGE_ANOTHER: &str = "p new(u,[named_table])\np insert(u,{1})\n";

/// The same, and then three lines that change no table. A step of the first table follows the last one.
const READ_ANOTHER: &str =
    "p new(u,[named_table])\np insert(u,{1})\np lookup(u,1)\np lookup(u,1)\np lookup(u,1)\n";

/// A row is the lines after `MAKE_TABLE`, the lines after them, and the step that is pending at the end.
const ROWS: [(&str, &str, Pending); 14] = [
    ("", "", Pending::Nothing),
    (INSERT_NINE, "", Pending::Bucket(3)),
    (INSERT_NINE, "p lookup(t,9)\n", Pending::Nothing),
    (INSERT_NINE, "p lookup(nope,9)\n", Pending::Nothing),
    (INSERT_NINE, "r lookup(t,9)\n", Pending::Bucket(3)),
    (INSERT_NINE, "exit q\n", Pending::Bucket(3)),
    (INSERT_NINE, "q lookup(t,9\n", Pending::Bucket(3)),
    (INSERT_FORTY, "", Pending::OtherStep),
    (INSERT_FORTY, "p new(u,[])\n", Pending::Bucket(3)),
    (INSERT_FORTY, CHANGE_ANOTHER, Pending::Bucket(3)),
    (INSERT_FORTY, READ_ANOTHER, Pending::Bucket(4)),
    ("grow t\n", "", Pending::Bucket(2)),
    ("grow t\n", "ready t 2\n", Pending::Bucket(3)),
    ("grow t\n", "ready t 3\n", Pending::Bucket(2)),
];

/// Returns the index of the first row whose script leaves another pending step.
fn first_wrong_row(
    alloc: Global,
    rows: &[(&str, &str, Pending)],
) -> Result<Option<usize>, AllocError> {
    for (index, (lines, next_lines, pending)) in rows.iter().enumerate() {
        let script = join_parts(alloc, [MAKE_TABLE, *lines, *next_lines])?;
        if pending_after(alloc, script.as_bytes()) != *pending {
            return Ok(Some(index));
        }
    }
    Ok(None)
}

#[test]
fn at_most_two_growth_steps_run_after_each_call(rt: HostRuntime) -> Result<(), Fail> {
    assert_eq!(rt; first_wrong_row(rt.alloc(), &ROWS)?, None);
    Ok(())
}
