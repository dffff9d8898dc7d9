//! Tests of enrolment and exit of processes, and of their limit. A row is a step and its wanted reply.
use super::StepText::{Ask, End, Enrol};
use super::{Pid, Row, first_wrong_row, first_wrong_row_within_limits};
use node_core::Limits;
use std::process::Abort;

/// A process number enrols once and exits once. The greatest number, 4294967295, may enrol too. Process 8 never enrols.
static ONCE: [Row; 8] = [
    (Enrol(Pid(7)), "<0.7.0>"),
    (Enrol(Pid(7)), "** badarg"),
    (Enrol(Pid(4294967295)), "<0.4294967295.0>"),
    (End(Pid(7)), "true"),
    (End(Pid(7)), "** noproc"),
    (Enrol(Pid(7)), "** badarg"),
    (End(Pid(8)), "** noproc"),
    (Ask(Pid(7), "new(t,[])"), "** noproc"),
];

#[test]
fn a_process_enrols_once_and_exits_once(rt: HostRuntime) {
    assert_eq!(rt; first_wrong_row(rt.alloc(), &ONCE), Ok(None));
}

/// The limit is two processes, and an exited one still counts. A number that was used is refused before the limit.
static AT_LIMIT: [Row; 6] = [
    (Enrol(Pid(4)), "<0.4.0>"),
    (End(Pid(4)), "true"),
    (Enrol(Pid(5)), "<0.5.0>"),
    (Enrol(Pid(6)), "** system_limit"),
    (Enrol(Pid(5)), "** badarg"),
    (Enrol(Pid(4)), "** badarg"),
];

#[test]
fn exited_processes_count_towards_the_limit(rt: HostRuntime) {
    let limits = Limits {
        processes: 2,
        tables: 1,
        objects: 1,
    };
    assert_eq!(rt;
        first_wrong_row_within_limits(rt.alloc(), limits, &AT_LIMIT),
        Ok(None)
    );
}
