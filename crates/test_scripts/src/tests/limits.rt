//! Calls past a limit are refused, and the script continues.
use super::{Run, first_wrong_script, usual_run};
use node_core::Limits;

/// Returns a run with good devices and these limits of processes, tables and objects.
fn with_limits(processes: u32, tables: u32, objects: u32) -> Run {
    let limits = Limits {
        processes,
        tables,
        objects,
    };
    Run {
        limits,
        ..usual_run()
    }
}

/// Answers a script whose limits are one process and no table.
#[test]
fn a_limit_of_no_tables_refuses_the_first(rt: HostRuntime) {
    let rows: [(&[u8], &[u8]); 1] = [(
        b"spawn p\np new(t,[])\nspawn q\nspawn p\nexit p\n",
        b"<0.0.0>\n** system_limit\n** system_limit\n** badarg\ntrue\n",
    )];
    assert_eq!(rt;
        first_wrong_script(rt.alloc(), &with_limits(1, 0, 0), &rows),
        rows.len()
    );
}

/// Answers a script whose limit is three objects in a table.
#[test]
fn a_limit_of_three_objects_refuses_the_fourth(rt: HostRuntime) {
    let rows: [(&[u8], &[u8]); 1] = [(
        b"spawn p\np new(t,[named_table])\np insert(t,[{a,1},{b,1}])\np insert(t,[{c,1},{d,1}])\np lookup(t,c)\np insert(t,[{c,1},{a,2}])\np lookup(t,a)\np insert(t,{d,1})\n",
        b"<0.0.0>\nt\ntrue\n** system_limit\n[]\ntrue\n[{a,2}]\n** system_limit\n",
    )];
    assert_eq!(rt;
        first_wrong_script(rt.alloc(), &with_limits(1, 1, 3), &rows),
        rows.len()
    );
}

/// Answers a script whose limit is one process.
#[test]
fn a_limit_of_one_process_refuses_the_second(rt: HostRuntime) {
    let rows: [(&[u8], &[u8]); 1] = [(
        b"spawn p\nspawn q\nq receive()\n",
        b"<0.0.0>\n** system_limit\n** noproc\n",
    )];
    assert_eq!(rt;
        first_wrong_script(rt.alloc(), &with_limits(1, 1, 1), &rows),
        rows.len()
    );
}
