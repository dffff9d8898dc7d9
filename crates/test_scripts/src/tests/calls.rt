//! Scripts with their answers. docs/calls.md says what the calls do.
use super::{first_wrong_script, usual_run};

/// Answers scripts that start and end processes, and that name tables. A row is a script and its answers.
#[test]
fn scripts_about_processes_tables_and_names_are_answered(rt: HostRuntime) {
    let rows: [(&[u8], &[u8]); 7] = [
        (b"", b""),
        (b"p lookup(t,a)", b"** noproc\n"),
        (
            b"spawn p\np new(t,[named_table])\np insert(t,{a,1})\np lookup(t,a)\n",
            b"<0.0.0>\nt\ntrue\n[{a,1}]\n",
        ),
        (
            b"spawn p\nspawn p\nspawn q\nexit p\nexit p\nexit r\nq lookup(t,a)\np lookup(t,a)\n",
            b"<0.0.0>\n** badarg\n<0.1.0>\ntrue\n** noproc\n** noproc\n** badarg\n** noproc\n",
        ),
        (
            b"spawn p\np new(t,[named_table])\np insert(t,{a,1})\ngrow t\nready t 1\nready t 99\ngrow u\np lookup(t,a)\np foo(t)\n",
            b"<0.0.0>\nt\ntrue\nok\nok\nok\n** badarg\n[{a,1}]\n** badarg\n",
        ),
        (
            b"spawn p\nspawn q\np new(x,[])\nq insert(#Tid<0>,{a,1})\np insert(#Tid<0>,{a,1})\nq lookup(#Tid<0>,a)\n",
            b"<0.0.0>\n<0.1.0>\n#Tid<0>\n** badarg\ntrue\n[{a,1}]\n",
        ),
        (
            b"spawn p\np new(t,[named_table])\nexit p\nspawn q\nq lookup(t,a)\nq new(t,[named_table])\n",
            b"<0.0.0>\nt\ntrue\n<0.1.0>\n** badarg\nt\n",
        ),
    ];
    assert_eq!(rt;
        first_wrong_script(rt.alloc(), &usual_run(), &rows),
        rows.len()
    );
}

/// Answers insertions and lookups in sets and bags. A row is a script and its answers.
#[test]
fn each_kind_of_table_answers_insertions_and_lookups(rt: HostRuntime) {
    let rows: [(&[u8], &[u8]); 6] = [
        (
            b"spawn p\np new(t,[named_table])\np insert(t,[{a,1},{a,2}])\np lookup(t,a)\np insert(t,[])\n",
            b"<0.0.0>\nt\ntrue\n[{a,2}]\ntrue\n",
        ),
        (
            b"spawn p\np new(t,[named_table,bag])\np insert(t,{a,1})\np insert(t,{a,2})\np insert(t,{a,1})\np lookup(t,a)\n",
            b"<0.0.0>\nt\ntrue\ntrue\ntrue\n[{a,1},{a,2}]\n",
        ),
        (
            b"spawn p\np new(t,[named_table,duplicate_bag])\np insert(t,[{a,1},{a,2},{a,1}])\np lookup(t,a)\np delete_object(t,{a,1})\np lookup(t,a)\n",
            b"<0.0.0>\nt\ntrue\n[{a,1},{a,2},{a,1}]\ntrue\n[{a,2}]\n",
        ),
        (
            b"spawn p\np new(t,[named_table])\np insert(t,{a,1})\np insert_new(t,[{b,1},{a,9}])\np lookup(t,b)\n",
            b"<0.0.0>\nt\ntrue\nfalse\n[]\n",
        ),
        (
            b"spawn p\np new(t,[named_table,{keypos,2}])\np insert(t,{a})\np tab2list(t)\np insert(t,{a,b})\np lookup(t,b)\n",
            b"<0.0.0>\nt\n** badarg\n[]\ntrue\n[{a,b}]\n",
        ),
        (
            b"spawn p\np new(t,[named_table])\np insert(t,{'A b',<<\"hi\">>,\"ab\",-0})\np lookup(t,'A b')\n",
            b"<0.0.0>\nt\ntrue\n[{'A b',<<104,105>>,[97,98],0}]\n",
        ),
    ];
    assert_eq!(rt;
        first_wrong_script(rt.alloc(), &usual_run(), &rows),
        rows.len()
    );
}
