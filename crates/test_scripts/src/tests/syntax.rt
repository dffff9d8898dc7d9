//! Lines that are not commands, and the ends of lines.
use super::{first_wrong_script, usual_run};

/// Answers each wrong line with `** syntax N`, where N is the number of bytes before its first fault. A row is a script
/// and its answers.
#[test]
fn wrong_lines_are_answered_with_their_first_fault(rt: HostRuntime) {
    let rows: [(&[u8], &[u8]); 10] = [
        (b"p f([a,\n", b"** syntax 7\n"),
        (b"p insert(t,{a,1|2})\n", b"** syntax 15\n"),
        (b"p insert(t,{a,1.5})\n", b"** syntax 15\n"),
        (
            b"p insert(t,170141183460469231731687303715884105728)\n",
            b"** syntax 11\n",
        ),
        (b"nobody f(\n", b"** syntax 9\n"),
        (b"grow(t)\n", b"** syntax 4\n"),
        (
            b"ready t -1\nready t 4294967296\n",
            b"** syntax 8\n** syntax 8\n",
        ),
        (
            b"spawn\nspawn \nspawn P\nspawn p q\n",
            b"** syntax 5\n** syntax 6\n** syntax 6\n** syntax 8\n",
        ),
        (
            b"p f(a b)\np f(a,)\np f(a) b\n",
            b"** syntax 6\n** syntax 6\n** syntax 7\n",
        ),
        (
            b"p f(\xc3\xa9)\np f('\x7f')\n",
            b"** syntax 4\n** syntax 5\n",
        ),
    ];
    assert_eq!(rt;
        first_wrong_script(rt.alloc(), &usual_run(), &rows),
        rows.len()
    );
}

/// Answers lines with blanks and comments. A line ends in LF, in CR and LF, or at the end of the script. A CR
/// elsewhere, outside comments, is a syntax fault. A row is a script and its answers.
#[test]
fn lines_end_with_cr_lf_or_both(rt: HostRuntime) {
    let rows: [(&[u8], &[u8]); 5] = [
        (b"spawn p", b"<0.0.0>\n"),
        (
            b"spawn p\r\n  \t\n% \xff\nspawn q\r",
            b"<0.0.0>\n** syntax 7\n",
        ),
        (b"spawn p\r\r\n\r", b"** syntax 7\n** syntax 0\n"),
        (b"p lookup(t,\ra)\n", b"** syntax 11\n"),
        (b"\n\n \t spawn \t p \t\n\n%spawn q\n", b"<0.0.0>\n"),
    ];
    assert_eq!(rt;
        first_wrong_script(rt.alloc(), &usual_run(), &rows),
        rows.len()
    );
}
