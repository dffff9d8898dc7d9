//! The message about a refused line of a script. It begins with the call, the command or the offset, unless the line is
//! too long or memory ran out.
ghost use Rattle.std.specs.Prelude.{◌≡◌};
ghost use Rattle.node_reasons.specs.Diagnostics.{name_text};

use crate::reason::Reason;
use crate::syntax_problem::SyntaxProblem;
use node_core::{Call, Step};
use std::fmt;

/// The reason why a line was refused.
#[derive(Drop)]
pub enum Diagnostic<'a> {
    /// The step of the line, and the rule that it breaks.
    BrokenRule(Step, Reason),
    /// The line spawns a name that was already spawned.
    AlreadySpawned(&'a [u8]),
    /// The line makes a call as a name that was never spawned.
    CallByUnknownName(&'a [u8], Call),
    /// The line ends the process of a name that was never spawned.
    ExitOfUnknownName(&'a [u8]),
    /// The line has a syntax error: its offset, and what is wrong there.
    SyntaxFault(usize, SyntaxProblem),
    /// The line is longer than `MAX_LINE` of `ets_script`, 65,536 bytes.
    TooLong,
    /// Memory ran out, and the line changed nothing.
    NoMemory,
}

/// Writes `lookup/2: argument 1: no such table`, or `byte 17: unexpected '.'`.
impl fmt::Display for Diagnostic<'_> {
    ghost use Rattle.std.specs.Prelude.{Some};
    ghost use Rattle.node_reasons.specs.Diagnostics.{diagnostic_text};

    ghost output = { λ diagnostic. Some (diagnostic_text diagnostic) };

    fn fmt<W: fmt::Write>(&self, f: &mut fmt::Formatter<W>) -> fmt::Result {
        match self {
            Diagnostic::BrokenRule(step, reason) => write!(f, "{}: {reason}", StepSubject { step }),
            Diagnostic::AlreadySpawned(name) => write!(
                f,
                "spawn: {} was already spawned",
                name_text(*name)
            ),
            Diagnostic::CallByUnknownName(name, call) => {
                write!(
                    f,
                    "{}: {} was never spawned",
                    CallSubject { call },
                    name_text(*name)
                )
            }
            Diagnostic::ExitOfUnknownName(name) => write!(
                f,
                "exit: {} was never spawned",
                name_text(*name)
            ),
            Diagnostic::SyntaxFault(at, problem) => write!(f, "byte {at}: {problem}"),
            Diagnostic::TooLong => write!(f, "line longer than 65536 bytes"),
            Diagnostic::NoMemory => write!(f, "out of memory"),
        }
    }
}

/// Displays as the beginning of a message about a broken rule, before its `: `. This is the command's word, such as
/// `spawn`, or what `CallSubject` displays.
#[derive(Clone, Copy)]
struct StepSubject<'a> {
    step: &'a Step,
}

impl fmt::Display for StepSubject<'_> {
    ghost use Rattle.std.specs.Prelude.{Some};
    ghost use Rattle.node_reasons.specs.Diagnostics.{step_subject};

    ghost output = { λ subject. Some (step_subject subject.step.now) };

    fn fmt<W: fmt::Write>(&self, f: &mut fmt::Formatter<W>) -> fmt::Result {
        match self.step {
            Step::Enrol(_) => write!(f, "spawn"),
            Step::End(_) => write!(f, "exit"),
            Step::Ask(_, call) => write!(f, "{}", CallSubject { call }),
            Step::Grow(_) => write!(f, "grow"),
            Step::Ready(_, _) => write!(f, "ready"),
        }
    }
}

/// Displays as the beginning of a message about a call, before its `: `. This is the call's name with its number of
/// arguments, such as `lookup/2`.
#[derive(Clone, Copy)]
struct CallSubject<'a> {
    call: &'a Call,
}

impl fmt::Display for CallSubject<'_> {
    ghost use Rattle.std.specs.Prelude.{Some};
    ghost use Rattle.node_reasons.specs.Diagnostics.{call_subject};

    ghost output = { λ subject. Some (call_subject subject.call.now) };

    fn fmt<W: fmt::Write>(&self, f: &mut fmt::Formatter<W>) -> fmt::Result {
        write!(f, "{}/{}", self.call.name.text(), self.call.args.len())
    }
}

/// Returns a process's name as it is on the line, or `the name` for bytes that are not UTF-8.
fn name_text(name: &[u8]) -> &str
    ensures { result.now ≡ name_text name.now }
{
    match str::from_utf8(name) {
        Ok(name) => name,
        Err(_) => "the name",
    }
}
