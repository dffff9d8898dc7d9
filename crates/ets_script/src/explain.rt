//! Why a line was refused.
ghost use Rattle.std.specs.Prelude.{IfOk};
ghost use Rattle.ets_script.specs.inside.Explanations.{Explains, ExplainsCommand, ExplainsStep};

use crate::answer::Answer;
use crate::command::{Command, read_command};
use crate::script::Script;
use ets_term::KeyHash;
use node_core::{Call, Reply, Step};
use node_reasons::{Diagnostic, diagnose_at, why};
use std::alloc::AllocError;

/// Explains why a line was refused, or returns `None` if it was not. The script must not have changed since it answered
/// the line. A refused line is parsed again.
pub fn explain<'a, H: KeyHash + Copy + Drop>(
    script: &Script<H>,
    line: &'a [u8],
    answer: &Answer,
) -> Result<Option<Diagnostic<'a>>, AllocError>
    ensures { IfOk result (Explains script.now line.now answer.now) }
{
    match answer {
        Answer::Silent => Ok(None),
        Answer::Replied(reply) if reply.is_value() => Ok(None),
        Answer::Replied(reply) => Ok(explain_command(
            script,
            read_command(script.allocator(), line)?,
            reply,
        )),
        Answer::NoMemory => Ok(Some(Diagnostic::NoMemory)),
        Answer::Syntax(at) => Ok(Some(Diagnostic::SyntaxFault(*at, diagnose_at(line, *at)))),
        Answer::TooLong => Ok(Some(Diagnostic::TooLong)),
    }
}

/// Explains the refusal of a command by this reply.
fn explain_command<'a, H: KeyHash + Copy + Drop>(
    script: &Script<H>,
    command: Command<'a>,
    reply: &Reply,
) -> Option<Diagnostic<'a>>
    ensures { ExplainsCommand script.now command.entry reply.now result }
{
    match command {
        // The answer to a faulty line is `Syntax`, which is not a reply.
        Command::Faulty(_) => None,
        Command::Spawn(name) => match script.pid(name) {
            Some(_) => Some(Diagnostic::AlreadySpawned(name)),
            None => explain_step(script, Step::Enrol(script.next_pid()), reply),
        },
        Command::Exit(name) => match script.pid(name) {
            Some(pid) => explain_step(script, Step::End(pid), reply),
            None => Some(Diagnostic::ExitOfUnknownName(name)),
        },
        Command::Ask(name, word, terms) => {
            let call = Call::new(word, terms.into_vec());
            match script.pid(name) {
                Some(pid) => explain_step(script, Step::Ask(pid, call), reply),
                None => Some(Diagnostic::CallByUnknownName(name, call)),
            }
        }
        Command::Grow(table) => explain_step(script, Step::Grow(script.table(&table)), reply),
        Command::Ready(table, bucket) => {
            explain_step(script, Step::Ready(script.table(&table), bucket), reply)
        }
    }
}

/// Explains the refusal of a step by this reply: names the first rule that the step breaks.
fn explain_step<'a, H: KeyHash + Copy + Drop>(
    script: &Script<H>,
    event: Step,
    reply: &Reply,
) -> Option<Diagnostic<'a>>
    ensures { ExplainsStep script.now.node event reply.now result }
{
    let reason = why(script.node(), &event, reply)?;
    Some(Diagnostic::BrokenRule(event, reason))
}
