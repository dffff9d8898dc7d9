//! The statuses that a call of the interface returns: the numbers that bindings/c/include/yoyoash.h names.
ghost use Rattle.std.specs.Prelude.{◌≡◌};
ghost use Rattle.node_text.specs.Answers.{status_of};

use node_core::Reply;

/// The step was run, and its reply is a term.
pub const VALUE: i32 = 0;
/// The arguments are wrong, the table does not exist, or the process has no access to it.
pub const BADARG: i32 = 1;
/// A limit would be exceeded.
pub const SYSTEM_LIMIT: i32 = 2;
/// The process was never spawned, or has exited.
pub const NO_PROCESS: i32 = 3;
/// Memory ran out, and nothing has changed.
pub const NO_MEMORY: i32 = 4;
/// The text or the bytes are not a call, and nothing has changed.
pub const SYNTAX: i32 = 5;
/// The handle has no store.
pub const CLOSED: i32 = 6;
/// The step was run and its reply is a term, but memory ran out for the reply's text or bytes.
pub const UNTOLD: i32 = 7;

/// Returns the status of a reply.
pub fn status_of(reply: &Reply) -> i32
    ensures { result ≡ status_of reply.now }
{
    match reply {
        Reply::Value(_) => VALUE,
        Reply::Badarg => BADARG,
        Reply::SystemLimit => SYSTEM_LIMIT,
        Reply::NoProcess => NO_PROCESS,
    }
}
