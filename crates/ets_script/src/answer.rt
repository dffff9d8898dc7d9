//! The answer to a line, and how it is printed.
ghost use Rattle.std.specs.Prelude.{◌≡◌, ◌++◌, true, OnOk, OnErr, codes};
ghost use Rattle.term_text.specs.Printed as text;
ghost use Rattle.ets_packets.specs.Output.{Adds, Fails, HasWriterOf};
ghost use Rattle.ets_script.specs.Replies.{answer_text, reply_text};

use ets_packets::{Output, WriteFault};
use ets_term::Term;
use itoa::Buffer;
use node_core::Reply;
use std::io::Write;

/// The answer to a line.
#[derive(Drop)]
pub enum Answer {
    /// The line was blank or a comment; nothing is printed.
    Silent,
    /// A reply of the node, or one that the script gives itself, such as `NoProcess` for an unknown name.
    Replied(Reply),
    /// Out of memory, and nothing has changed.
    NoMemory,
    /// The line is not a command; the offset of its first syntax error.
    Syntax(usize),
    /// The line has more than `MAX_LINE` bytes, and was not parsed.
    TooLong,
}

impl Answer {
    /// Sets the answer to out of memory.
    #[inline(never)]
    pub fn set_no_memory(&mut self)
        ensures { self.new ≡ Answer.NoMemory }
    {
        *self = Answer::NoMemory;
    }

    /// Sets the answer to the reply that there is no such process.
    #[inline(never)]
    pub fn set_no_process(&mut self)
        ensures { self.new ≡ Answer.Replied Reply.NoProcess }
    {
        *self = Answer::Replied(Reply::NoProcess);
    }

    /// Prints the answer on a line of its own, after the buffered text. Prints nothing for `Silent`.
    #[inline(always)]
    pub fn print<W: Write>(&self, output: &mut Output<'_, W>) -> Result<(), WriteFault>
        ensures same_writer { HasWriterOf output.old output.new }
        ensures ok { OnOk result (Adds W.contents output.old output.new (answer_text self.now)) }
        ensures err { OnErr result (Fails W.contents output.old output.new (answer_text self.now)) }
    {
        match self {
            Answer::Silent => Ok(()),
            Answer::Replied(reply) => print_reply(reply, output),
            Answer::NoMemory => output.add(b"** nomem\n"),
            Answer::Syntax(at) => print_syntax(*at, output),
            Answer::TooLong => output.add(b"** line too long\n"),
        }
    }
}

/// Prints a reply and an LF.
#[inline(always)]
pub fn print_reply<W: Write>(reply: &Reply, output: &mut Output<'_, W>) -> Result<(), WriteFault>
    ensures same_writer { HasWriterOf output.old output.new }
    ensures ok { OnOk result (Adds W.contents output.old output.new
        (reply_text reply.now ++ codes "\n")) }
    ensures err { OnErr result (Fails W.contents output.old output.new
        (reply_text reply.now ++ codes "\n")) }
{
    match reply {
        Reply::Value(term) if is_true(term) => output.add(b"true\n"),
        Reply::Value(term) => output.add_term_line(term),
        Reply::Badarg => output.add(b"** badarg\n"),
        Reply::SystemLimit => output.add(b"** system_limit\n"),
        Reply::NoProcess => output.add(b"** noproc\n"),
    }
}

/// Checks whether the term is `true`, which `insert` and other frequent calls reply. `print_reply` prints `true`
/// without the printer of terms, which is faster.
#[inline(always)]
fn is_true(term: &Term) -> bool
    ensures { result ≡ true → text.text_of_term term.now ≡ codes "true" }
{
    match term {
        Term::Atom(name) => {
            let characters: &[u8] = b"true";
            name.text().as_bytes() == characters
        }
        _ => false,
    }
}

/// Prints the line of a syntax error at this offset.
#[inline(never)]
fn print_syntax<W: Write>(at: usize, output: &mut Output<'_, W>) -> Result<(), WriteFault>
    ensures same_writer { HasWriterOf output.old output.new }
    ensures ok { OnOk result (Adds W.contents output.old output.new
        (answer_text (Answer.Syntax at))) }
    ensures err { OnErr result (Fails W.contents output.old output.new
        (answer_text (Answer.Syntax at))) }
{
    let mut digits = Buffer::new();
    output.add(b"** syntax ")?;
    output.add(digits.format(at).as_bytes())?;
    output.add(b"\n")
}
