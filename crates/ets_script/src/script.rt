//! The state of a script: the names that it spawned, and its node.
ghost use Rattle.std.specs.Prelude.{◌≡◌, ◌-◌, ◌^◌, ◌⊎◌, length, min};
ghost use Rattle.node_core.specs.Observable.{observable};
ghost use Rattle.ets_script.specs.Commands as spec;
ghost use Rattle.ets_script.specs.Lines.{text};
ghost use Rattle.ets_script.specs.declared.answer.Answer.TheVariants.{NoMemory};
ghost use Rattle.ets_script.specs.inside.Parsing.{command_view};
ghost use Rattle.ets_script.specs.Script.{pid_of, table_of, KeepsState, Executes, AnswersLine, at_start};

mod calls;
mod spawning;

use crate::answer::Answer;
use crate::command::{CallLine, Command, is_silent, read_call, read_command};
use ets_term::{Atom, KeyHash, Term};
use indexmap::IndexSet;
use node_core::{Call, Limits, Node, Reply, Step};
use std::alloc::Global;
use std::marker::Model;

/// The names that were spawned, in order, and the node. A contract sees only these two. It does not see `last_caller`
/// and `arguments`, which are not in the view. Both may change where a contract says that the script is unchanged.
#[derive(Drop)]
pub struct Script<H: KeyHash + Copy + Drop> {
    /// The index of a name is the number of its process.
    names: IndexSet<Vec<u8>>,
    node: Node<H>,
    /// The process that made the last call; 0 before the first call.
    last_caller: u32,
    /// An empty list, if any, with the memory of the arguments of an earlier call.
    arguments: Option<Vec<Term>>,
}

impl<H: KeyHash + Copy + Drop> Model for Script<H> {
    ghost use Rattle.std.specs.Prelude.{◌≤◌, ◌^◌, map, vec_items};
    ghost use Rattle.indexmap.specs.IndexSet.{index_set_len};
    ghost use Rattle.node_core.specs.Observable.{observable};
    ghost use Rattle.ets_script.specs.Script.{ScriptState};
    ghost use Rattle.ets_script.specs.inside.Codes.{script_state_code};

    ghost Value = { ScriptState };

    ghost coded = { script_state_code };

    ghost view = { λ s. record { names = map vec_items s.names.keys; node = observable s.node } };

    ghost invariant = { λ s. index_set_len s.names ≤ 2 ^ 32 };
}

impl<H: KeyHash + Copy + Drop> Script<H> {
    /// Creates a script without names, and a node without processes and tables.
    pub fn new(alloc: Global, limits: Limits, hasher: H) -> Script<H>
        ensures { result ≡ at_start limits }
    {
        Script {
            names: IndexSet::new(alloc),
            node: Node::new(alloc, limits, hasher),
            last_caller: 0,
            arguments: None,
        }
    }

    /// Returns the node on which the script runs.
    pub fn node(&self) -> &Node<H>
        ensures { observable result.now ≡ self.now.node }
    {
        &self.node
    }

    /// Returns the node, and drops the names.
    pub fn into_node(self) -> Node<H>
        ensures { observable result ≡ self.node }
    {
        self.node
    }

    /// Returns the allocator of the script.
    pub(crate) fn allocator(&self) -> Global {
        *self.names.allocator()
    }

    /// Executes a line. Writes its answer over the answer to an earlier line, whose memory a reply uses again.
    pub fn answer(&mut self, line: &[u8], answer: &mut Answer)
        ensures { AnswersLine self.old (text line.now) answer.new self.new }
    {
        let alloc = self.allocator();
        let mut terms = self.take_arguments(alloc);
        match read_call(alloc, line, &mut terms) {
            CallLine::Call { name, word } => match Atom::of_bytes(alloc, word) {
                Ok(word) => self.ask(
                    name,
                    Call {
                        name: word,
                        args: terms,
                    },
                    answer,
                ),
                Err(_) => answer.set_no_memory(),
            },
            CallLine::Other => {
                self.keep_arguments(terms);
                self.answer_other(alloc, line, answer);
            }
            CallLine::NoMemory => answer.set_no_memory(),
        }
    }

    /// Executes a line of any form. `answer` uses it for a line that `read_call` does not find to be a call. It is not
    /// inlined, because most lines are calls.
    #[inline(never)]
    fn answer_other(&mut self, alloc: Global, line: &[u8], answer: &mut Answer)
        ensures { AnswersLine self.old (text line.now) answer.new self.new }
    {
        if is_silent(line) {
            *answer = Answer::Silent;
            return;
        }
        match read_command(alloc, line) {
            Ok(command) => self.execute(alloc, command, answer),
            Err(_) => *answer = Answer::NoMemory,
        }
    }

    /// Executes a command, and writes its answer over `answer`.
    fn execute(&mut self, alloc: Global, command: Command<'_>, answer: &mut Answer)
        ensures { Executes (command_view command.entry) self.old answer.new self.new
            ⊎ KeepsState self.old NoMemory answer.new self.new }
    {
        match command {
            Command::Faulty(at) => *answer = Answer::Syntax(at),
            Command::Spawn(name) => *answer = self.spawn(alloc, name),
            Command::Exit(name) => self.exit(name, answer),
            Command::Ask(name, word, args) => self.ask(name, Call { name: word, args }, answer),
            Command::Grow(table) => self.grow(&table, answer),
            Command::Ready(table, bucket) => self.ready(&table, bucket, answer),
        }
    }

    /// Ends the process with this name. Answers `NoProcess` if the name was not spawned.
    #[inline(never)]
    fn exit(&mut self, name: &[u8], answer: &mut Answer)
        ensures { Executes (spec.exit name.now) self.old answer.new self.new
            ⊎ KeepsState self.old NoMemory answer.new self.new }
    {
        match self.pid(name) {
            Some(pid) => self.step(&Step::End(pid), answer),
            None => *answer = Answer::Replied(Reply::NoProcess),
        }
    }

    /// Doubles the buckets of the table that a term names.
    #[inline(never)]
    fn grow(&mut self, table: &Term, answer: &mut Answer)
        ensures { Executes (spec.grow table.now) self.old answer.new self.new
            ⊎ KeepsState self.old NoMemory answer.new self.new }
    {
        let table = self.table(table);
        self.step(&Step::Grow(table), answer);
    }

    /// Readies a bucket of the table that a term names.
    #[inline(never)]
    fn ready(&mut self, table: &Term, bucket: u32, answer: &mut Answer)
        ensures { Executes (spec.ready table.now bucket) self.old answer.new self.new
            ⊎ KeepsState self.old NoMemory answer.new self.new }
    {
        let table = self.table(table);
        self.step(&Step::Ready(table, bucket), answer);
    }

    /// Returns the process with this name, which may have exited, or `None` if the name was not spawned.
    pub fn pid(&self, name: &[u8]) -> Option<u32>
        ensures { result ≡ pid_of self.now name.now }
    {
        match self.names.get_index_of(name) {
            Some(number) => Some(number as u32),
            None => None,
        }
    }

    /// Returns the number of the process that is spawned next: the number of names, but at most 2^32 - 1.
    pub fn next_pid(&self) -> u32
        ensures { result ≡ min (length self.now.names) (2 ^ 32 - 1) }
    {
        u32::try_from(self.names.len()).unwrap_or(u32::MAX)
    }

    /// Returns the table that a term names, or, if there is none, the next identifier, which no table has.
    pub fn table(&self, term: &Term) -> u32
        ensures { result ≡ table_of self.now term.now }
    {
        match self.node.resolve(term) {
            Some(table) => table,
            None => self.node.next_identifier(),
        }
    }
}
