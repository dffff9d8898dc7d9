//! The plan of a script's lines, made before any of its steps is run.
ghost use Rattle.std.specs.Prelude.{◌≡◌, ◌∷◌, ◌++◌, ◌+◌, ◌<◌, [], false, map, vec_items, length, IfOk, IfSome};
ghost use Rattle.std.specs.Str.{bytes_eq};
ghost use Rattle.indexmap.specs.IndexSet.{spare, contains_by, index_set_len};
ghost use Rattle.ets_script.specs.inside.Parsing.{command_view};
ghost use Rattle.ets_script.specs.inside.Planning.{AreParts, no_lines, with_answer, with_command, with_job, with_line, with_name};
ghost use Rattle.ets_script.specs.Lines.{text, too_long};
ghost use Rattle.ets_script.specs.Plan.{jobs_with, index_of};

use crate::answer::Answer;
use crate::command::{Command, is_silent, read_command};
use crate::names::Names;
use ets_term::Items;
use indexmap::IndexSet;
use node_core::{Call, Reply};
use node_shared::Job;
use std::alloc::{AllocError, Global};
use std::marker::Model;

/// What is known before any step is run: the planned answers, which are printed first, and the names of the processes.
#[derive(Drop)]
pub struct PlannedAnswers {
    pub answers: Items<Answer>,
    pub names: Names,
}

/// The work: the jobs of each process, in the order of the processes, and `turns`. That is the greatest number of
/// pending growth steps to run, which is the number of lines.
#[derive(Drop)]
pub struct ProcessJobs {
    pub jobs: Items<Items<Job>>,
    pub turns: u32,
}

/// The plan of the lines so far: the answers that are known already, the names that are spawned, and the jobs of each.
/// A contract sees these, and the greatest number of names.
#[derive(Drop)]
pub struct Plan {
    alloc: Global,
    max_names: u32,
    answers: Items<Answer>,
    names: IndexSet<Vec<u8>>,
    /// The jobs of each process, in the order of `names`.
    jobs: Items<Items<Job>>,
    /// The number of lines so far, but at most 2^32 - 1.
    lines: u32,
}

impl Model for Plan {
    ghost use Rattle.std.specs.Prelude.{◌≡◌, map, length, vec_items};
    ghost use Rattle.indexmap.specs.IndexSet.{index_set_len};
    ghost use Rattle.ets_script.specs.Plan.{PlanState};
    ghost use Rattle.ets_script.specs.inside.PlanCodes.{LimitedPlanState, limited_plan_state_code};

    ghost Value = { LimitedPlanState };

    ghost coded = { limited_plan_state_code };

    ghost view = { λ p. record {
      max_names = p.max_names;
      plan = record { answers = p.answers; names = map vec_items p.names.keys; jobs = p.jobs };
    } };

    ghost invariant = { λ p. index_set_len p.names ≡ length p.jobs };
}

impl Plan {
    /// Creates an empty plan, for at most `max_names` names.
    pub fn new(alloc: Global, max_names: u32) -> Plan
        ensures { result ≡ no_lines max_names }
    {
        Plan {
            alloc,
            max_names,
            answers: Items::new(alloc),
            names: IndexSet::new(alloc),
            jobs: Items::new(alloc),
            lines: 0,
        }
    }

    /// Returns the planned answers and the work, with at most one growth step for each line.
    pub fn into_parts(self) -> (PlannedAnswers, ProcessJobs)
        ensures parts { AreParts result.0 result.1 self.plan }
        ensures named { length result.0.names ≡ length result.1.jobs }
    {
        let planned = PlannedAnswers {
            answers: self.answers,
            names: Names::new(self.names),
        };
        let work = ProcessJobs {
            jobs: self.jobs,
            turns: self.lines,
        };
        (planned, work)
    }

    /// Counts a line. Contracts do not see the count.
    pub fn count_line(&mut self)
        ensures { self.new ≡ self.old }
    {
        self.lines = self.lines.saturating_add(1);
    }

    /// Adds a line to the plan. A silent line changes nothing.
    pub fn add_line(&mut self, line: &[u8]) -> Result<(), AllocError>
        ensures { IfOk result (λ _. self.new ≡ with_line (text line.now) self.old) }
    {
        if is_silent(line) {
            return Ok(());
        }
        let command = read_command(self.alloc, line)?;
        self.add_command(command)
    }

    /// Adds a line that is too long.
    pub fn add_too_long(&mut self) -> Result<(), AllocError>
        ensures { IfOk result (λ _. self.new ≡ with_line too_long self.old) }
    {
        self.add_answer(Answer::TooLong)
    }

    /// Adds a command. Skips `grow` and `ready`, because a thread of its own runs the growth steps.
    fn add_command(&mut self, command: Command<'_>) -> Result<(), AllocError>
        ensures { IfOk result (λ _. self.new ≡ with_command (command_view command.entry) self.old) }
    {
        match command {
            Command::Faulty(at) => self.add_answer(Answer::Syntax(at)),
            Command::Spawn(name) => self.add_spawn(name),
            Command::Exit(name) => self.add_job_for(name, Job::End),
            Command::Ask(name, word, terms) => self.add_job_for(
                name,
                Job::Ask(Call::new(word, terms.into_vec())),
            ),
            Command::Grow(_) | Command::Ready(_, _) => Ok(()),
        }
    }

    /// Adds a planned answer.
    fn add_answer(&mut self, answer: Answer) -> Result<(), AllocError>
        ensures { IfOk result (λ _. self.new ≡ with_answer answer self.old) }
    {
        self.answers.push(answer)
    }

    /// Returns the index of the process of this name, or `None` if the name is not in the plan.
    fn index_of(&self, name: &[u8]) -> Option<usize>
        ensures index { result ≡ index_of self.now.plan name.now }
        ensures within { IfSome result (λ n. n < length self.now.plan.jobs) }
    {
        self.names.get_index_of(name)
    }

    /// Adds a job for the process of this name, or the answer `noproc` if no process has it.
    fn add_job_for(&mut self, name: &[u8], job: Job) -> Result<(), AllocError>
        ensures { IfOk result (λ _. self.new
            ≡ with_job (index_of self.old.plan name.now) job self.old) }
    {
        match self.index_of(name) {
            Some(process_index) => self.add_job_at(process_index, job),
            None => self.add_answer(Answer::Replied(Reply::NoProcess)),
        }
    }

    /// Adds a job for the process of this index.
    fn add_job_at(&mut self, process_index: usize, job: Job) -> Result<(), AllocError>
        requires { process_index < length self.old.plan.jobs }
        ensures { IfOk result (λ _. self.new ≡ with_job (Some process_index) job self.old) }
    {
        add_job(self.alloc, &mut self.jobs, process_index, job)
    }

    /// Adds a process for a name. Adds the answer `badarg` instead if the name is taken, and `system_limit` if there
    /// are `max_names` names. Reserves capacity first.
    fn add_spawn(&mut self, name: &[u8]) -> Result<(), AllocError>
        ensures { IfOk result (λ _. self.new ≡ with_name name.now self.old) }
    {
        match self.names.get_index_of(name) {
            Some(_) => return self.add_answer(Answer::Replied(Reply::Badarg)),
            None => {}
        }
        if self.names.len() >= self.max_names as usize {
            return self.add_answer(Answer::Replied(Reply::SystemLimit));
        }
        let name = Vec::from_slice(self.alloc, name)?;
        self.names.reserve(1)?;
        self.jobs.push(Items::new(self.alloc))?;
        add_name(&mut self.names, name);
        Ok(())
    }
}

/// Adds a new name after the others. There must be capacity for it. In contracts, `keys` has the members of the set in
/// their order.
fn add_name(names: &mut IndexSet<Vec<u8>>, name: Vec<u8>)
    requires room { 0 < spare names.old }
    requires new { contains_by (λ k. bytes_eq name.items k.items) names.old ≡ false }
    ensures added { map vec_items names.new.keys ≡ map vec_items names.old.keys ++ name.items ∷ [] }
    ensures len { index_set_len names.new ≡ index_set_len names.old + 1 }
{
    let _ = names.insert(name);
}

/// Adds a job after the other jobs of a process.
fn add_job(
    alloc: Global,
    jobs: &mut Items<Items<Job>>,
    process_index: usize,
    job: Job,
) -> Result<(), AllocError>
    requires { process_index < length jobs.old }
    ensures added { IfOk result (λ _. jobs.new ≡ jobs_with process_index job jobs.old) }
    ensures len { length jobs.new ≡ length jobs.old }
{
    // The process's own jobs are moved out, changed, and moved back.
    let mut own = jobs.replace(process_index, Items::new(alloc));
    let pushed = own.push(job);
    let _ = jobs.replace(process_index, own);
    pushed
}
