//! A script whose processes run in threads of their own.
ghost use Rattle.std.specs.Prelude.{◌≡◌, min, IfOk, IfErr, OnOk};
ghost use Rattle.node_shared.specs.declared.pids.TheConstants.{MAX_PIDS};
ghost use Rattle.ets_packets.specs.Traffic.{flow};
ghost use Rattle.ets_script.specs.Flows.{flows};
ghost use Rattle.ets_script.specs.Numbers.{ConstantsHaveValues};
ghost use Rattle.ets_script.specs.Threads.{ThreadsEnd, ThreadsStop};
ghost use Rattle.ets_script.specs.inside.Processes.{RunsInput, StopsBeforeOutput};

use crate::fault::ScriptFault;
use crate::journal::print_results;
use crate::node_settings::NodeSettings;
use crate::plan::PlannedAnswers;
use crate::planning::plan_input;
use crate::processes::{RunResult, run_jobs};
use crate::streams::Streams;
use ets_packets::{Output, output_buffer};
use ets_term::KeyHash;
use node_core::Limits;
use node_shared::MAX_PIDS;
use std::alloc::Global;
use std::io::{Read, Write};
use std::sync::Wait;
use std::thread::Threads;

/// Reads a script to its end, and runs the lines of each process in a thread of its own, on a node with these settings.
/// Then prints the planned answers, and the replies in the order of the journal. A `** nomem` line follows for each
/// process that did not run all its jobs. It may wait.
pub fn run_threads<
    T: Threads + Wait + Sync,
    R: Read,
    W: Write,
    H: KeyHash + Copy + Drop + Send + Sync,
>(
    rt: &T,
    alloc: Global,
    streams: &mut Streams<R, W>,
    settings: NodeSettings<H>,
) -> Result<(), ScriptFault>
    ensures ok { OnOk result (ThreadsEnd settings.limits
        (flows R.remaining W.contents streams.old streams.new)) }
    ensures err { IfErr result (ThreadsStop settings.limits
        (flows R.remaining W.contents streams.old streams.new)) }
    ensures numbers { ConstantsHaveValues }
{
    let Ok(mut bytes) = output_buffer(alloc) else {
        return Err(ScriptFault::Memory);
    };
    let (planned, run) = run_input(rt, alloc, &mut streams.input, settings)?;
    let mut output = Output::new(&mut bytes, &mut streams.output);
    print_results(&planned, &run, &mut output)?;
    Ok(())
}

/// Reads a script to its end, and runs the jobs of its processes.
fn run_input<T: Threads + Wait + Sync, R: Read, H: KeyHash + Copy + Drop + Send + Sync>(
    rt: &T,
    alloc: Global,
    reader: &mut R,
    settings: NodeSettings<H>,
) -> Result<(PlannedAnswers, RunResult), ScriptFault>
    ensures ok { IfOk result (λ r. RunsInput settings.limits
        (flow R.remaining reader.old reader.new) r.0 r.1) }
    ensures err { IfErr result (StopsBeforeOutput settings.limits) }
{
    let plan = plan_input(alloc, reader, max_names(settings.limits))?;
    let (planned, work) = plan.into_parts();
    let run = run_jobs(rt, alloc, settings, work)?;
    Ok((planned, run))
}

/// Returns the greatest number of names that may be spawned: as the limits say, but at most `MAX_PIDS`.
fn max_names(limits: Limits) -> u32
    ensures { result ≡ min limits.processes MAX_PIDS }
{
    limits.processes.min(MAX_PIDS as u32)
}
