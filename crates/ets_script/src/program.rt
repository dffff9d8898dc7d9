//! Runs the program with its options, and returns its status.
ghost use Rattle.std.specs.Prelude.{◌≡◌, ◌==◌, if◌then◌else◌, false, true, None, Some, IfOk, OnOk, OnErr, IfErr};
ghost use Rattle.ets_packets.specs.Stops.{PacketsEnd};
ghost use Rattle.ets_script.specs.CommandLine.{limits_of};
ghost use Rattle.ets_script.specs.Flows.{flows};
ghost use Rattle.ets_script.specs.Script.{ScriptState, at_start};
ghost use Rattle.ets_script.specs.Stops.{Completes, EndsWithin, ProgramEnds, Stops};
ghost use Rattle.ets_script.specs.Threads.{ThreadsEnd, ThreadsStop, ThreadsStatus, ProgramThreads};

use crate::fault::ScriptFault;
use crate::node_settings::NodeSettings;
use crate::options::{Options, Settings};
use crate::run::{run_script, run_script_with_reasons};
use crate::streams::Streams;
use crate::threads::run_threads;
use ets_packets::{MAX_PACKET, PacketFault, PacketSettings, run_packets};
use ets_term::{AllSame, Fnv, KeyHash, Keyed};
use node_core::{Limits, Node};
use std::alloc::Global;
use std::io::{self, Read, Write};
use std::sync::Wait;
use std::thread::Threads;

/// The status after a fault.
const FAILURE: u8 = 1;

/// Answers a script with these settings, in threads or line by line, and returns the program's status. It is 0 at the
/// end of the input. Otherwise it is 1, and one line is written to `errors`. `Err` means that this line was not
/// written. In threads the function may wait.
pub fn answer_input<T: Threads + Wait + Sync, R: Read, W: Write, E: Write>(
    rt: &T,
    alloc: Global,
    settings: &Settings,
    streams: &mut Streams<R, W>,
    errors: &mut E,
) -> io::Result<u8>
    ensures alone { settings.now.threads ≡ false → IfOk result (ProgramEnds settings.now.objects
        (flows R.remaining W.contents streams.old streams.new)) }
    ensures threads { settings.now.threads ≡ true → IfOk result (ProgramThreads settings.now.objects
        (flows R.remaining W.contents streams.old streams.new)) }
{
    let options = usual_options(settings);
    answer_with_options(rt, alloc, &options, streams, errors)
}

/// Answers a script line by line, each when it was read, with the usual limits and the settings' limit of objects.
/// Returns the program's status.
pub fn answer_alone<R: Read, W: Write, E: Write>(
    alloc: Global,
    settings: &Settings,
    streams: &mut Streams<R, W>,
    errors: &mut E,
) -> io::Result<u8>
    ensures { IfOk result (ProgramEnds settings.now.objects
        (flows R.remaining W.contents streams.old streams.new)) }
{
    let options = usual_options(settings);
    answer_lines(alloc, &options, streams, errors)
}

/// Returns the options of the settings, with the usual limits.
fn usual_options(settings: &Settings) -> Options
    ensures { result
        ≡ record {
          settings = settings.now;
          processes = 4096;
          tables = 65536;
          why = false;
          external = false;
          max_packet = 16777216;
          seed = 0;
        } }
{
    let usual = Limits::usual();
    Options {
        settings: *settings,
        processes: usual.processes,
        tables: usual.tables,
        why: false,
        external: false,
        max_packet: MAX_PACKET,
        seed: 0,
    }
}

/// Answers a script as `answer_input` does, with the limits of the options. Answers packets instead if `external` is
/// set.
pub fn answer_with_options<T: Threads + Wait + Sync, R: Read, W: Write, E: Write>(
    rt: &T,
    alloc: Global,
    options: &Options,
    streams: &mut Streams<R, W>,
    errors: &mut E,
) -> io::Result<u8>
    ensures alone { options.now.external ≡ false → options.now.settings.threads ≡ false →
        IfOk result (EndsWithin (limits_of options.now)
        (flows R.remaining W.contents streams.old streams.new)) }
    ensures threads { options.now.external ≡ false → options.now.settings.threads ≡ true →
        IfOk result (ThreadsStatus (limits_of options.now)
        (flows R.remaining W.contents streams.old streams.new)) }
    ensures external { options.now.external ≡ true →
        IfOk result (PacketsEnd options.now.max_packet (limits_of options.now)
        (flows R.remaining W.contents streams.old streams.new)) }
{
    if options.external {
        return answer_packets(alloc, options, streams, errors);
    }
    if options.settings.threads {
        answer_in_threads(rt, alloc, options, streams, errors)
    } else {
        answer_lines(alloc, options, streams, errors)
    }
}

/// Answers packets with the limits of the options, and returns the status.
fn answer_packets<R: Read, W: Write, E: Write>(
    alloc: Global,
    options: &Options,
    streams: &mut Streams<R, W>,
    errors: &mut E,
) -> io::Result<u8>
    ensures { IfOk result (PacketsEnd options.now.max_packet (limits_of options.now)
        (flows R.remaining W.contents streams.old streams.new)) }
{
    let settings = PacketSettings {
        limits: limits_of(options),
        max_packet: options.max_packet,
        seed: seed_of(options),
    };
    match run_packets(alloc, &mut streams.input, &mut streams.output, settings) {
        Ok(()) => Ok(0),
        Err(fault) => report_packets(&fault, errors),
    }
}

/// Returns the seed of the options, if they have one.
fn seed_of(options: &Options) -> Option<u64>
    ensures { result ≡ (if options.now.seed == 0 then None else Some options.now.seed) }
{
    if options.seed == 0 {
        return None;
    }
    Some(options.seed)
}

/// Prints on a line of standard error why no more packets are answered, and returns the status.
fn report_packets<E: Write>(fault: &PacketFault, errors: &mut E) -> io::Result<u8>
    ensures { IfOk result (λ status. status ≡ 1) }
{
    writeln!(errors, "ets_script: {fault}")?;
    Ok(FAILURE)
}

/// Answers a script line by line with the limits of the options, and returns the status.
fn answer_lines<R: Read, W: Write, E: Write>(
    alloc: Global,
    options: &Options,
    streams: &mut Streams<R, W>,
    errors: &mut E,
) -> io::Result<u8>
    ensures { IfOk result (EndsWithin (limits_of options.now)
        (flows R.remaining W.contents streams.old streams.new)) }
{
    if options.settings.same {
        let run = run_lines(alloc, options, AllSame, streams, errors);
        return report(run, errors);
    }
    answer_hashed(alloc, options, streams, errors)
}

/// Answers a script as `answer_lines` does. Keys are hashed by the seed of the options, if they have one.
fn answer_hashed<R: Read, W: Write, E: Write>(
    alloc: Global,
    options: &Options,
    streams: &mut Streams<R, W>,
    errors: &mut E,
) -> io::Result<u8>
    ensures { IfOk result (EndsWithin (limits_of options.now)
        (flows R.remaining W.contents streams.old streams.new)) }
{
    let seed = options.seed;
    if seed == 0 {
        let run = run_lines(alloc, options, Fnv, streams, errors);
        return report(run, errors);
    }
    let run = run_lines(alloc, options, Keyed::new(seed), streams, errors);
    report(run, errors)
}

/// Runs a script line by line, and reports why lines were refused if the option `why` is set.
fn run_lines<H: KeyHash + Copy + Drop, R: Read, W: Write, E: Write>(
    alloc: Global,
    options: &Options,
    hasher: H,
    streams: &mut Streams<R, W>,
    errors: &mut E,
) -> Result<Node<H>, ScriptFault>
    ensures ok { OnOk result ((end : ScriptState) × Completes (at_start (limits_of options.now)) end
        (flows R.remaining W.contents streams.old streams.new)) }
    ensures err { IfErr result (Stops (at_start (limits_of options.now))
        (flows R.remaining W.contents streams.old streams.new)) }
{
    let settings = NodeSettings {
        limits: limits_of(options),
        hasher,
    };
    if options.why {
        run_script_with_reasons(alloc, streams, errors, settings)
    } else {
        run_script(alloc, streams, settings)
    }
}

/// Answers a script whose processes run in threads of their own, and returns the program's status.
fn answer_in_threads<T: Threads + Wait + Sync, R: Read, W: Write, E: Write>(
    rt: &T,
    alloc: Global,
    options: &Options,
    streams: &mut Streams<R, W>,
    errors: &mut E,
) -> io::Result<u8>
    ensures { IfOk result (ThreadsStatus (limits_of options.now)
        (flows R.remaining W.contents streams.old streams.new)) }
{
    if options.settings.same {
        let limits = limits_of(options);
        let hasher = AllSame;
        let run = run_threads(rt, alloc, streams, NodeSettings { limits, hasher });
        return report(run, errors);
    }
    answer_hashed_in_threads(rt, alloc, options, streams, errors)
}

/// Answers a script as `answer_in_threads` does. Keys are hashed by the seed of the options, if they have one.
fn answer_hashed_in_threads<T: Threads + Wait + Sync, R: Read, W: Write, E: Write>(
    rt: &T,
    alloc: Global,
    options: &Options,
    streams: &mut Streams<R, W>,
    errors: &mut E,
) -> io::Result<u8>
    ensures { IfOk result (ThreadsStatus (limits_of options.now)
        (flows R.remaining W.contents streams.old streams.new)) }
{
    let seed = options.seed;
    let limits = limits_of(options);
    if seed == 0 {
        let hasher = Fnv;
        let run = run_threads(rt, alloc, streams, NodeSettings { limits, hasher });
        return report(run, errors);
    }
    let hasher = Keyed::new(seed);
    let run = run_threads(rt, alloc, streams, NodeSettings { limits, hasher });
    report(run, errors)
}

/// Returns the status of a run with this result. Prints its fault, if it has one, on a line of standard error.
fn report<T: Drop, E: Write>(run: Result<T, ScriptFault>, errors: &mut E) -> io::Result<u8>
    ensures ok { OnOk run (IfOk result (λ status. status ≡ 0)) }
    ensures err { OnErr run (IfOk result (λ status. status ≡ 1)) }
{
    match run {
        Ok(_) => Ok(0),
        Err(fault) => {
            writeln!(errors, "{fault}")?;
            Ok(FAILURE)
        }
    }
}

/// Returns the limits of the options.
fn limits_of(options: &Options) -> Limits
    ensures { result ≡ limits_of options.now }
{
    Limits {
        processes: options.processes,
        tables: options.tables,
        objects: options.settings.objects,
    }
}
