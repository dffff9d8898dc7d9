//! The plan of a whole script, which is read to its end.
ghost use Rattle.std.specs.Prelude.{◌≡◌, [], false, IfOk, IfErr};
ghost use Rattle.ets_packets.specs.Traffic.{flow};
ghost use Rattle.ets_script.specs.inside.Planning.{no_lines, with_line, last_line, PlansNext, PlansAll, IsUnplanned};

use crate::fault::ScriptFault;
use crate::line_buffer::LineBuffer;
use crate::lines::NextLine;
use crate::plan::Plan;
use crate::run::MAX_READS;
use std::alloc::{AllocError, Global};
use std::io::Read;

/// Reads a script to its end, and plans its lines, with at most this many names.
pub fn plan_input<R: Read>(
    alloc: Global,
    reader: &mut R,
    max_names: u32,
) -> Result<Plan, ScriptFault>
    ensures ok { IfOk result (PlansAll (no_lines max_names) (flow R.remaining reader.old reader.new)) }
    ensures err { IfErr result IsUnplanned }
{
    let mut buffer = LineBuffer::new(alloc, MAX_READS)?;
    let mut plan = Plan::new(alloc, max_names);
    plan_lines(reader, &mut buffer, &mut plan)?;
    Ok(plan)
}

/// Plans all lines that the reader has. The buffer is empty at first.
fn plan_lines<R: Read>(
    reader: &mut R,
    buffer: &mut LineBuffer,
    plan: &mut Plan,
) -> Result<(), ScriptFault>
    requires { (buffer.old.bytes ≡ []) × (buffer.old.is_skipping ≡ false) }
    ensures ok { IfOk result (λ _. PlansAll plan.old
        (flow R.remaining reader.old reader.new) plan.new) }
    ensures err { IfErr result IsUnplanned }
{
    loop {
        let Some(taken) = plan_next(buffer, plan)? else {
            buffer.skip_long();
            if buffer.refill(reader)? == 0 {
                plan_last(buffer, plan)?;
                return Ok(());
            }
            continue;
        };
        buffer.consume(taken);
        plan.count_line();
    }
}

/// Plans the next line, if its LF is buffered, and returns the number of the line's bytes. Returns `None` if more bytes
/// must be read first.
fn plan_next(buffer: &LineBuffer, plan: &mut Plan) -> Result<Option<usize>, AllocError>
    ensures { IfOk result (PlansNext buffer.now plan.old plan.new) }
{
    match buffer.next_line() {
        NextLine::Text { text, taken } => {
            plan.add_line(&buffer.bytes()[..text])?;
            Ok(Some(taken))
        }
        NextLine::TooLong { taken } => {
            plan.add_too_long()?;
            Ok(Some(taken))
        }
        NextLine::NeedsMore => Ok(None),
    }
}

/// Plans the rest of the buffer as the last line, which has no LF. An empty rest is not a line.
fn plan_last(buffer: &LineBuffer, plan: &mut Plan) -> Result<(), AllocError>
    ensures { IfOk result (λ _. plan.new
        ≡ with_line (last_line buffer.now.is_skipping buffer.now.bytes) plan.old) }
{
    if buffer.is_skipping() || !buffer.bytes().is_empty() {
        plan.count_line();
    }
    if buffer.is_skipping() {
        return plan.add_too_long();
    }
    plan.add_line(buffer.bytes())
}
