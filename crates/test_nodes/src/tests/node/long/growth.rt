//! A test of a table that grows while thousands of objects are inserted, found and deleted. A row is the templates of a
//! call and of its wanted reply.
// At most one pending step runs after each number. In a template a number replaces each N.
use super::*;

/// Runs the first pending step, if any, and returns whether there was one.
fn run_pending_step(node: &mut Node<Fnv>) -> Result<bool, AllocError> {
    match node.due() {
        Some(step) => {
            let reply = node.step(&step);
            drop(step);
            drop(reply?);
            Ok(true)
        }
        None => Ok(false),
    }
}

/// Runs at most `max_steps` pending steps, and returns how many it ran.
fn run_pending_steps(node: &mut Node<Fnv>, max_steps: u32) -> Result<u32, AllocError> {
    for steps_run in 0..max_steps {
        if !run_pending_step(node)? {
            return Ok(steps_run);
        }
    }
    Ok(max_steps)
}

/// Returns whether no step is pending.
fn has_no_pending(node: &Node<Fnv>) -> bool {
    let due = node.due();
    let has_none = due.is_none();
    drop(due);
    has_none
}

/// Inserts an object for each number, and runs a pending step, if any, after each. Returns the first number whose
/// object is not inserted, or `None` if all are inserted.
fn first_not_inserted(alloc: Global, node: &mut Node<Fnv>) -> Result<Option<u32>, AllocError> {
    for number in 0..COUNT {
        if !filled_call_has_reply(alloc, node, "insert(t,{N,x})", "true", number)? {
            return Ok(Some(number));
        }
        let _steps_run = run_pending_steps(node, 1)?;
    }
    Ok(None)
}

/// Templates of calls and of their replies. All calls are made for a number; then a pending step, if any, runs, and the
/// next number follows. The table is a duplicate bag, and has the object `{N,x}` of each number at the start.
static GROWN: [(&str, &str); 5] = [
    ("lookup(t,N)", "[{N,x}]"),
    ("insert(t,{N,y})", "true"),
    ("lookup(t,N)", "[{N,x},{N,y}]"),
    ("delete_object(t,{N,x})", "true"),
    ("take(t,N)", "[{N,y}]"),
];

/// Fills a number into the rows, makes the calls, and returns whether all have their replies.
fn calls_have_replies(
    alloc: Global,
    node: &mut Node<Fnv>,
    rows: &[(&str, &str)],
    number: u32,
) -> Result<bool, AllocError> {
    for (call, wanted) in rows {
        if !filled_call_has_reply(alloc, node, *call, *wanted, number)? {
            return Ok(false);
        }
    }
    Ok(true)
}

/// Makes the calls of the rows for each number, and runs a pending step, if any, after each number. Returns the first
/// number for which a call has another reply, or `None` if all calls have their replies.
fn first_wrong_number_while_growing(
    alloc: Global,
    node: &mut Node<Fnv>,
    rows: &[(&str, &str)],
) -> Result<Option<u32>, AllocError> {
    for number in 0..COUNT {
        if !calls_have_replies(alloc, node, rows, number)? {
            return Ok(Some(number));
        }
        let _steps_run = run_pending_steps(node, 1)?;
    }
    Ok(None)
}

/// Returns whether calls have their replies while a table grows and is emptied. In the end fewer than `COUNT` steps may
/// be pending. The table must have 2100 objects, which is `COUNT`, after the insertions.
pub fn replies_as_it_grows(alloc: Global, node: &mut Node<Fnv>) -> Result<bool, AllocError> {
    Ok(
        starts_with_table(alloc, node)?
            && first_not_inserted(alloc, node)?.is_none()
            && call_has_reply(alloc, node, "info(t,size)", "2100")?
            && first_wrong_number_while_growing(alloc, node, &GROWN)?.is_none()
            && call_has_reply(alloc, node, "tab2list(t)", "[]")?
            && run_pending_steps(node, COUNT)? < COUNT
            && has_no_pending(node),
    )
}

#[test]
fn a_table_of_many_objects_grows(rt: HostRuntime) {
    assert!(rt; new_node_passes(rt.alloc(), Check::Growth) == Ok(true));
}
