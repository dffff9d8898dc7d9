//! The law of handles: the calls on one make a run. It is the contract of a function that does nothing.
ghost use Rattle.ets_c.specs.Runs.{StoreCallsAreRuns};

/// The functions that are called on an open handle, one after another, make a run of the specification. Each makes the
/// step that it is asked for, and returns its reply, or it makes none, and says why. The steps, with their replies, are
/// the run, from the state of the node before the calls to the one after them. The functions are those that spawn or
/// end a process, and those that make a call by a text or by a term.
pub fn store_calls_are_runs()
    ensures { StoreCallsAreRuns }
{}
