//! The law of packets: their replies are those of a run. It is the contract of a function that does nothing.
ghost use Rattle.ets_packets.specs.Runs.{PacketsAreRuns};

/// The replies to packets are those of a run of the specification. Each request has a reply: that of the step that it
/// asks for, or a reply without a step, which says that memory ran out, or that its bytes are no request or no call.
/// The steps, with their replies, are the run, from the node's state before the packets to the one after them.
pub fn packets_are_runs()
    ensures { PacketsAreRuns }
{}
