//! The options of the command line.

/// The options that `settings` parses.
#[derive(Clone, Copy)]
pub struct Settings {
    /// Whether each process runs in a thread of its own.
    pub threads: bool,
    /// Whether all keys get the same hash: `AllSame` in place of `Fnv`.
    pub same: bool,
    /// The greatest number of objects in one table.
    pub objects: u32,
}

/// All options: `Settings`, the other limits, reasons, and packets.
#[derive(Clone, Copy)]
pub struct Options {
    /// The options that `settings` parses too.
    pub settings: Settings,
    /// The greatest number of processes ever enrolled.
    pub processes: u32,
    /// The greatest number of tables ever created.
    pub tables: u32,
    /// Whether reasons of refused lines are reported.
    pub why: bool,
    /// Whether packets of calls in Erlang's External Term Format are answered, in place of lines.
    pub external: bool,
    /// The greatest number of bytes in the body of a packet.
    pub max_packet: u32,
    /// The seed of `Keyed`, which hashes keys in place of `Fnv`. Without a seed it is 0.
    pub seed: u64,
}
