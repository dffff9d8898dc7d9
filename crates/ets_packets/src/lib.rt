//! Answers calls of a store in packets, as Erlang's ports send them with `{packet, 4}`: bytes in, bytes out.
//!
//! *Guarantee.* From the bytes read to the bytes written: each packet is answered as specs/Replies.antt says, by a
//! store that starts empty, and the replies are in the order of the requests. All replies to packets that were read are
//! written before the next read. A run that stops early has answered all whole packets before, or has written a prefix
//! of their replies if a write failed. A packet that is too long is refused. An input that ends inside a packet is a
//! fault. A law says that the packets make a run of the specification.
//!
//! *Weakness.* Only tests show that replies are flushed before each read. No contract says when memory is available.
//!
//! *Mechanism.* Bytes are read in pieces of at most 65,536 and buffered. Each whole packet is answered into a buffer,
//! which is written before the next read, and when it has 65,536 bytes. This buffer with its writer is `Output`, which
//! also takes the answers of scripts.
//!
//! *Limits.* The settings say how many bytes the body of a packet may have, usually 16,777,216. The bytes of a longer
//! one are skipped as they are read. A reader is called at most 2^64 - 1 times. A reply whose body would have 2^32 bytes
//! or more has status 7, without its term.
#![tactic(auto)]

mod buffer;
mod fault;
mod front;
pub mod laws;
mod number;
mod output;
mod reply;
mod request;
mod run;
mod settings;

pub use fault::PacketFault;
pub use output::{Output, WriteFault, output_buffer};
pub use run::run_packets;
pub use settings::{MAX_PACKET, PacketSettings};
