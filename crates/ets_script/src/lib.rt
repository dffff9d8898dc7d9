//! Scripts of calls: a script's output is the text of a run's replies.
//!
//! *Guarantee.* From the bytes read to the bytes written: each line is answered as the language of scripts says, by a
//! node that starts empty, and all answers to lines read are written before the next read. A script that stops early
//! has answered all whole lines that it read, or has written a prefix of their answers if a write failed. With
//! `--threads` the whole script is read before anything is written, and a script that stops early has written nothing,
//! or a prefix of its text if a write failed. A law ties the parser of lines to the table of line forms in
//! docs/script.md. Another says that the lines make a run of the specification, and that traversals in it are exact.
//! With `--external` the program answers packets of calls, as `ets_packets` says, in place of lines.
//!
//! *Weakness.* Only tests show that answers are flushed before each read, what `refuse` prints, and that
//! `run_script_with_reasons` reports each refused line. Private contracts say which text it writes for a refused line.
//!
//! *Mechanism.* Bytes are read in pieces. A line is found by `memchr`, parsed once from left to right, executed, and
//! answered into a buffer, which is written before the next read.
//!
//! *Limits.* A line has at most 65,536 bytes; a longer one is reported and passed over. A reader is called at most
//! 1,000,000,000 times.
#![tactic(auto)]

mod answer;
mod classes;
mod command;
mod command_line;
mod explain;
mod fault;
mod journal;
pub mod laws;
mod line_buffer;
mod lines;
mod names;
mod node_settings;
mod observer;
pub mod options;
mod parse_stop;
mod plan;
mod planning;
mod printable;
mod processes;
mod program;
mod run;
mod script;
mod streams;
mod terms;
mod threads;
mod why_writer;

pub use command_line::{parse_options, refuse, settings};
pub use fault::ScriptFault;
pub use node_settings::NodeSettings;
pub use program::{answer_alone, answer_input, answer_with_options};
pub use run::{run_script, run_script_with_reasons, run_within};
pub use streams::Streams;
pub use threads::run_threads;
