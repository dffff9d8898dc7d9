//! The input of a script, and the output for its answers.

/// The input of a script, and the output for its answers.
#[derive(Drop)]
pub struct Streams<R, W> {
    pub input: R,
    pub output: W,
}
