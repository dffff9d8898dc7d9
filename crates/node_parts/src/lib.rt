//! A store in parts: the definitions and the laws by which calls on the parts are calls on the whole, and runs of the
//! parts are a run of the whole. It has no code that runs yet.
//!
//! *Guarantee.* Let the objects of each table be in several states, by their keys, and all else in each of them. Then a
//! call that looks at keys of one part alone may be made on that part: its reply is one that the whole allows, and the
//! parts after it are those of the whole after it. The part may refuse by a limit what the whole would do. A step that
//! changes what all parts have may be made in each part: all give one reply, which is that of the whole. A call on all
//! objects of a table may be made on each part: the lists that they reply, one after another, or the sum of their numbers,
//! are what the whole replies. If each part goes by its own events, the steps of all events are a run of the whole.
//!
//! *Weakness.* The laws are about definitions. No product has such parts yet.
//!
//! *Mechanism.* What a call does to the slots of its keys does not depend on the slots before and after them. Each event
//! is one of some parts, and no other part changes by it.
//!
//! *Limits.* The laws say nothing of traversals over several parts, nor of lists whose keys are in several parts.
#![tactic(auto)]

pub mod laws;
