//! Laws of a state in parts. Each is the contract of a function that does nothing.

ghost use Rattle.node_parts.specs.Laws.{CallsOnAllObjectsAreCalls, CallsOnPartsAreCalls, CallsTakeOnePartOn, EmptyStatesAreParts, EventsTakePartsOn, MovedRoomKeepsParts, PartsGoOn, PartsReplyAlike, ReadsOnPartsAreReads, RunsOfEmptyPartsAreRuns, RunsOfPartsAreRuns, StepsOnAllPartsAreSteps};

/// Empty states are the parts of the empty state, if their limits of objects add up to at most its limit.
pub fn empty_states_are_parts()
    ensures { EmptyStatesAreParts }
{}

/// A call on keys of one part, made on that part, is a call on the whole. If the part gives a reply other than
/// `SystemLimit`, the whole may give the same one, and the parts are then those of the whole after it. If the part gives
/// `SystemLimit` and the whole does not, the part is unchanged, and lacks room of the table that other parts have.
pub fn calls_on_parts_are_calls()
    ensures { CallsOnPartsAreCalls }
{}

/// A read of keys of one part, made on that part, is a read of the whole, with the same reply, and changes nothing.
pub fn reads_on_parts_are_reads()
    ensures { ReadsOnPartsAreReads }
{}

/// A call that looks at all objects of a table is made on each part. The replies, put together in the order of the parts,
/// are one that the whole may give: lists one after another, and numbers of objects added. Such calls are reads, and
/// `select_delete`.
pub fn calls_on_all_objects_are_calls()
    ensures { CallsOnAllObjectsAreCalls }
{}

/// A step that each part makes is a step of the whole, with the same reply, and all parts give the same reply. Such steps
/// start and end processes, make and delete tables, fix and release them, pass them on, and delete all objects or those
/// that match a pattern.
pub fn steps_on_all_parts_are_steps()
    ensures steps { StepsOnAllPartsAreSteps }
    ensures replies { PartsReplyAlike }
{}

/// Room of a table can be moved between parts: their limits of its objects may change as long as each part is within its
/// limit, and the limits add up to at most that of the whole. The whole does not change.
pub fn moved_room_keeps_parts()
    ensures { MovedRoomKeepsParts }
{}

/// If each part goes by its own events, then the steps of all events are a run of the whole, with their replies. So if each
/// part is empty at first, they are a run from the empty state. A part's own events are its calls, and those that other
/// parts take part in: this needs to know nothing else of the other parts.
pub fn runs_of_parts_are_runs()
    ensures runs { RunsOfPartsAreRuns }
    ensures empties { RunsOfEmptyPartsAreRuns }
{}

/// Parts that go by events go by the first of them and then by the others. A call on one part takes that part on, and the
/// others stay as they are, so the holder of one part adds an event without knowing the others. Any event takes on the parts
/// whose event it is.
pub fn parts_go_on()
    ensures all { PartsGoOn }
    ensures one { CallsTakeOnePartOn }
    ensures some { EventsTakePartsOn }
{}
