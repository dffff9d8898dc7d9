//! Laws of the machine's runs. Each is the contract of a function that does nothing.

ghost use Rattle.node_core.specs.laws.Agreement.{NodesAgree, RunsAgree, StepsAreUnique};
ghost use Rattle.node_core.specs.laws.Erasing.{GrowthErases, RunsCut};
ghost use Rattle.node_core.specs.laws.Growth.{GrowthSuffices, PendingStepsLowerLag, SearchesAreShort, StepsAddLag};
ghost use Rattle.node_core.specs.laws.Kept.{StepsKeepKeys};
ghost use Rattle.node_core.specs.laws.Outcomes.{RefusalsChangeNothing, RefusalsKeepBuckets, StepsHaveOutcomes};
ghost use Rattle.node_core.specs.laws.Reached.{RunsStaySound, ReachedAreSound};
ghost use Rattle.node_core.specs.laws.Runs.{RunsAreObservable, TranscriptsAreRuns};
ghost use Rattle.node_core.specs.laws.Walk.{TableWalksAreWhole, SoundStatesHaveSoundKeys};

/// In each state that a run reaches from the empty one, no two slots of a table have the same key, none has the key
/// `'$end_of_table'`, and no two named tables have the same name. A run from any such state ends in one.
pub fn runs_stay_sound()
    ensures reached { ReachedAreSound }
    ensures runs { RunsStaySound }
{}

/// A run of a node is a run of the machine: the same steps with the same replies, over the observable states. So the
/// laws of the machine's runs hold of each journal, transcript and history.
pub fn runs_are_observable()
    ensures any { RunsAreObservable }
    ensures empty { TranscriptsAreRuns }
{}

/// If a table is fixed before and after a step, by any process and any step, the keys of its slots before are among
/// those after, in the same order.
pub fn steps_keep_keys()
    ensures { StepsKeepKeys }
{}

/// In each run, each traversal by `first` and `next` of a table that stays fixed, by any process, gives no key twice,
/// and gives each key that has objects in every state of the traversal. It does so whatever processes do between its
/// calls, and however the table grows. The premise `HasSoundKeys` is about that table alone, and holds in each state
/// that a run reaches.
pub fn walks_are_whole()
    ensures whole { TableWalksAreWhole }
    ensures sound { SoundStatesHaveSoundKeys }
{}

/// A run without its growth steps is a run with the other replies. So growth is nothing that a reply can show.
pub fn growth_erases()
    ensures { GrowthErases }
{}

/// Growth suffices: once no step of growth is pending, each table has at most four slots a bucket, or the greatest number
/// of buckets, and each of its buckets is ready.
pub fn growth_suffices()
    ensures { GrowthSuffices }
{}

/// Growth keeps up with insertions. A step that adds at most `m` slots to a table adds at most `m` to the lag of its
/// growth, and each pending step of the table lowers it by one. So let one pending step of its table follow each call
/// that adds at most one slot. Then the lag is 0 after that step: the table has at most four slots a bucket, or the
/// greatest number of buckets. In a node without tables nothing lags.
pub fn growth_keeps_up()
    ensures steps { StepsAddLag }
    ensures pending { PendingStepsLowerLag }
{}

/// Searches are short: once no step of growth is pending, searches of a table, one in each bucket, visit at most six nodes
/// a bucket in the mean, unless the table has the greatest number of buckets. More exactly, they visit in total at most
/// as many nodes as the table has slots, and two a bucket.
pub fn searches_are_short()
    ensures { SearchesAreShort }
{}

/// A run can be cut at any point: its first steps are a run, and so are the others, from the state between. So each law
/// of runs holds of each stretch of a run.
pub fn runs_cut()
    ensures { RunsCut }
{}

/// A refusal changes nothing: a step whose reply is a refusal leaves the state as it was. No step is an exception. In a
/// node, the buckets of tables stay as they were, too.
pub fn refusals_change_nothing()
    ensures machine { RefusalsChangeNothing }
    ensures node { RefusalsKeepBuckets }
{}

/// Every step has an outcome: in each state that a run reaches from the empty one, each step has a reply and a state
/// after it.
pub fn steps_have_outcomes()
    ensures { StepsHaveOutcomes }
{}

/// Replies are unique: in a sound state, as each state that a run reaches is, a step has only one reply. It has only one
/// state after it, but for the order of slots in a table's list.
pub fn replies_are_unique()
    ensures { StepsAreUnique }
{}

/// Two runs with the same steps but for growth, from one sound state, have replies that agree up to the order of keys.
/// They end in states that differ in the order of slots alone. A reply differs at most if it lists all objects or
/// results, or is the key of a traversal. `first` gives the end of a table in both runs or in neither. So two new nodes
/// give the same replies to the same calls up to that order, whatever their hash functions are, and however their tables
/// grow.
pub fn runs_agree()
    ensures runs { RunsAgree }
    ensures nodes { NodesAgree }
{}
