//! The laws of scripts: their lines have the commands of their forms, and their output is the text of a run. Each is
//! the contract of a function that does nothing.
ghost use Rattle.std.specs.Prelude.{◌≡◌, true, ℕ, List, [], Option, ⊤, codes};
ghost use Rattle.std.specs.Io.KnownBytes.{IsAtEnd};
ghost use Rattle.ets_term.specs.declared.term.Term.{Term};
ghost use Rattle.ets_script.specs.Commands.{is_silent, spawn, exit, ask, grow, ready};
ghost use Rattle.ets_script.specs.LineForms.{IsSilentLine, Means, IsPrintable, IsNameLine, IsCallLine, IsGrowLine, IsReadyLine};
ghost use Rattle.ets_script.specs.Runs.{LinesAreRuns, ScriptWalksAreWhole};

/// A line in a form of the table in docs/script.md has the command of that form. A line of blanks, or with a comment
/// only, is silent. Terms are spelled as the grammar of terms says.
pub fn lines_of_forms_have_their_commands()
    ensures silent { (line : List ℕ) → IsSilentLine line → is_silent line ≡ true }
    ensures spawn { (line name : List ℕ) → IsPrintable line → IsNameLine (codes "spawn") name line
        → Means line (spawn name) }
    ensures exit { (line name : List ℕ) → IsPrintable line → IsNameLine (codes "exit") name line
        → Means line (exit name) }
    ensures grow { (line : List ℕ) (t : Term) → IsPrintable line → IsGrowLine t line → Means line (grow t) }
    ensures ready { (line : List ℕ) (t : Term) (b : ℕ) → IsPrintable line → IsReadyLine t b line
        → Means line (ready t b) }
    ensures ask { (line name word : List ℕ) (terms : List Term) → IsPrintable line
        → IsCallLine name word terms line → Means line (ask name word terms) }
{}

/// The output of a script is the text of a run of the specification. Each line makes the step that its command asks for,
/// and prints the reply, or it makes none, and prints no value. The steps, with their replies, are the run, from the
/// state of the node before the lines to the one after them. This holds of a whole script, of lines that all have their
/// LF, and of the lines that `Stops` says were answered before a write fault. So the laws of runs hold of each stretch of
/// a script: each finished traversal of a table that stays fixed is exact.
pub fn scripts_are_runs()
    ensures script { LinesAreRuns ⊤ }
    ensures lines { LinesAreRuns ⊥ }
    ensures stopped { (unread : List ℕ) (left : Option (List ℕ)) → LinesAreRuns ((unread ≡ []) × IsAtEnd left) }
    ensures traversals { ScriptWalksAreWhole }
{}
