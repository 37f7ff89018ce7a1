//! What outputs of scripts keep among themselves. These calls do nothing: each is there for what it promises.

ghost use Rattle.tl_run.specs.Output.{OneOutput, RunsKeepEdits};

/// Commands have one output, and come to one end.
#[tactic(auto, using(crate::proofs::OutputLaws::one_output))]
pub fn one_output()
    ensures { OneOutput }
{}

/// The edits that a run comes to are those that are accepted, whatever is published between them.
#[tactic(auto, using(crate::proofs::OutputLaws::runs_keep_edits))]
pub fn runs_keep_edits()
    ensures { RunsKeepEdits }
{}
