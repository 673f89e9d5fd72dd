//! The law of verdicts, on the contract of a function that does nothing.

ghost use Rattle.rel_judge.specs.Laws.{VerdictsAreUnique};

/// A text and a proof file have one verdict at most.
#[tactic(auto, using(crate::proofs::Causes::unique_verdicts))]
pub fn a_text_and_a_proof_file_have_one_verdict()
    ensures { VerdictsAreUnique }
{}
