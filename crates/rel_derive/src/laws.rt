//! The law of accepted steps, on the contract of a function that does nothing.

ghost use Rattle.rel_derive.specs.Laws.{AcceptedSequentsAreValid};

/// A sequent for which steps are accepted is valid.
#[tactic(auto, using(crate::proofs::Sound::accepted_sequents))]
pub fn an_accepted_sequent_is_valid()
    ensures { AcceptedSequentsAreValid }
{}
