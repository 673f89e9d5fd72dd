//! Laws of facts, frames and small formulas, each on the contract of a function that does nothing.

ghost use Rattle.rel_encode.specs.Laws.{ConjunctionsAreExact, FactsAreTrue, FramesAreExact, GrowthIsExact, LinkableIsExact, PairsInsideAreExact, WellFormedStatesHaveSortedValues};

/// What is said of every well-formed state holds in it.
#[tactic(auto, using(crate::proofs::TrueFacts::true_facts))]
pub fn facts_are_true()
    ensures { FactsAreTrue }
{}

/// A conjunction is true exactly where all its members are.
#[tactic(auto, using(crate::proofs::Small::conj_true))]
pub fn conjunctions_are_exact()
    ensures { ConjunctionsAreExact }
{}

/// Pairs are inside what is allocated exactly where the formula says so.
#[tactic(auto, using(crate::proofs::Small::exact_inside))]
pub fn pairs_inside_are_exact()
    ensures { PairsInsideAreExact }
{}

/// Two references can be linked exactly where the formula says so.
pub fn linkable_is_exact()
    ensures { LinkableIsExact }
{}

/// No object has gone exactly where the formula says so.
#[tactic(auto, using(crate::proofs::Small::exact_growth))]
pub fn growth_is_exact()
    ensures { GrowthIsExact }
{}

/// A valuation can give the values of a well-formed state.
#[tactic(auto, using(crate::proofs::SortedValues::sorted_values))]
pub fn well_formed_states_have_sorted_values()
    ensures { WellFormedStatesHaveSortedValues }
{}

/// Only what is listed has changed exactly where the frame says so.
pub fn frames_are_exact()
    ensures { FramesAreExact }
{}
