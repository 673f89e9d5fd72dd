//! Laws of the definitions, each on the contract of a function that does nothing.

ghost use Rattle.rel_lang.specs.Laws.{GreaterBoundsKeepOutcomes, LinkedProgramsAreTyped, ModuleProgramsAreTyped, NoObjectGoes, RelationalTruthIsStable, TypedRunsEndWellFormed, TypedValuesFit, UnitProgramsAreTyped, WatchesOnlyAddFaults};

/// A run that needs no more than its bound ends in the same way at every greater bound.
#[tactic(auto, using(crate::proofs::Bounds::greater_bounds))]
pub fn greater_bounds_keep_outcomes()
    ensures { GreaterBoundsKeepOutcomes }
{}

/// A run that is no fault under a watch ends in the same way without it.
#[tactic(auto, using(crate::proofs::Watches::watches))]
pub fn watches_only_add_faults()
    ensures { WatchesOnlyAddFaults }
{}

/// No run frees an object.
#[tactic(auto, using(crate::proofs::Growth::no_object_goes))]
pub fn no_object_goes()
    ensures { NoObjectGoes }
{}

/// A relation formula that can't be false is true.
pub fn relational_truth_is_stable()
    ensures { RelationalTruthIsStable }
{}

/// The value of a typed expression fits its type.
#[tactic(auto, using(crate::proofs::Values::values_fit))]
pub fn typed_values_fit()
    ensures { TypedValuesFit }
{}

/// A typed body ends in a well-formed state where it began in one.
pub fn typed_runs_end_well_formed()
    ensures { TypedRunsEndWellFormed }
{}

/// A typed unit's bodies are typed in its program.
pub fn unit_programs_are_typed()
    ensures { UnitProgramsAreTyped }
{}

/// A typed module's bodies are typed in a program that calls nothing.
pub fn module_programs_are_typed()
    ensures { ModuleProgramsAreTyped }
{}

/// The bodies of a typed client and a typed module are typed in the program of the two.
pub fn linked_programs_are_typed()
    ensures { LinkedProgramsAreTyped }
{}
