//! Laws of the definitions, each on the contract of a function that does nothing.

ghost use Rattle.rel_decls.specs.Laws.{FaultyTextsStandForNone, TextsHaveOneFault, TextsStandForOneBundle};

/// No text stands for two bundles.
pub fn a_text_stands_for_one_bundle()
    ensures { TextsStandForOneBundle }
{}

/// No text has two faults.
#[tactic(auto, using(crate::proofs::OneFault::one_fault))]
pub fn a_text_has_one_fault()
    ensures { TextsHaveOneFault }
{}

/// A text with a fault stands for no bundle within the limits.
pub fn a_faulty_text_stands_for_none()
    ensures { FaultyTextsStandForNone }
{}
