//! Laws of the encoding, each on the contract of a function that does nothing.

ghost use Rattle.rel_encode.specs.Laws.{FormulasAreExact, RelationsAreExact, TermsAreExact};

/// A term has its expression's value.
#[tactic(auto, using(crate::proofs::ExactTerms::exact_term))]
pub fn terms_are_exact()
    ensures { TermsAreExact }
{}

/// A formula is true exactly where the program's formula is.
#[tactic(auto, using(crate::proofs::ExactFormulas::exact_formula))]
pub fn formulas_are_exact()
    ensures { FormulasAreExact }
{}

/// A relation formula's formula is true exactly where the relation holds.
#[tactic(auto, using(crate::proofs::ExactRelations::exact_relation))]
pub fn relations_are_exact()
    ensures { RelationsAreExact }
{}
