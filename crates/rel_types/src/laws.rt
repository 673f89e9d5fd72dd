//! Laws of the definitions of this crate.

ghost use Rattle.rel_types.specs.Laws.{TypedHaveNoFault};

/// A bundle is typed exactly where it has no fault.
pub fn a_bundle_is_typed_where_it_has_no_fault()
    ensures { TypedHaveNoFault }
{}
