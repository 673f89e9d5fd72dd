//! Laws of the definitions, each on the contract of a function that does nothing.

ghost use Rattle.rel_show.specs.Laws.{PrintedTextsStand};

/// What is printed for a printable bundle stands for a bundle that differs from it at most in places.
pub fn a_printed_text_stands_for_its_bundle()
    ensures { PrintedTextsStand }
{}
