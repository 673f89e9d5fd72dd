//! Lists of copies.

ghost use Rattle.std.specs.Prelude.{◌≡◌, [], ◌∷◌, ◌++◌, Ok, OnOk, OnErr};

use rel_list::{List, Memory};

/// Adds a copy at the end, unless there was no memory for it. A function over any type, so that the check of those that
/// copy large trees meets no tree by value.
pub(crate) fn push_copy<T: Drop>(
    copies: &mut List<T>,
    copy: Result<T, Memory>,
) -> Result<(), Memory>
    ensures ok { OnOk result ((c : T) × (copy ≡ Ok c) × (copies.new ≡ copies.old ++ c ∷ [])) }
    ensures err { OnErr result (copies.new ≡ copies.old) }
{
    copies.push(copy?)
}
