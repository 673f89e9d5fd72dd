//! Why tokens aren't read.

ghost use Rattle.std.specs.Prelude.{◌≡◌};
ghost use Rattle.rel_parse.specs.declared.fault.Fault.TheVariants as faults;

use rel_list::Memory;

/// Why the first of some tokens aren't a tree. The number says how many tokens are left from the refused one on.
#[derive(Clone, Copy, Debug, PartialEq, Eq, Drop)]
pub enum Fault {
    /// No tree goes on with this token.
    Unexpected(usize),
    /// With this token a tree begins that is too deep.
    TooDeep(usize),
    /// With this token an element begins that is one too many.
    TooMany(usize),
    Memory,
}

impl From<Memory> for Fault {
    ghost from_gives = { λ _ e. e ≡ faults.Memory };

    fn from(_: Memory) -> Fault {
        Fault::Memory
    }
}
