//! Why no proof was read.

use rel_list::Memory;
use thiserror::Error;

/// A place in a proof file. Derivations and their steps count from 0.
#[derive(Clone, Copy, Debug, PartialEq, Eq)]
pub enum Spot {
    /// The outer object.
    File,
    Proof(u32),
    /// A derivation, and its step.
    Step(u32, u32),
}

/// Why no proof was read.
#[derive(Clone, Copy, Debug, PartialEq, Eq, Drop, Error)]
pub enum ProofFault {
    #[error("the proof file isn't JSON")]
    NotJson,
    /// The first place that has another form.
    #[error("the proof file has a part of a wrong form")]
    Malformed(Spot),
    /// The first derivation that has too many steps.
    #[error("a derivation of the proof file has too many steps")]
    TooLong(u32),
    #[error("out of memory")]
    Memory,
}

impl From<Memory> for ProofFault {
    ghost use Rattle.std.specs.Prelude.{◌≡◌};
    ghost use Rattle.rel_proofio.specs.declared.fault.ProofFault.TheVariants.{Memory as NoMemory};

    ghost from_gives = { λ _ e. e ≡ NoMemory };

    fn from(_: Memory) -> ProofFault {
        ProofFault::Memory
    }
}

/// Why a part of a step was not read.
#[derive(Clone, Copy, Debug, PartialEq, Eq, Drop)]
pub enum Unread {
    /// It has another form.
    Malformed,
    Memory,
}

impl From<Memory> for Unread {
    ghost use Rattle.std.specs.Prelude.{◌≡◌};
    ghost use Rattle.rel_proofio.specs.declared.fault.Unread.TheVariants.{Memory as NoMemory};

    ghost from_gives = { λ _ e. e ≡ NoMemory };

    fn from(_: Memory) -> Unread {
        Unread::Memory
    }
}
