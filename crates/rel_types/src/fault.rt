//! Why a bundle isn't typed.

use rel_lang::fault::TypeKind;
use thiserror::Error;

/// The kind of the first fault, and the byte where the smallest command, step of a weaving, clause, member or item begins that holds it.
/// Or there was no memory.
#[derive(Clone, Copy, Debug, PartialEq, Eq, Drop, Error)]
pub enum TypeFault {
    #[error("the bundle isn't typed")]
    Fault(TypeKind, u32),
    #[error("out of memory")]
    Memory,
}
