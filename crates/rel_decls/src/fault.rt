//! Why a text stands for no bundle.

use rel_lang::fault::LexKind;
use thiserror::Error;

/// Why a text was not read, and the byte where.
#[derive(Clone, Copy, Debug, PartialEq, Eq, Drop, Error)]
pub enum TextFault {
    /// The byte behind the longest front that is UTF-8.
    #[error("the text isn't UTF-8")]
    NotUtf8(u32),
    #[error("the text has a part that is no token")]
    Lexical(LexKind, u32),
    /// The first token with which no bundle goes on, or the length of the text where its end is refused.
    #[error("the text doesn't follow the grammar")]
    Syntax(u32),
    /// The first token of a tree that is too deep.
    #[error("the text has a tree that is too deep")]
    TooDeep(u32),
    /// The first token of an element that is one too many.
    #[error("the text has too many elements in one place")]
    TooMany(u32),
    #[error("out of memory")]
    Memory,
}
