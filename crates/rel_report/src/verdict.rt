//! What a bundle and a proof file come to.

use rel_lang::fault::{LexKind, TypeKind};
use rel_list::List;

/// A verdict. A place is the number of a byte, and items, obligations, derivations and steps count from 0.
#[derive(Drop)]
pub enum Verdict {
    /// The bundle has too many bytes.
    TooLargeBundle,
    /// The bundle's bytes aren't UTF-8: here the first bad sequence begins.
    NotUtf8(u32),
    /// Here stands no token: no token begins so, or a number is too large.
    Lexical(LexKind, u32),
    /// No bundle goes on with this token. Past the last token it is the length of the text.
    Syntax(u32),
    /// This token begins a part that is nested too deep.
    TooDeep(u32),
    /// This token begins one element too many.
    TooMany(u32),
    /// The first fault of the bundle's types.
    Typing(TypeKind, u32),
    /// The bundle isn't one that can be judged so far.
    NotBuilt,
    /// The proof file has too many bytes.
    TooLargeProof,
    NotJson,
    /// The proof file's outer object has another form.
    MalformedFile,
    /// This derivation is no array.
    MalformedProof(u32),
    /// Of this derivation this step has another form.
    MalformedStep(u32, u32),
    /// This derivation has too many steps.
    TooLong(u32),
    /// The proof file has so many derivations, for so many obligations.
    ProofCount(u64, u64),
    /// This obligation is the first whose derivation is refused, and this step isn't good. The obligation stands in this item,
    /// at this byte.
    BadStep(u32, u32, u32, u32),
    /// So many nodes are open after the derivation's last step. This obligation is the first whose derivation is refused, and
    /// stands in this item, at this byte.
    OpenNodes(u64, u32, u32, u32),
    /// Every derivation is accepted. Each item has so many obligations.
    Yes(List<u32>),
}
