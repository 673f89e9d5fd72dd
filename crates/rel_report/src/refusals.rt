//! The line of a refusal.

ghost use Rattle.std.specs.Prelude.{◌≡◌, ◌<◌, ◌++◌, ◌∷◌, [], codes, length, map, string_bytes, IfOk};
ghost use Rattle.std.specs.Fmt.{decimal};
ghost use Rattle.rel_lang.specs.View.{item_of};
ghost use Rattle.rel_report.specs.Lines as definition;

use crate::items::words_at;
use crate::text::bytes_of;
use rel_lang::bundle::Item;
use rel_lang::fault::{LexKind, TypeKind};
use rel_list::{List, Memory};
use std::alloc::Global;

/// The text as the only line.
fn only(alloc: Global, text: String) -> Result<List<List<u8>>, Memory>
    ensures { IfOk result (λ ls. ls ≡ string_bytes text ∷ []) }
{
    let mut lines = List::new(alloc);
    lines.push(bytes_of(text))?;
    Ok(lines)
}

pub(crate) fn refused(alloc: Global, why: &str) -> Result<List<List<u8>>, Memory>
    ensures { IfOk result (λ ls. ls ≡ definition.refused why.now ∷ []) }
{
    let text = format!(in alloc; "refused {why}\n")?;
    only(alloc, text)
}

/// Refused at this byte.
pub(crate) fn refused_at(alloc: Global, why: &str, at: u32) -> Result<List<List<u8>>, Memory>
    ensures { IfOk result (λ ls. ls ≡ definition.refused_at why.now at ∷ []) }
{
    let text = format!(in alloc; "refused {why} at {at}\n")?;
    only(alloc, text)
}

pub(crate) fn lexical_words(kind: LexKind) -> &'static str
    ensures { result.now ≡ definition.lexical_words kind }
{
    match kind {
        LexKind::BadChar => "Lexical BadChar",
        LexKind::WideLiteral => "Lexical WideLiteral",
    }
}

pub(crate) fn typing_words(kind: TypeKind) -> &'static str
    ensures { result.now ≡ definition.typing_words kind }
{
    match kind {
        TypeKind::Twice => "Typing Twice",
        TypeKind::Unknown => "Typing Unknown",
        TypeKind::Missing => "Typing Missing",
        TypeKind::NoMain => "Typing NoMain",
        TypeKind::NotVisible => "Typing NotVisible",
        TypeKind::WrongArity => "Typing WrongArity",
        TypeKind::Target => "Typing Target",
        TypeKind::OldHere => "Typing OldHere",
        TypeKind::NotCode => "Typing NotCode",
        TypeKind::WrongType => "Typing WrongType",
    }
}

pub(crate) fn malformed_proof(alloc: Global, proof: u32) -> Result<List<List<u8>>, Memory>
    ensures { IfOk result (λ ls. ls ≡ definition.refused (codes "Malformed proof " ++ decimal proof) ∷ []) }
{
    let why = format!(in alloc; "Malformed proof {proof}")?;
    refused(alloc, why.as_str())
}

pub(crate) fn malformed_step(alloc: Global, proof: u32, step: u32) -> Result<List<List<u8>>, Memory>
    ensures { IfOk result (λ ls. ls ≡ definition.refused (codes "Malformed proof " ++ (decimal proof ++ (codes " step " ++ decimal step))) ∷ []) }
{
    let why = format!(in alloc; "Malformed proof {proof} step {step}")?;
    refused(alloc, why.as_str())
}

pub(crate) fn too_long(alloc: Global, proof: u32) -> Result<List<List<u8>>, Memory>
    ensures { IfOk result (λ ls. ls ≡ definition.refused (codes "TooLong proof " ++ decimal proof) ∷ []) }
{
    let why = format!(in alloc; "TooLong proof {proof}")?;
    refused(alloc, why.as_str())
}

pub(crate) fn proof_count(
    alloc: Global,
    proofs: u64,
    obligations: u64,
) -> Result<List<List<u8>>, Memory>
    ensures { IfOk result (λ ls. ls ≡ definition.refused (codes "ProofCount " ++ (decimal proofs ++ (codes " of " ++ decimal obligations))) ∷ []) }
{
    let why = format!(in alloc; "ProofCount {proofs} of {obligations}")?;
    refused(alloc, why.as_str())
}

/// This step isn't good, of the derivation for an obligation that stands in the item, at this byte.
pub(crate) fn bad_step(
    alloc: Global,
    obligation: u32,
    step: u32,
    items: &List<Item>,
    item: u32,
    at: u32,
) -> Result<List<List<u8>>, Memory>
    requires { item < length items.now }
    ensures { IfOk result (λ ls. ls ≡ definition.refused_at
        (codes "BadStep obligation " ++ (decimal obligation ++ (codes " step " ++ (decimal step ++ (codes " in " ++ definition.words_at (map item_of items.now) item))))) at ∷ []) }
{
    let words = words_at(alloc, items, item)?;
    let words = words.as_str();
    let why = format!(in alloc; "BadStep obligation {obligation} step {step} in {words}")?;
    refused_at(alloc, why.as_str(), at)
}

/// So many nodes are open after the derivation for an obligation that stands in the item, at this byte.
pub(crate) fn open_nodes(
    alloc: Global,
    nodes: u64,
    obligation: u32,
    items: &List<Item>,
    item: u32,
    at: u32,
) -> Result<List<List<u8>>, Memory>
    requires { item < length items.now }
    ensures { IfOk result (λ ls. ls ≡ definition.refused_at
        (codes "OpenNodes " ++ (decimal nodes ++ (codes " obligation " ++ (decimal obligation ++ (codes " in " ++ definition.words_at (map item_of items.now) item))))) at ∷ []) }
{
    let words = words_at(alloc, items, item)?;
    let words = words.as_str();
    let why = format!(in alloc; "OpenNodes {nodes} obligation {obligation} in {words}")?;
    refused_at(alloc, why.as_str(), at)
}
