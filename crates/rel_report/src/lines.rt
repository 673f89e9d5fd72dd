//! The lines of a verdict.

ghost use Rattle.std.specs.Prelude.{◌≡◌, ◌<◌, ◌^◌, length, map, IfOk};
ghost use Rattle.rel_lang.specs.View.{bundle_of};
ghost use Rattle.rel_report.specs.Lines.{lines, IsAbout};

use crate::accepted::accepted;
use crate::refusals::{
    bad_step, lexical_words, malformed_proof, malformed_step, open_nodes, proof_count, refused,
    refused_at, too_long, typing_words,
};
use crate::verdict::Verdict;
use rel_lang::bundle::Bundle;
use rel_list::{List, Memory};
use std::alloc::Global;

/// The lines of a verdict on the bundle, each with its line feed. A verdict that names no item has the same lines whatever
/// the bundle is.
pub fn report(alloc: Global, verdict: &Verdict, bundle: &Bundle) -> Result<List<List<u8>>, Memory>
    requires about { IsAbout verdict.now (bundle_of bundle.now).items }
    requires few { length bundle.now.items < 2 ^ 31 }
    ensures { IfOk result (λ ls. ls ≡ lines verdict.now (bundle_of bundle.now).items) }
{
    match verdict {
        Verdict::TooLargeBundle => refused(alloc, "TooLarge bundle"),
        Verdict::NotUtf8(at) => refused_at(alloc, "NotUtf8", *at),
        Verdict::Lexical(kind, at) => refused_at(alloc, lexical_words(*kind), *at),
        Verdict::Syntax(at) => refused_at(alloc, "Syntax", *at),
        Verdict::TooDeep(at) => refused_at(alloc, "TooDeep", *at),
        Verdict::TooMany(at) => refused_at(alloc, "TooMany", *at),
        Verdict::Typing(kind, at) => refused_at(alloc, typing_words(*kind), *at),
        Verdict::NotBuilt => refused(alloc, "NotBuilt bundle"),
        Verdict::TooLargeProof => refused(alloc, "TooLarge proof"),
        Verdict::NotJson => refused(alloc, "NotJson"),
        Verdict::MalformedFile => refused(alloc, "Malformed file"),
        Verdict::MalformedProof(proof) => malformed_proof(alloc, *proof),
        Verdict::MalformedStep(proof, step) => malformed_step(alloc, *proof, *step),
        Verdict::TooLong(proof) => too_long(alloc, *proof),
        Verdict::ProofCount(proofs, obligations) => proof_count(alloc, *proofs, *obligations),
        Verdict::BadStep(obligation, step, item, at) => {
            bad_step(alloc, *obligation, *step, &bundle.items, *item, *at)
        }
        Verdict::OpenNodes(nodes, obligation, item, at) => {
            open_nodes(alloc, *nodes, *obligation, &bundle.items, *item, *at)
        }
        Verdict::Yes(counts) => accepted(alloc, &bundle.items, counts),
    }
}
