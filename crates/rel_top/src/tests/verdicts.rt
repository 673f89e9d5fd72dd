//! The verdicts on an example with one proof file and another.

use rel_judge::verdict::{BUNDLE_LIMIT, PROOF_LIMIT, Ready, Stop, judge, prepare};
use rel_list::Memory;
use rel_report::Verdict;
use std::alloc::Global;
use std::test::Fail;

const BUNDLE: &str =
    "unit U { global x : int ; proc p ( ) : int requires true ensures true writes { x } \
    { x := ( x + 1 ) ; x := ( x + 1 ) ; } }\n\
    unit V { global x : int ; proc q ( ) : int requires true ensures true writes { x } \
    { x := ( x + 2 ) ; } }\n\
    judge J : U . p ~ V . q requires ( x =:= x ) ensures ( x =:= x ) \
    bi { split { x := ( x + 1 ) ; x := ( x + 1 ) ; } { x := ( x + 2 ) ; } ; }\n";

const PROOF: &str = "{\"whyrel\":1,\"proofs\":[[[\"neint\",5],\
    [\"farkas\",[[6,\"1\"],[3,\"-1\"],[2,\"-1\"],[1,\"-1\"],[4,\"1\"]]],\
    [\"farkas\",[[6,\"1\"],[3,\"1\"],[2,\"1\"],[1,\"1\"],[4,\"-1\"]]]]]}";

/// The first two steps alone.
const SHORT: &str = "{\"whyrel\":1,\"proofs\":[[[\"neint\",5],\
    [\"farkas\",[[6,\"1\"],[3,\"-1\"],[2,\"-1\"],[1,\"-1\"],[4,\"1\"]]]]]}";

/// The second step's combination is no contradiction.
const WRONG: &str = "{\"whyrel\":1,\"proofs\":[[[\"neint\",5],\
    [\"farkas\",[[6,\"1\"],[3,\"1\"],[2,\"-1\"],[1,\"-1\"],[4,\"1\"]]]]]}";

/// Each proof file with the word of its verdict and two numbers.
const CASES: [(&str, &str, u64, u64); 7] = [
    (PROOF, "Yes", 3, 0),
    (SHORT, "OpenNodes", 1, 229),
    (WRONG, "BadStep", 1, 229),
    ("{\"whyrel\":1,\"proofs\":[]}", "ProofCount", 0, 1),
    (
        "{\"whyrel\":1,\"proofs\":[[[\"nosuch\"]]]}",
        "MalformedStep",
        0,
        0,
    ),
    ("{\"whyrel\":3,\"proofs\":[]}", "MalformedFile", 0, 0),
    ("[", "NotJson", 0, 0),
];

fn verdict(alloc: Global, text: &str, proof: &str) -> Result<Verdict, Memory> {
    if text.len() as u64 > BUNDLE_LIMIT || proof.len() as u64 > PROOF_LIMIT {
        return Err(Memory);
    }
    match prepare(alloc, text.as_bytes()) {
        Ok(ready) => {
            let Ready { bundle, obligation } = ready;
            judge(alloc, &bundle, obligation, proof.as_bytes())
        }
        Err(Stop::Refused(verdict)) => Ok(verdict),
        Err(Stop::Memory) => Err(Memory),
    }
}

fn word_of(verdict: &Verdict) -> (&'static str, u64, u64) {
    match verdict {
        Verdict::Syntax(at) => ("Syntax", *at as u64, 0),
        Verdict::NotJson => ("NotJson", 0, 0),
        Verdict::MalformedFile => ("MalformedFile", 0, 0),
        Verdict::MalformedStep(proof, step) => ("MalformedStep", *proof as u64, *step as u64),
        Verdict::ProofCount(proofs, obligations) => ("ProofCount", *proofs, *obligations),
        Verdict::BadStep(_, step, _, at) => ("BadStep", *step as u64, *at as u64),
        Verdict::OpenNodes(nodes, _, _, at) => ("OpenNodes", *nodes, *at as u64),
        Verdict::Yes(counts) => ("Yes", counts.len() as u64, 0),
        _ => ("another", 0, 0),
    }
}

fn is(verdict: &Verdict, word: &str, first: u64, second: u64) -> bool {
    let told = word_of(verdict);
    told.0 == word && told.1 == first && told.2 == second
}

/// The number of the first case that has another verdict.
fn first_other(alloc: Global, cases: &[(&str, &str, u64, u64)]) -> Result<Option<usize>, Memory> {
    for (number, case) in cases.iter().enumerate() {
        let verdict = verdict(alloc, BUNDLE, case.0)?;
        if !is(&verdict, case.1, case.2, case.3) {
            return Ok(Some(number));
        }
    }
    Ok(None)
}

#[test]
fn each_proof_file_has_its_verdict(rt: HostRuntime) -> Result<(), Fail> {
    assert!(rt; first_other(rt.alloc(), &CASES)? == None);
    Ok(())
}

#[test]
fn a_text_that_is_no_bundle_needs_no_proof_file(rt: HostRuntime) -> Result<(), Fail> {
    let verdict = verdict(rt.alloc(), "unit", "[")?;
    assert!(rt; is(&verdict, "Syntax", 4, 0));
    Ok(())
}
