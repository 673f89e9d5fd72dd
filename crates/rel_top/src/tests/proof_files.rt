//! Which proof files are read, and the first fault of the others.

use rel_list::Memory;
use rel_proofio::{Proof, ProofFault, Spot, read_proof};
use std::alloc::Global;
use std::test::Fail;

fn fault(alloc: Global, text: &str) -> Option<ProofFault> {
    match read_proof(alloc, text.as_bytes()) {
        Ok(_) => None,
        Err(fault) => Some(fault),
    }
}

fn proof(alloc: Global, text: &str) -> Result<Proof, Memory> {
    match read_proof(alloc, text.as_bytes()) {
        Ok(proof) => Ok(proof),
        Err(_) => Err(Memory),
    }
}

fn step(proof: u32, step: u32) -> Option<ProofFault> {
    Some(ProofFault::Malformed(Spot::Step(proof, step)))
}

#[test]
fn a_proof_file_has_one_first_fault(rt: HostRuntime) -> Result<(), Fail> {
    let alloc = rt.alloc();
    let table = [
        ("[", Some(ProofFault::NotJson)),
        ("[]", Some(ProofFault::Malformed(Spot::File))),
        (
            r#"{"whyrel":3,"proofs":[]}"#,
            Some(ProofFault::Malformed(Spot::File)),
        ),
        (
            r#"{"whyrel":1.0,"proofs":[]}"#,
            Some(ProofFault::Malformed(Spot::File)),
        ),
        (
            r#"{"whyrel":1,"proofs":[],"more":0}"#,
            Some(ProofFault::Malformed(Spot::File)),
        ),
        (r#"{"whyrel":1,"proofs":[],"whyrel":1}"#, None),
        (
            r#"{"whyrel":1,"proofs":[[],0]}"#,
            Some(ProofFault::Malformed(Spot::Proof(1))),
        ),
        (r#"{"whyrel":1,"proofs":[[["nosuch"]]]}"#, step(0, 0)),
        (
            r#"{"whyrel":1,"proofs":[[],[["neint",5],["neint"]],0]}"#,
            step(1, 1),
        ),
        (r#"{"whyrel":1,"proofs":[[["close",0,1,2]]]}"#, step(0, 0)),
        (
            r#"{"whyrel":1,"proofs":[[["neint",4294967296]]]}"#,
            step(0, 0),
        ),
        (
            r#"{"whyrel":1,"proofs":[[["farkas",[[6,"01"]]]]]}"#,
            step(0, 0),
        ),
        (
            r#"{"whyrel":1,"proofs":[[["refl",["v",0,0]]]]}"#,
            step(0, 0),
        ),
    ];
    for (text, expected) in table.as_slice() {
        assert!(rt; fault(alloc, text) == *expected);
    }
    Ok(())
}

#[test]
fn steps_are_read_with_their_arguments(rt: HostRuntime) -> Result<(), Fail> {
    let alloc = rt.alloc();
    let text =
        r#"{"proofs":[[["round",[[6,"1"],[3,"-2"]],"2",["le",["v",0],["int","-7"]]],["addlink",["v",4],["null"],["v",0],9]]],"whyrel":1}"#;
    let proof = proof(alloc, text)?;
    assert!(rt; proof.lists.len() == 1 && proof.lists.at(0).len() == 2);
    let round = proof.lists.at(0).at(0);
    assert!(rt;
        round.row == 44
            && round.nums.as_slice() == [6, 3].as_slice()
            && round.ints.as_slice() == [1, -2, 2].as_slice()
    );
    assert!(rt; round.forms.len() == 1 && round.terms.is_empty() && round.class.is_none());
    let link = proof.lists.at(0).at(1);
    assert!(rt; link.row == 26 && link.terms.len() == 3 && link.class == Some(9));
    Ok(())
}
