//! Reads a proof file.

ghost use Rattle.std.specs.Prelude.{◌≡◌, ◌≢◌, None, Some, map, option_map, ok_or, IfOk, IfErr};
ghost use Rattle.serde_json.specs.View.{view};
ghost use Rattle.rules_table.specs.View.{step_of};
ghost use Rattle.rel_proofio.specs.ProofFile.{step_at, steps_at, derivation_at, each, is_one as is_one_of};
ghost use Rattle.rel_proofio.specs.ProofFile.{has_two_keys as has_two_keys_of, derivations_of, json_of, proof_of, derivations};

use crate::fault::{ProofFault, Spot, Unread};
use crate::parts::elements;
use crate::steps::step;
use rel_list::List;
use rules_table::step::Step;
use serde_json::Value;
use std::alloc::Global;

/// What a proof file says: the steps of each derivation.
#[derive(Drop)]
pub struct Proof {
    pub lists: List<List<Step>>,
}

fn step_at(alloc: Global, proof: u32, number: u32, value: &Value) -> Result<Step, ProofFault>
    ensures ok { IfOk result (λ s. step_at proof number (view value.now) ≡ Ok (step_of s)) }
    ensures fault { IfErr result (λ e. e ≢ ProofFault.Memory → step_at proof number (view value.now) ≡ Err e) }
{
    match step(alloc, value) {
        Ok(step) => Ok(step),
        Err(Unread::Malformed) => Err(ProofFault::Malformed(Spot::Step(proof, number))),
        Err(Unread::Memory) => Err(ProofFault::Memory),
    }
}

/// How many steps a derivation may have.
const MOST_STEPS: usize = 1 << 20;

fn steps_at(alloc: Global, proof: u32, values: &[Value]) -> Result<List<Step>, ProofFault>
    ensures ok { IfOk result (λ ss. steps_at proof (map view values.now) ≡ Ok (map step_of ss)) }
    ensures fault { IfErr result (λ e. e ≢ ProofFault.Memory → steps_at proof (map view values.now) ≡ Err e) }
{
    if values.len() > MOST_STEPS {
        return Err(ProofFault::TooLong(proof));
    }
    let mut steps = List::new(alloc);
    for (number, value) in values.iter().enumerate() {
        let step = step_at(alloc, proof, number as u32, value)?;
        steps.push(step)?;
    }
    Ok(steps)
}

fn derivation_at(alloc: Global, proof: u32, value: &Value) -> Result<List<Step>, ProofFault>
    ensures ok { IfOk result (λ ss. derivation_at proof (view value.now) ≡ Ok (map step_of ss)) }
    ensures fault { IfErr result (λ e. e ≢ ProofFault.Memory → derivation_at proof (view value.now) ≡ Err e) }
{
    match elements(value) {
        Some(values) => steps_at(alloc, proof, values),
        None => Err(ProofFault::Malformed(Spot::Proof(proof))),
    }
}

fn derivations_among(alloc: Global, values: &[Value]) -> Result<List<List<Step>>, ProofFault>
    ensures ok { IfOk result (λ ps. each derivation_at 0 (map view values.now) ≡ Ok (map (map step_of) ps)) }
    ensures fault { IfErr result (λ e. e ≢ ProofFault.Memory → each derivation_at 0 (map view values.now) ≡ Err e) }
{
    let mut derivations = List::new(alloc);
    for (number, value) in values.iter().enumerate() {
        // Only a file of more than 4 GiB has so many derivations.
        let Ok(number) = u32::try_from(number) else {
            return Err(ProofFault::Memory);
        };
        let steps = derivation_at(alloc, number, value)?;
        derivations.push(steps)?;
    }
    Ok(derivations)
}

fn is_one(value: &Value) -> bool
    ensures { result ≡ is_one_of (view value.now) }
{
    match value.as_u64() {
        Some(number) => number == 1,
        None => false,
    }
}

#[tactic(auto, using(crate::proofs::Files::count_view))]
fn has_two_keys(value: &Value) -> bool
    ensures { result ≡ has_two_keys_of (view value.now) }
{
    match value.as_object() {
        Some(members) => members.len() == 2,
        None => false,
    }
}

/// The array of the derivations, in an object with the right two keys.
fn derivation_values(value: &Value) -> Option<&[Value]>
    ensures { option_map (λ vs. map view vs.now) result ≡ derivations_of (view value.now) }
{
    if !has_two_keys(value) {
        return None;
    }
    if !is_one(value.get("whyrel")?) {
        return None;
    }
    elements(value.get("proofs")?)
}

fn json(alloc: Global, bytes: &[u8]) -> Result<Value, ProofFault>
    ensures ok { IfOk result (λ v. json_of bytes.now ≡ Some (view v)) }
    ensures not_json { IfErr result (λ e. e ≢ ProofFault.Memory → ok_or (json_of bytes.now) ProofFault.NotJson ≡ Err e) }
{
    let Ok(text) = str::from_utf8(bytes) else {
        return Err(ProofFault::NotJson);
    };
    match Value::from_str(alloc, text) {
        Ok(value) => Ok(value),
        Err(error) => {
            if error.is_memory() {
                Err(ProofFault::Memory)
            } else {
                Err(ProofFault::NotJson)
            }
        }
    }
}

/// The derivations of a proof file `{"whyrel":1,"proofs":[..]}`, or its first fault. A derivation is an array of steps,
/// and a step is an array of a rule's name and its arguments.
///
/// `NotJson` comes where `serde_json` has no reading of the bytes. Then the outer object is looked at, and then each
/// derivation in turn: whether it is an array, its length, and its steps. An object's repeated key has its last value.
pub fn read_proof(alloc: Global, bytes: &[u8]) -> Result<Proof, ProofFault>
    ensures ok { IfOk result (λ p. proof_of bytes.now ≡ Ok (derivations p)) }
    ensures fault { IfErr result (λ e. e ≢ ProofFault.Memory → proof_of bytes.now ≡ Err e) }
{
    let value = json(alloc, bytes)?;
    match derivation_values(&value) {
        Some(values) => {
            let lists = derivations_among(alloc, values)?;
            Ok(Proof { lists })
        }
        None => Err(ProofFault::Malformed(Spot::File)),
    }
}
