//! Reads a proof file: the steps of its derivation.

ghost use Rattle.std.specs.Prelude.{◌≡◌, Some, None, map, slice_index, option_map, IfOk, IfErr};
ghost use Rattle.serde_json.specs.View.{view};
ghost use Rattle.rel_top.specs.ProofFile.{traverse, elements_of, formula_of, integer_of, pair_of};
ghost use Rattle.rel_top.specs.ProofFile.{named_step, step_of, steps_of, is_one as is_one_of};
ghost use Rattle.rel_top.specs.ProofFile.{has_two_keys as has_two_keys_of, derivations_of, derivation_of};
ghost use Rattle.rel_top.specs.ProofFile.{json_of, proof_of};

use rel_list::{List, Memory};
use rel_straight::step::Step;
use serde_json::Value;
use std::alloc::Global;

/// Why no proof was read.
#[derive(Clone, Copy, Debug, PartialEq, Eq, Drop)]
pub enum ProofFault {
    /// The bytes are no proof file, or one of another form.
    NotBuilt,
    /// There was no memory.
    Memory,
}

impl From<Memory> for ProofFault {
    ghost use Rattle.std.specs.Prelude.{◌≡◌};
    ghost use Rattle.rel_top.specs.declared.proof_file.ProofFault.TheVariants.{Memory as NoMemory};

    ghost from_gives = { λ _ e. e ≡ NoMemory };

    fn from(_: Memory) -> ProofFault {
        ProofFault::Memory
    }
}

/// The elements of an array.
#[tactic(auto, using(crate::proofs::ProofFiles::listed_items))]
fn elements(value: &Value) -> Option<&[Value]>
    ensures { option_map (λ vs. map view vs.now) result ≡ elements_of (view value.now) }
{
    match value.as_array() {
        Some(items) => Some(items.as_slice()),
        None => None,
    }
}

fn formula(value: &Value) -> Option<u32>
    ensures { result ≡ formula_of (view value.now) }
{
    match value.as_u64() {
        Some(number) => u32::try_from(number).ok(),
        None => None,
    }
}

/// The byte at a place, or 0 past the end.
fn byte_at(bytes: &[u8], place: usize) -> u8
    ensures { result ≡ slice_index bytes.now place }
{
    match bytes.get(place) {
        Some(byte) => *byte,
        None => 0,
    }
}

fn integer(text: &str) -> Option<i128>
    ensures { result ≡ integer_of text.now }
{
    let bytes = text.as_bytes();
    let first = byte_at(bytes, 0);
    if first == b'-' {
        if byte_at(bytes, 1) < b'1' {
            return None;
        }
        return text.parse::<i128>().ok();
    }
    if first >= b'1' {
        return text.parse::<i128>().ok();
    }
    if first == b'0' && bytes.len() == 1 {
        Some(0)
    } else {
        None
    }
}

/// A formula's number and its multiplier.
fn pair(value: &Value) -> Option<(u32, i128)>
    ensures { result ≡ pair_of (view value.now) }
{
    let [number, multiplier] = elements(value)? else {
        return None;
    };
    let number = formula(number)?;
    let multiplier = integer(multiplier.as_str()?)?;
    Some((number, multiplier))
}

fn pairs(alloc: Global, values: &[Value]) -> Result<List<(u32, i128)>, ProofFault>
    ensures ok { IfOk result (λ ps. traverse pair_of (map view values.now) ≡ Some ps) }
    ensures not_built { IfErr result (λ e. e ≡ ProofFault.NotBuilt
        → traverse pair_of (map view values.now) ≡ None) }
{
    let mut pairs = List::new(alloc);
    for value in values {
        let pair = pair(value).ok_or(ProofFault::NotBuilt)?;
        pairs.push(pair)?;
    }
    Ok(pairs)
}

/// The step with this name and this argument.
fn named(alloc: Global, name: &str, argument: &Value) -> Result<Step, ProofFault>
    ensures ok { IfOk result (λ s. named_step name.now (view argument.now) ≡ Some s) }
    ensures not_built { IfErr result (λ e. e ≡ ProofFault.NotBuilt
        → named_step name.now (view argument.now) ≡ None) }
{
    if name == "neint" {
        let number = formula(argument).ok_or(ProofFault::NotBuilt)?;
        return Ok(Step::Neint(number));
    }
    if name == "farkas" {
        let values = elements(argument).ok_or(ProofFault::NotBuilt)?;
        return Ok(Step::Farkas(pairs(alloc, values)?));
    }
    Err(ProofFault::NotBuilt)
}

fn step(alloc: Global, value: &Value) -> Result<Step, ProofFault>
    ensures ok { IfOk result (λ s. step_of (view value.now) ≡ Some s) }
    ensures not_built { IfErr result (λ e. e ≡ ProofFault.NotBuilt → step_of (view value.now) ≡ None) }
{
    let Some([name, argument]) = elements(value) else {
        return Err(ProofFault::NotBuilt);
    };
    match name.as_str() {
        Some(name) => named(alloc, name, argument),
        None => Err(ProofFault::NotBuilt),
    }
}

const MAX_STEPS: usize = 1 << 20;

fn steps(alloc: Global, values: &[Value]) -> Result<List<Step>, ProofFault>
    ensures ok { IfOk result (λ s. steps_of (map view values.now) ≡ Some s) }
    ensures not_built { IfErr result (λ e. e ≡ ProofFault.NotBuilt
        → steps_of (map view values.now) ≡ None) }
{
    if values.len() > MAX_STEPS {
        return Err(ProofFault::NotBuilt);
    }
    let mut steps = List::new(alloc);
    for value in values {
        let step = step(alloc, value)?;
        steps.push(step)?;
    }
    Ok(steps)
}

fn is_one(value: &Value) -> bool
    ensures { result ≡ is_one_of (view value.now) }
{
    match value.as_u64() {
        Some(number) => number == 1,
        None => false,
    }
}

#[tactic(auto, using(crate::proofs::ProofFiles::count_view))]
fn has_two_keys(value: &Value) -> bool
    ensures { result ≡ has_two_keys_of (view value.now) }
{
    match value.as_object() {
        Some(members) => members.len() == 2,
        None => false,
    }
}

/// The array of the derivations, in an object with the right two keys.
fn derivations(value: &Value) -> Option<&[Value]>
    ensures { option_map (λ vs. map view vs.now) result ≡ derivations_of (view value.now) }
{
    if !has_two_keys(value) {
        return None;
    }
    if !is_one(value.get("whyrel")?) {
        return None;
    }
    elements(value.get("proofs")?)
}

/// The elements of the one derivation.
fn derivation(value: &Value) -> Option<&[Value]>
    ensures { option_map (λ vs. map view vs.now) result ≡ derivation_of (view value.now) }
{
    let [only] = derivations(value)? else {
        return None;
    };
    elements(only)
}

const MAX_BYTES: usize = 1 << 26;

fn json(alloc: Global, bytes: &[u8]) -> Result<Value, ProofFault>
    ensures ok { IfOk result (λ v. json_of bytes.now ≡ Some (view v)) }
    ensures not_built { IfErr result (λ e. e ≡ ProofFault.NotBuilt → json_of bytes.now ≡ None) }
{
    if bytes.len() > MAX_BYTES {
        return Err(ProofFault::NotBuilt);
    }
    let Ok(text) = str::from_utf8(bytes) else {
        return Err(ProofFault::NotBuilt);
    };
    match Value::from_str(alloc, text) {
        Ok(value) => Ok(value),
        Err(error) => {
            if error.is_memory() {
                Err(ProofFault::Memory)
            } else {
                Err(ProofFault::NotBuilt)
            }
        }
    }
}

/// The steps of a proof file's one derivation.
pub fn read_proof(alloc: Global, bytes: &[u8]) -> Result<List<Step>, ProofFault>
    ensures ok { IfOk result (λ steps. proof_of bytes.now ≡ Some steps) }
    ensures not_built { IfErr result (λ e. e ≡ ProofFault.NotBuilt → proof_of bytes.now ≡ None) }
{
    let value = json(alloc, bytes)?;
    match derivation(&value) {
        Some(values) => steps(alloc, values),
        None => Err(ProofFault::NotBuilt),
    }
}

#[cfg(test)]
mod tests {
    use super::read_proof;
    use rel_straight::step::Step;
    use std::test::Fail;

    const THREE_STEPS: &str = "{\"whyrel\":1,\"proofs\":[[[\"neint\",5],\
        [\"farkas\",[[6,\"1\"],[3,\"-1\"],[2,\"-1\"],[1,\"-1\"],[4,\"1\"]]],\
        [\"farkas\",[[6,\"1\"],[3,\"1\"],[2,\"1\"],[1,\"1\"],[4,\"-1\"]]]]]}";

    #[test]
    fn reads_the_steps_in_their_order(rt: HostRuntime) -> Result<(), Fail> {
        let steps = read_proof(rt.alloc(), THREE_STEPS.as_bytes())?;
        let [
            Step::Neint(number),
            Step::Farkas(first),
            Step::Farkas(second),
        ] = steps.as_slice()
        else {
            assert!(rt; false);
            return Ok(());
        };
        assert_eq!(rt; *number, 5);
        let wanted: [(u32, i128); 5] = [(6, 1), (3, -1), (2, -1), (1, -1), (4, 1)];
        assert_eq!(rt; first.as_slice(), wanted.as_slice());
        let wanted: [(u32, i128); 5] = [(6, 1), (3, 1), (2, 1), (1, 1), (4, -1)];
        assert_eq!(rt; second.as_slice(), wanted.as_slice());
        Ok(())
    }

    #[test]
    fn reads_the_largest_numbers(rt: HostRuntime) -> Result<(), Fail> {
        let text =
            "{\"proofs\":[[[\"farkas\",[[4294967295,\"-170141183460469231731687303715884105728\"],\
            [0,\"170141183460469231731687303715884105727\"],[1,\"0\"]]]]],\"whyrel\":1}";
        let steps = read_proof(rt.alloc(), text.as_bytes())?;
        let [Step::Farkas(pairs)] = steps.as_slice() else {
            assert!(rt; false);
            return Ok(());
        };
        let wanted: [(u32, i128); 3] = [(4294967295, i128::MIN), (0, i128::MAX), (1, 0)];
        assert_eq!(rt; pairs.as_slice(), wanted.as_slice());
        Ok(())
    }
}
