//! Judges the text of a bundle, and then the proof file for it.

ghost use Rattle.std.specs.Prelude.{◌≡◌, ◌≢◌, ◌<◌, ◌≤◌, ◌^◌, ◌∷◌, [], length, map, IfOk, IfErr};
ghost use Rattle.std.specs.List.{AllByRecursion};
ghost use Rattle.rel_lang.specs.Refusal.{Fits};
ghost use Rattle.rel_lang.specs.State.{tables_of};
ghost use Rattle.rel_lang.specs.Typed.{IsTyped};
ghost use Rattle.rel_lang.specs.View.{bundle_of};
ghost use Rattle.rel_encode.specs.Numbers.{numbers_of, numbered};
ghost use Rattle.rel_linking.specs.Scope.{IsAnswer};
ghost use Rattle.rel_types.specs.Items.{first_fault};
ghost use Rattle.rules_table.specs.View.{step_of};
ghost use Rattle.rel_judge.specs.Verdict.{IsUnreadAs, IsRefusedAs, IsRead};
ghost use Rattle.rel_judge.specs.Judged.{StopsWith, IsVerdictOn, Refuses, IsObligation, IsReadyFor, IsShort};
ghost use Rattle.rel_judge.specs.Judged.{IsVerdictOnProof, IsVerdictOnDerivations, IsPlace, IsVerdictOnOutcome, IsVerdictOnProofFile};

use rel_decls::{TextFault, parse_bundle};
use rel_derive::verdict::{Outcome, outcome_of};
use rel_lang::bundle::{Bundle, Item};
use rel_lang::typed::Typed;
use rel_linking::obligation;
use rel_list::{Boxed, List, Memory};
use rel_logic::sequent::Sequent;
use rel_proofio::{ProofFault, Spot, read_proof};
use rel_report::Verdict;
use rel_types::{TypeFault, resolve};
use rules_table::step::Step;
use std::alloc::Global;

/// The most bytes that a bundle may have.
pub const BUNDLE_LIMIT: u64 = 1 << 22;

/// The most bytes that a proof file may have.
pub const PROOF_LIMIT: u64 = 1 << 26;

/// A bundle that can be judged, and its obligation.
#[derive(Drop)]
pub struct Ready {
    pub bundle: Bundle,
    /// Boxed, since a function that drops a sequent of its own is too large for the check.
    pub obligation: Boxed<Sequent>,
}

/// Why a judgement ends before the proof file is looked at.
#[derive(Drop)]
pub enum Stop {
    Refused(Verdict),
    Memory,
}

impl From<Memory> for Stop {
    ghost use Rattle.std.specs.Prelude.{◌≡◌};
    ghost use Rattle.rel_judge.specs.declared.verdict.Stop.TheVariants.{Memory as no_memory};

    ghost from_gives = { λ _ stop. stop ≡ no_memory };

    fn from(_: Memory) -> Stop {
        Stop::Memory
    }
}

#[tactic(auto, using(crate::proofs::Verdicts::on_texts))]
fn verdict_on(fault: TextFault) -> Result<Verdict, Memory>
    ensures { IfOk result (IsVerdictOn fault) }
{
    match fault {
        TextFault::NotUtf8(at) => Ok(Verdict::NotUtf8(at)),
        TextFault::Lexical(kind, at) => Ok(Verdict::Lexical(kind, at)),
        TextFault::Syntax(at) => Ok(Verdict::Syntax(at)),
        TextFault::TooDeep(at) => Ok(Verdict::TooDeep(at)),
        TextFault::TooMany(at) => Ok(Verdict::TooMany(at)),
        TextFault::Memory => Err(Memory),
    }
}

/// The bundle that the text stands for.
pub fn read_bundle(alloc: Global, text: &[u8]) -> Result<Bundle, Stop>
    requires { length text.now ≤ BUNDLE_LIMIT }
    ensures read { IfOk result (λ b. IsRead text.now (bundle_of b)) }
    ensures stopped { IfErr result (StopsWith (IsUnreadAs text.now)) }
{
    match parse_bundle(alloc, text) {
        Ok(bundle) => Ok(bundle),
        Err(fault) => Err(Stop::Refused(verdict_on(fault)?)),
    }
}

/// The bundle with its types.
fn typed(alloc: Global, bundle: Bundle) -> Result<Typed, Stop>
    ensures typed { IfOk result (λ t. IsTyped (bundle_of t.bundle)) }
    ensures faultless { IfOk result (λ t. first_fault (bundle_of t.bundle) ≡ None) }
    ensures numbers { IfOk result (λ t. numbers_of t ≡ numbered (tables_of (bundle_of t.bundle))) }
    ensures same { IfOk result (λ t. t.bundle ≡ bundle) }
    ensures stopped { IfErr result (StopsWith (Refuses (bundle_of bundle))) }
{
    match resolve(alloc, bundle) {
        Ok(typed) => Ok(typed),
        Err(TypeFault::Fault(kind, at)) => Err(Stop::Refused(Verdict::Typing(kind, at))),
        Err(TypeFault::Memory) => Err(Stop::Memory),
    }
}

fn boxed_obligation(alloc: Global, typed: &Typed) -> Result<Option<Boxed<Sequent>>, Memory>
    requires fits { Fits (bundle_of typed.now.bundle) }
    requires typed { IsTyped (bundle_of typed.now.bundle) }
    requires numbers { numbers_of typed.now ≡ numbered (tables_of (bundle_of typed.now.bundle)) }
    ensures { IfOk result (IsAnswer (bundle_of typed.now.bundle)) }
{
    match obligation(alloc, typed)? {
        Some(sequent) => Ok(Some(Boxed::new(alloc, sequent)?)),
        None => Ok(None),
    }
}

/// The bundle with its obligation.
fn built(alloc: Global, typed: Typed) -> Result<Ready, Stop>
    requires fits { Fits (bundle_of typed.bundle) }
    requires typed { IsTyped (bundle_of typed.bundle) }
    requires faultless { first_fault (bundle_of typed.bundle) ≡ None }
    requires numbers { numbers_of typed ≡ numbered (tables_of (bundle_of typed.bundle)) }
    ensures same { IfOk result (λ r. r.bundle ≡ typed.bundle) }
    ensures obligation { IfOk result (λ r. IsObligation (bundle_of r.bundle) r.obligation) }
    ensures stopped { IfErr result (StopsWith (Refuses (bundle_of typed.bundle))) }
{
    match boxed_obligation(alloc, &typed)? {
        Some(obligation) => Ok(Ready {
            bundle: typed.bundle,
            obligation,
        }),
        None => Err(Stop::Refused(Verdict::NotBuilt)),
    }
}

/// The bundle that the text stands for, and its obligation, where it can be judged.
pub fn prepare(alloc: Global, text: &[u8]) -> Result<Ready, Stop>
    requires { length text.now ≤ BUNDLE_LIMIT }
    ensures ready { IfOk result (λ r. IsReadyFor text.now (bundle_of r.bundle)) }
    ensures obligation { IfOk result (λ r. IsObligation (bundle_of r.bundle) r.obligation) }
    ensures stopped { IfErr result (StopsWith (IsRefusedAs text.now)) }
{
    let bundle = read_bundle(alloc, text)?;
    match typed(alloc, bundle) {
        Ok(typed) => built(alloc, typed),
        Err(stop) => Err(stop),
    }
}

#[tactic(auto, using(crate::proofs::Verdicts::on_proofs))]
fn verdict_on_proof(fault: ProofFault) -> Result<Verdict, Memory>
    ensures verdict { IfOk result (IsVerdictOnProof fault) }
    ensures some { IfOk result (λ v. fault ≢ ProofFault.Memory) }
{
    match fault {
        ProofFault::NotJson => Ok(Verdict::NotJson),
        ProofFault::Malformed(Spot::File) => Ok(Verdict::MalformedFile),
        ProofFault::Malformed(Spot::Proof(proof)) => Ok(Verdict::MalformedProof(proof)),
        ProofFault::Malformed(Spot::Step(proof, step)) => Ok(Verdict::MalformedStep(proof, step)),
        ProofFault::TooLong(proof) => Ok(Verdict::TooLong(proof)),
        ProofFault::Memory => Err(Memory),
    }
}

/// The byte where the judgement begins, which is the third item.
fn place(bundle: &Bundle) -> u32
    requires { length bundle.now.items ≡ 3 }
    ensures { IsPlace (bundle_of bundle.now) result }
{
    match bundle.items.at(2) {
        Item::Judge(judgement) => judgement.at,
        _ => 0,
    }
}

/// The number of obligations of each item: one for the judgement, which is the third.
fn counts(alloc: Global) -> Result<List<u32>, Memory>
    ensures { IfOk result (λ counts. counts ≡ 0 ∷ 0 ∷ 1 ∷ []) }
{
    let mut counts = List::new(alloc);
    counts.push(0)?;
    counts.push(0)?;
    counts.push(1)?;
    Ok(counts)
}

/// The verdict by what the derivation of the one obligation comes to.
fn told(alloc: Global, bundle: &Bundle, outcome: Outcome) -> Result<Verdict, Memory>
    requires { length bundle.now.items ≡ 3 }
    ensures { IfOk result (IsVerdictOnOutcome (bundle_of bundle.now) outcome) }
{
    let at = place(bundle);
    match outcome {
        Outcome::Accepted => Ok(Verdict::Yes(counts(alloc)?)),
        Outcome::BadStep(step) => Ok(Verdict::BadStep(0, step, 2, at)),
        Outcome::OpenNodes(nodes) => Ok(Verdict::OpenNodes(nodes, 0, 2, at)),
    }
}

fn derive(
    alloc: Global,
    bundle: &Bundle,
    obligation: Boxed<Sequent>,
    lists: &List<List<Step>>,
) -> Result<Verdict, Memory>
    requires short { AllByRecursion IsShort lists.now }
    requires obligation { IsObligation (bundle_of bundle.now) obligation }
    ensures { IfOk result (IsVerdictOnDerivations (bundle_of bundle.now) (map (map step_of) lists.now)) }
{
    if lists.len() != 1 {
        return Ok(Verdict::ProofCount(lists.len() as u64, 1));
    }
    let outcome = outcome_of(alloc, obligation.into_inner(), lists.at(0))?;
    told(alloc, bundle, outcome)
}

/// The verdict on the bytes of a proof file, for a bundle that has this obligation.
pub fn judge(
    alloc: Global,
    bundle: &Bundle,
    obligation: Boxed<Sequent>,
    content: &[u8],
) -> Result<Verdict, Memory>
    requires short { length content.now ≤ PROOF_LIMIT }
    requires obligation { IsObligation (bundle_of bundle.now) obligation }
    ensures { IfOk result (IsVerdictOnProofFile (bundle_of bundle.now) content.now) }
{
    match read_proof(alloc, content) {
        Ok(proof) => derive(alloc, bundle, obligation, &proof.lists),
        Err(fault) => verdict_on_proof(fault),
    }
}
