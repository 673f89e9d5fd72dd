//! Judges a bundle by its proof file.

ghost use Rattle.std.specs.Prelude.{◌≡◌, ◌≢◌, ◌^◌, ◌<◌, ◌≤◌, [], ◌∷◌, length, IfOk, Some};
ghost use Rattle.rel_io.specs.Told.{IsToldAs, IsLonger};
ghost use Rattle.rel_io.specs.Answers.{IfFailed, UnlessFailed, IfTooLong};
ghost use Rattle.rel_decls.specs.declared.fault.TextFault.TheVariants as texts;
ghost use Rattle.rel_lang.specs.Refusal.{Fits};
ghost use Rattle.rel_lang.specs.State.{tables_of};
ghost use Rattle.rel_lang.specs.Typed.{IsTyped};
ghost use Rattle.rel_flaws.specs.Flaws as flaws;
ghost use Rattle.rel_lang.specs.Syntax as syntax;
ghost use Rattle.rel_lang.specs.View.{item_of, bundle_of};
ghost use Rattle.rel_encode.specs.Numbers.{numbers_of, numbered};
ghost use Rattle.rel_types.specs.Items.{first_fault};
ghost use Rattle.rel_types.specs.Told.{IsFirst};
ghost use Rattle.rel_top.specs.Ending.{ReadFailed, unread, answer};
ghost use Rattle.rel_top.specs.Judged.{OfParts, IsObligation, IsFound, IsStepsAnswer, IsProofAnswer, IsJudgedAnswer, IsTypedAnswer, IsBundleAnswer, IsTextAnswer, IsCheckAnswer, answer_of};
ghost use Rattle.rel_top.specs.Report.{item_line, yes_line};
ghost use Rattle.rel_top.specs.Verdict.{too_large, bad_text, refused, not_built, judged, no_proof};
ghost use Rattle.rel_top.specs.Verdict as V;

use crate::proof_file::{ProofFault, read_proof};
use crate::report;
use crate::status::Status;
use rel_decls::{TextFault, parse_bundle};
use rel_io::{FileFault, Files};
use rel_lang::bundle::{Bundle, Item};
use rel_lang::typed::Typed;
use rel_linking::obligation;
use rel_list::{Boxed, List, Memory, Name};
use rel_logic::sequent::Sequent;
use rel_straight::checker::{Verdict, accepts};
use rel_straight::step::Step;
use rel_types::{TypeFault, resolve};
use std::alloc::Global;

pub const BUNDLE_LIMIT: u64 = 1 << 22;

const PROOF_LIMIT: u64 = 1 << 26;

/// What is to be printed, and the status to end with.
#[derive(Drop)]
pub struct Answer {
    pub status: Status,
    pub lines: List<List<u8>>,
}

fn bytes_of(line: Name) -> List<u8>
    ensures { result ≡ line }
{
    List {
        items: line.text.into_bytes(),
    }
}

pub fn with_line(alloc: Global, status: Status, line: Name) -> Result<Answer, Memory>
    ensures { IfOk result (λ a. a ≡ record { status = status; lines = line ∷ [] }) }
{
    let mut lines = List::new(alloc);
    lines.push(bytes_of(line))?;
    Ok(Answer { status, lines })
}

/// The bundle under the first name, by the proof file under the second.
pub fn check<F: Files>(
    alloc: Global,
    bundle: &str,
    proof: &str,
    files: &mut F,
) -> Result<Answer, Memory>
    ensures answer { IfOk result (IsCheckAnswer (F.told files.old)
        (ReadFailed (F.faults files.old) (F.faults files.new)
        (F.read_faults files.old) (F.read_faults files.new))
        bundle.now proof.now) }
    ensures contents_stay { F.told files.new ≡ F.told files.old }
    ensures quiet { IfOk result (λ a. a.status ≢ Status.FileFault → F.faults files.new ≡ F.faults files.old) }
{
    match content_of(alloc, bundle, BUNDLE_LIMIT, files) {
        Ok(text) => Ok(check_text(alloc, text.as_slice(), proof, files)?),
        Err(FileFault::Failed) => Ok(unreadable(alloc, bundle)?),
        Err(FileFault::TooLong) => Ok(too_large(alloc)?),
        Err(FileFault::Memory) => Err(Memory),
    }
}

/// The bytes under the name.
pub fn content_of<F: Files>(
    alloc: Global,
    name: &str,
    limit: u64,
    files: &mut F,
) -> Result<Vec<u8>, FileFault>
    ensures told { IfOk result (λ content. IsToldAs (F.told files.old name.now) content.items) }
    ensures within { IfOk result (λ content. length content.items ≤ limit) }
    ensures too_long { IfTooLong result (IsLonger (F.told files.old name.now) limit) }
    ensures failed { IfFailed result
        (ReadFailed (F.faults files.old) (F.faults files.new)
        (F.read_faults files.old) (F.read_faults files.new) name.now) }
    ensures contents_stay { F.told files.new ≡ F.told files.old }
    ensures faults_stay { UnlessFailed result (F.faults files.new ≡ F.faults files.old) }
    ensures read_faults_stay { UnlessFailed result (F.read_faults files.new ≡ F.read_faults files.old) }
{
    files.read(alloc, name, limit)
}

/// A read of the file failed.
pub fn unreadable(alloc: Global, name: &str) -> Result<Answer, Memory>
    ensures { IfOk result (λ a. a ≡ answer_of (unread name.now)) }
{
    with_line(alloc, Status::FileFault, report::file_fault(alloc, name)?)
}

/// The bundle has too many bytes.
pub fn too_large(alloc: Global) -> Result<Answer, Memory>
    ensures { IfOk result (λ a. a ≡ answer_of (answer (refused too_large))) }
{
    with_line(alloc, Status::Refused, report::bundle_too_large(alloc)?)
}

/// The bundle's text has this fault.
pub fn faulty(alloc: Global, fault: TextFault) -> Result<Answer, Memory>
    ensures { IfOk result (λ a. (fault ≢ texts.Memory) × (a ≡ answer_of (answer (refused (bad_text fault))))) }
{
    with_line(alloc, Status::Refused, report::text_fault(alloc, fault)?)
}

/// The bundle has this fault first.
fn ill_typed(alloc: Global, fault: TypeFault) -> Result<Answer, Memory>
    ensures { IfOk result (λ a. (b : syntax.Bundle) → IsFirst b fault
        → (f : flaws.Fault) × (first_fault b ≡ Some f) × (a ≡ answer_of (answer (V.ill_typed f)))) }
{
    match fault {
        TypeFault::Fault(kind, at) => {
            let line = report::type_fault(alloc, kind, at)?;
            Ok(with_line(alloc, Status::Refused, line)?)
        }
        TypeFault::Memory => Err(Memory),
    }
}

fn without_bundle(alloc: Global) -> Result<Answer, Memory>
    ensures { IfOk result (λ a. a ≡ answer_of (answer not_built)) }
{
    with_line(alloc, Status::Refused, report::bundle_not_built(alloc)?)
}

fn without_proof(alloc: Global, bundle: &Bundle) -> Result<Answer, Memory>
    ensures { IfOk result (λ a. OfParts (bundle_of bundle.now) (λ k. answer (judged k no_proof)) a) }
{
    with_line(alloc, Status::Refused, report::proof_not_built(alloc)?)
}

fn check_text<F: Files>(
    alloc: Global,
    text: &[u8],
    proof: &str,
    files: &mut F,
) -> Result<Answer, Memory>
    requires { length text.now ≤ 2 ^ 22 }
    ensures answer { IfOk result (IsTextAnswer text.now (F.told files.old)
        (ReadFailed (F.faults files.old) (F.faults files.new)
        (F.read_faults files.old) (F.read_faults files.new))
        proof.now) }
    ensures contents_stay { F.told files.new ≡ F.told files.old }
    ensures quiet { IfOk result (λ a. a.status ≢ Status.FileFault → F.faults files.new ≡ F.faults files.old) }
{
    match parse_bundle(alloc, text) {
        Ok(bundle) => Ok(check_bundle(alloc, bundle, proof, files)?),
        Err(fault) => Ok(faulty(alloc, fault)?),
    }
}

/// Boxed, since a function that drops a sequent of its own is too large for the check.
fn boxed_obligation(alloc: Global, t: &Typed) -> Result<Option<Boxed<Sequent>>, Memory>
    requires fits { Fits (bundle_of t.now.bundle) }
    requires typed { IsTyped (bundle_of t.now.bundle) }
    requires numbers { numbers_of t.now ≡ numbered (tables_of (bundle_of t.now.bundle)) }
    ensures { IfOk result (λ o. IsFound (bundle_of t.now.bundle) o) }
{
    match obligation(alloc, t)? {
        Some(sequent) => Ok(Some(Boxed::new(alloc, sequent)?)),
        None => Ok(None),
    }
}

fn check_bundle<F: Files>(
    alloc: Global,
    bundle: Bundle,
    proof: &str,
    files: &mut F,
) -> Result<Answer, Memory>
    requires { Fits (bundle_of bundle) }
    ensures answer { IfOk result (IsBundleAnswer (bundle_of bundle) (F.told files.old)
        (ReadFailed (F.faults files.old) (F.faults files.new)
        (F.read_faults files.old) (F.read_faults files.new))
        proof.now) }
    ensures contents_stay { F.told files.new ≡ F.told files.old }
    ensures quiet { IfOk result (λ a. a.status ≢ Status.FileFault → F.faults files.new ≡ F.faults files.old) }
{
    match resolve(alloc, bundle) {
        Ok(typed) => Ok(check_typed(alloc, &typed, proof, files)?),
        Err(fault) => Ok(ill_typed(alloc, fault)?),
    }
}

fn check_typed<F: Files>(
    alloc: Global,
    t: &Typed,
    proof: &str,
    files: &mut F,
) -> Result<Answer, Memory>
    requires fits { Fits (bundle_of t.now.bundle) }
    requires typed { IsTyped (bundle_of t.now.bundle) }
    requires numbers { numbers_of t.now ≡ numbered (tables_of (bundle_of t.now.bundle)) }
    ensures answer { IfOk result (IsTypedAnswer (bundle_of t.now.bundle) (F.told files.old)
        (ReadFailed (F.faults files.old) (F.faults files.new)
        (F.read_faults files.old) (F.read_faults files.new))
        proof.now) }
    ensures contents_stay { F.told files.new ≡ F.told files.old }
    ensures quiet { IfOk result (λ a. a.status ≢ Status.FileFault → F.faults files.new ≡ F.faults files.old) }
{
    match boxed_obligation(alloc, t)? {
        Some(sequent) => Ok(check_sequent(alloc, &t.bundle, sequent.get(), proof, files)?),
        None => Ok(without_bundle(alloc)?),
    }
}

fn check_sequent<F: Files>(
    alloc: Global,
    bundle: &Bundle,
    sequent: &Sequent,
    proof: &str,
    files: &mut F,
) -> Result<Answer, Memory>
    requires { IsObligation (bundle_of bundle.now) sequent.now }
    ensures answer { IfOk result (IsJudgedAnswer (bundle_of bundle.now) (F.told files.old)
        (ReadFailed (F.faults files.old) (F.faults files.new)
        (F.read_faults files.old) (F.read_faults files.new))
        proof.now) }
    ensures contents_stay { F.told files.new ≡ F.told files.old }
    ensures quiet { IfOk result (λ a. a.status ≢ Status.FileFault → F.faults files.new ≡ F.faults files.old) }
{
    match content_of(alloc, proof, PROOF_LIMIT, files) {
        Ok(content) => Ok(check_proof(alloc, bundle, sequent, content.as_slice())?),
        Err(FileFault::Failed) => Ok(unreadable(alloc, proof)?),
        Err(FileFault::TooLong) => Ok(without_proof(alloc, bundle)?),
        Err(FileFault::Memory) => Err(Memory),
    }
}

#[tactic(auto, using(crate::proofs::Verdicts::of_proof))]
fn check_proof(
    alloc: Global,
    bundle: &Bundle,
    sequent: &Sequent,
    proof: &[u8],
) -> Result<Answer, Memory>
    requires { IsObligation (bundle_of bundle.now) sequent.now }
    ensures { IfOk result (IsProofAnswer (bundle_of bundle.now) proof.now) }
{
    match read_proof(alloc, proof) {
        Ok(steps) => check_steps(alloc, bundle, sequent, &steps),
        Err(ProofFault::NotBuilt) => without_proof(alloc, bundle),
        Err(ProofFault::Memory) => Err(Memory),
    }
}

fn check_steps(
    alloc: Global,
    bundle: &Bundle,
    sequent: &Sequent,
    steps: &List<Step>,
) -> Result<Answer, Memory>
    requires few { length steps.now < 2 ^ 32 }
    requires obligation { IsObligation (bundle_of bundle.now) sequent.now }
    ensures { IfOk result (IsStepsAnswer (bundle_of bundle.now) steps.now) }
{
    match accepts(alloc, sequent, steps)? {
        Verdict::Accepted => Ok(accepted(alloc, bundle)?),
        Verdict::BadStep(step) => Ok(bad_step(alloc, bundle, step)?),
        Verdict::OpenNodes(nodes) => Ok(open_nodes(alloc, bundle, nodes)?),
    }
}

/// The lines of the two units and the judgement, and of the yes.
fn yes_lines(
    alloc: Global,
    left: &Item,
    right: &Item,
    judgement: &Item,
) -> Result<List<List<u8>>, Memory>
    ensures { IfOk result (λ ls. ls ≡ item_line (item_of left.now) 0 ∷ item_line (item_of right.now) 0
        ∷ item_line (item_of judgement.now) 1 ∷ yes_line 3 1 ∷ []) }
{
    let mut lines = List::new(alloc);
    lines.push(bytes_of(report::item(alloc, left, 0)?))?;
    lines.push(bytes_of(report::item(alloc, right, 0)?))?;
    lines.push(bytes_of(report::item(alloc, judgement, 1)?))?;
    lines.push(bytes_of(report::yes(alloc, 3, 1)?))?;
    Ok(lines)
}

fn accepted(alloc: Global, bundle: &Bundle) -> Result<Answer, Memory>
    requires { length bundle.now.items ≡ 3 }
    ensures { IfOk result (λ a. OfParts (bundle_of bundle.now) (λ k. answer (judged k V.accepted)) a) }
{
    let items = &bundle.items;
    let lines = yes_lines(alloc, items.at(0), items.at(1), items.at(2))?;
    Ok(Answer {
        status: Status::Yes,
        lines,
    })
}

/// The step of this number isn't good.
fn bad_step(alloc: Global, bundle: &Bundle, step: u32) -> Result<Answer, Memory>
    requires { length bundle.now.items ≡ 3 }
    ensures { IfOk result (λ a. OfParts (bundle_of bundle.now) (λ k. answer (judged k (V.bad_step step))) a) }
{
    let line = report::bad_step(alloc, bundle.items.at(2), step)?;
    with_line(alloc, Status::Refused, line)
}

/// So many nodes are open after the last step.
fn open_nodes(alloc: Global, bundle: &Bundle, nodes: u64) -> Result<Answer, Memory>
    requires { length bundle.now.items ≡ 3 }
    ensures { IfOk result (λ a. OfParts (bundle_of bundle.now) (λ k. answer (judged k (V.open_nodes nodes))) a) }
{
    let line = report::open_nodes(alloc, bundle.items.at(2), nodes)?;
    with_line(alloc, Status::Refused, line)
}
