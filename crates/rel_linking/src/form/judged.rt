//! What is asked of the two units and the judgement.

ghost use Rattle.std.specs.Prelude.{◌↔◌, IsTrue, IfOk};
ghost use Rattle.rel_lang.specs.Syntax.{Given};
ghost use Rattle.rel_lang.specs.View.{rel_of, align_of, biform_of, biblock_of, block_of};
ghost use Rattle.rel_linking.specs.Form.{IsAgreement, IsSplitOf};
ghost use Rattle.rel_linking.specs.Parts.{held, IsAbout, IsSplitForm, IsJudged, AreJudged};

use crate::form::plain::{is_arithmetic, is_plain};
use rel_lang::biprogram::{Align, BiCommand, BiForm};
use rel_lang::bundle::{Judgement, Proc, UnitItem};
use rel_lang::command::{Command, same_commands};
use rel_lang::relation::RelFormula;
use rel_list::{List, Memory};
use std::alloc::Global;

/// Whether the units have one procedure each, and these and the judgement are such that they can be judged.
pub fn are_judged(
    alloc: Global,
    left: &UnitItem,
    right: &UnitItem,
    judgement: &Judgement,
) -> Result<bool, Memory>
    ensures { IfOk result (λ judged. IsTrue judged ↔ AreJudged left.now right.now judgement.now) }
{
    if left.procs.len() != 1 {
        return Ok(false);
    }
    if right.procs.len() != 1 {
        return Ok(false);
    }
    let judged = is_judged(
        alloc,
        left,
        left.procs.at(0),
        right,
        right.procs.at(0),
        judgement,
    )?;
    Ok(judged)
}

fn is_judged(
    alloc: Global,
    left: &UnitItem,
    left_proc: &Proc,
    right: &UnitItem,
    right_proc: &Proc,
    judgement: &Judgement,
) -> Result<bool, Memory>
    ensures { let all = held left.now left_proc.now right.now right_proc.now judgement.now in
        IfOk result (λ judged. IsTrue judged ↔ IsJudged all) }
{
    let left_plain = is_plain(alloc, left, left_proc)?;
    let right_plain = is_plain(alloc, right, right_proc)?;
    Ok(
        left_plain
            && right_plain
            && is_about(left, right, judgement)
            && is_agreement(&judgement.needs.formula)
            && is_agreement(&judgement.gives.formula)
            && is_split(
                &judgement.align,
                &left_proc.body.commands,
                &right_proc.body.commands,
            ),
    )
}

fn is_about(left: &UnitItem, right: &UnitItem, judgement: &Judgement) -> bool
    ensures { IsTrue result ↔ IsAbout left.now right.now judgement.now }
{
    judgement.left.0.is(&left.name) && judgement.right.0.is(&right.name)
}

fn is_agreement(formula: &RelFormula) -> bool
    ensures { IsTrue result ↔ IsAgreement (rel_of formula.now) }
{
    match formula {
        RelFormula::Agree(e, f) => is_arithmetic(e) && is_arithmetic(f),
        _ => false,
    }
}

/// Whether this is one split of the two blocks.
fn is_split(align: &Align, left: &List<Command>, right: &List<Command>) -> bool
    ensures { IsTrue result ↔ IsSplitOf (align_of align.now) (block_of left.now) (block_of right.now) }
{
    match align {
        Align::Given(commands) => is_split_list(commands, left, right),
        Align::Woven(_) => false,
    }
}

#[tactic(auto, using(crate::proofs::FormsShape::split_list))]
fn is_split_list(commands: &List<BiCommand>, left: &List<Command>, right: &List<Command>) -> bool
    ensures { IsTrue result
        ↔ IsSplitOf (Given (biblock_of commands.now)) (block_of left.now) (block_of right.now) }
{
    if commands.len() != 1 {
        return false;
    }
    is_split_form(&commands.at(0).form, left, right)
}

fn is_split_form(form: &BiForm, left: &List<Command>, right: &List<Command>) -> bool
    ensures { IsTrue result ↔ IsSplitForm (biform_of form.now) (block_of left.now) (block_of right.now) }
{
    match form {
        BiForm::Split(a, b) => same_commands(a, left) && same_commands(b, right),
        _ => false,
    }
}
