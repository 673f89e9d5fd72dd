//! The first fault of an alignment.

ghost use Rattle.std.specs.Prelude.{◌≡◌, map, option_map, IfOk};
ghost use Rattle.rel_lang.specs.View.{command_of, block_of, biform_of, bicommand_of, biblock_of, weave_step_of, align_of};
ghost use Rattle.rel_flaws.specs.Alignments as alignments;
ghost use Rattle.rel_flaws.specs.AlignmentView.{sides_of};
ghost use Rattle.rel_flaws.specs.Code.{block_fault as block_fault_in};
ghost use Rattle.rel_flaws.specs.Flaws.{first_of, first_in};
ghost use Rattle.rel_flaws.specs.View.{tables_seen, pass_of, fault_of};

use crate::biforms::{flaws_of_act, flaws_of_biform};
use crate::block::{block_fault, inner_fault};
use crate::code::flaws_of_form;
use crate::kind::{Fault, Pass};
use crate::scope::Tables;
use crate::sides::Sides;
use rel_lang::biprogram::{Align, BiCommand, BiForm, WeaveStep};
use rel_lang::command::Command;
use rel_list::{List, Memory};

/// One command that runs on both sides.
fn joint_fault<'a>(
    tables: &Tables<'a>,
    pass: Pass,
    s: &mut Sides<'a, '_>,
    command: &'a Command,
) -> Result<Option<Fault>, Memory>
    ensures fault { IfOk result (λ f. option_map fault_of f
        ≡ alignments.joint_fault (tables_seen tables.now) (pass_of pass) (sides_of s.old) (command_of command.now)) }
    ensures sides { IfOk result (λ f. s.new ≡ s.old) }
{
    let left = flaws_of_form(tables, &mut s.left, &command.form)?;
    let right = flaws_of_form(tables, &mut s.right, &command.form)?;
    match left.either(right).fault(pass, command.at) {
        Some(fault) => Ok(Some(fault)),
        None => match inner_fault(tables, pass, &mut s.left, &command.form)? {
            Some(fault) => Ok(Some(fault)),
            None => inner_fault(tables, pass, &mut s.right, &command.form),
        },
    }
}

/// A block on each side.
fn split_fault<'a>(
    tables: &Tables<'a>,
    pass: Pass,
    s: &mut Sides<'a, '_>,
    left: &'a List<Command>,
    right: &'a List<Command>,
) -> Result<Option<Fault>, Memory>
    ensures fault { IfOk result (λ f. option_map fault_of f
        ≡ first_of (block_fault_in (tables_seen tables.now) (pass_of pass) (sides_of s.old).left (block_of left.now))
        (block_fault_in (tables_seen tables.now) (pass_of pass) (sides_of s.old).right (block_of right.now))) }
    ensures sides { IfOk result (λ f. s.new ≡ s.old) }
{
    match block_fault(tables, pass, &mut s.left, left)? {
        Some(fault) => Ok(Some(fault)),
        None => block_fault(tables, pass, &mut s.right, right),
    }
}

/// The first fault of a bicommand, which comes before those of its blocks.
#[cycle(biblock_fault)]
fn bicommand_fault<'a>(
    tables: &Tables<'a>,
    pass: Pass,
    s: &mut Sides<'a, '_>,
    command: &'a BiCommand,
) -> Result<Option<Fault>, Memory>
    ensures fault { IfOk result (λ f. option_map fault_of f
        ≡ alignments.bicommand_fault (tables_seen tables.now) (pass_of pass) (sides_of s.old) (bicommand_of command.now)) }
    ensures sides { IfOk result (λ f. s.new ≡ s.old) }
{
    match flaws_of_biform(tables, s, &command.form)?.fault(pass, command.at) {
        Some(fault) => Ok(Some(fault)),
        None => inner_bifault(tables, pass, s, &command.form),
    }
}

/// The first fault of the commands and blocks of a bicommand.
#[cycle(biblock_fault)]
fn inner_bifault<'a>(
    tables: &Tables<'a>,
    pass: Pass,
    s: &mut Sides<'a, '_>,
    form: &'a BiForm,
) -> Result<Option<Fault>, Memory>
    ensures fault { IfOk result (λ f. option_map fault_of f
        ≡ alignments.inner_bifault (tables_seen tables.now) (pass_of pass) (sides_of s.old) (biform_of form.now)) }
    ensures sides { IfOk result (λ f. s.new ≡ s.old) }
{
    match form {
        BiForm::Split(left, right) => split_fault(tables, pass, s, left, right),
        BiForm::Sync(command) | BiForm::SyncCall(command, _) => joint_fault(
            tables, pass, s, command,
        ),
        BiForm::If(_, _, yes, no) => match biblock_fault(tables, pass, s, yes)? {
            Some(fault) => Ok(Some(fault)),
            None => biblock_fault(tables, pass, s, no),
        },
        BiForm::While(_, body) => biblock_fault(tables, pass, s, body),
        BiForm::Link(_, _) | BiForm::Note(_) => Ok(None),
    }
}

/// The first fault of a block of bicommands.
#[cycle(biblock_fault)]
fn biblock_fault<'a>(
    tables: &Tables<'a>,
    pass: Pass,
    s: &mut Sides<'a, '_>,
    commands: &'a List<BiCommand>,
) -> Result<Option<Fault>, Memory>
    ensures fault { IfOk result (λ f. option_map fault_of f
        ≡ alignments.biblock_fault (tables_seen tables.now) (pass_of pass) (sides_of s.old) (biblock_of commands.now)) }
    ensures sides { IfOk result (λ f. s.new ≡ s.old) }
{
    for command in &commands.items {
        match bicommand_fault(tables, pass, s, command)? {
            Some(fault) => return Ok(Some(fault)),
            None => {}
        }
    }
    Ok(None)
}

/// The first fault of the steps of a weaving.
fn steps_fault<'a>(
    tables: &Tables<'a>,
    pass: Pass,
    s: &mut Sides<'a, '_>,
    steps: &'a List<WeaveStep>,
) -> Result<Option<Fault>, Memory>
    ensures fault { IfOk result (λ f. option_map fault_of f
        ≡ first_in (alignments.step_fault (tables_seen tables.now) (pass_of pass) (sides_of s.old)) (map weave_step_of steps.now)) }
    ensures sides { IfOk result (λ f. s.new ≡ s.old) }
{
    for step in &steps.items {
        match flaws_of_act(tables, s, &step.act)?.fault(pass, step.at) {
            Some(fault) => return Ok(Some(fault)),
            None => {}
        }
    }
    Ok(None)
}

/// The first fault of an alignment.
pub fn align_fault<'a>(
    tables: &Tables<'a>,
    pass: Pass,
    s: &mut Sides<'a, '_>,
    align: &'a Align,
) -> Result<Option<Fault>, Memory>
    ensures fault { IfOk result (λ f. option_map fault_of f
        ≡ alignments.align_fault (tables_seen tables.now) (pass_of pass) (sides_of s.old) (align_of align.now)) }
    ensures sides { IfOk result (λ f. s.new ≡ s.old) }
{
    match align {
        Align::Given(commands) => biblock_fault(tables, pass, s, commands),
        Align::Woven(steps) => steps_fault(tables, pass, s, steps),
    }
}
