//! The first fault of a block.

ghost use Rattle.std.specs.Prelude.{◌≡◌, option_map, IfOk};
ghost use Rattle.rel_lang.specs.View.{form_of, command_of, block_of};
ghost use Rattle.rel_flaws.specs.Code as definition;
ghost use Rattle.rel_flaws.specs.CodeView.{code_of};
ghost use Rattle.rel_flaws.specs.View.{tables_seen, pass_of, fault_of};

use crate::code::{Code, flaws_of_form};
use crate::kind::{Fault, Pass};
use crate::scope::Tables;
use rel_lang::command::{Command, Form};
use rel_list::{List, Memory};

/// The first fault of a command, which comes before those of its blocks.
#[cycle(block_fault)]
pub fn command_fault<'a>(
    tables: &Tables<'a>,
    pass: Pass,
    code: &mut Code<'a, '_>,
    command: &'a Command,
) -> Result<Option<Fault>, Memory>
    ensures fault { IfOk result (λ f. option_map fault_of f
        ≡ definition.command_fault (tables_seen tables.now) (pass_of pass) (code_of code.old) (command_of command.now)) }
    ensures code { IfOk result (λ f. code.new ≡ code.old) }
{
    match flaws_of_form(tables, code, &command.form)?.fault(pass, command.at) {
        Some(fault) => Ok(Some(fault)),
        None => inner_fault(tables, pass, code, &command.form),
    }
}

/// The first fault of the blocks of a command.
#[cycle(block_fault)]
pub fn inner_fault<'a>(
    tables: &Tables<'a>,
    pass: Pass,
    code: &mut Code<'a, '_>,
    form: &'a Form,
) -> Result<Option<Fault>, Memory>
    ensures fault { IfOk result (λ f. option_map fault_of f
        ≡ definition.inner_fault (tables_seen tables.now) (pass_of pass) (code_of code.old) (form_of form.now)) }
    ensures code { IfOk result (λ f. code.new ≡ code.old) }
{
    match form {
        Form::If(_, yes, no) => match block_fault(tables, pass, code, yes)? {
            Some(fault) => Ok(Some(fault)),
            None => block_fault(tables, pass, code, no),
        },
        Form::While(_, _, body) => block_fault(tables, pass, code, body),
        _ => Ok(None),
    }
}

/// The first fault of a block.
#[cycle(block_fault)]
pub fn block_fault<'a>(
    tables: &Tables<'a>,
    pass: Pass,
    code: &mut Code<'a, '_>,
    commands: &'a List<Command>,
) -> Result<Option<Fault>, Memory>
    ensures fault { IfOk result (λ f. option_map fault_of f
        ≡ definition.block_fault (tables_seen tables.now) (pass_of pass) (code_of code.old) (block_of commands.now)) }
    ensures code { IfOk result (λ f. code.new ≡ code.old) }
{
    for command in &commands.items {
        match command_fault(tables, pass, code, command)? {
            Some(fault) => return Ok(Some(fault)),
            None => {}
        }
    }
    Ok(None)
}
