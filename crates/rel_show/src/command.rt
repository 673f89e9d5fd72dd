//! Commands.

ghost use Rattle.std.specs.Prelude.{◌≡◌, [], ◌∷◌, ◌++◌, map, OnOk, codes};
ghost use Rattle.rel_lang.specs.Syntax.{Expression};
ghost use Rattle.rel_lang.specs.Text.{word, named, show_expression, assigned, listed};
ghost use Rattle.rel_lang.specs.Text.{show_form, show_command, show_commands, show_block};
ghost use Rattle.rel_lang.specs.View.{expression_of, form_of, command_of, block_of};
ghost use Rattle.rel_show.specs.Written.{written};

use crate::expr::show_expression;
use crate::formula::show_behind;
use crate::several::{Element, show_listed};
use crate::text::{show_name, show_title, show_word};
use rel_lang::command::{Command, Form};
use rel_lang::expr::Expr;
use rel_list::{List, Memory, Name};

struct Arguments;

impl Element for Arguments {
    type Item = Expr;

    ghost Tree = { Expression };

    ghost view = { expression_of };

    ghost marks = { λ _. show_expression 1 };

    fn show(&self, out: &mut Vec<u8>, e: &Expr) -> Result<(), Memory> {
        show_expression(out, e)
    }
}

#[cycle(show_commands)]
#[tactic(auto, using(crate::proofs::Commands::commands))]
fn show_form(out: &mut Vec<u8>, form: &Form) -> Result<(), Memory>
    ensures { OnOk result (out.new.items ≡ out.old.items ++ written (show_form 1 (form_of form.now))) }
{
    match form {
        Form::Skip => show_word(out, "skip"),
        Form::Assign(x, e) => show_assigned(out, x, e),
        Form::Load(x, y, f) => show_load(out, x, y, f),
        Form::Store(y, f, e) => show_store(out, y, f, e),
        Form::New(x, class) => show_new(out, x, class),
        Form::Call(x, procedure, arguments) => show_call(out, x, procedure, arguments),
        Form::If(test, yes, no) => {
            show_behind(out, "if", test)?;
            show_block(out, yes)?;
            show_word(out, "else")?;
            show_block(out, no)
        }
        Form::While(test, invariant, body) => {
            show_behind(out, "while", test)?;
            show_behind(out, "inv", invariant)?;
            show_block(out, body)
        }
    }
}

/// Each command with a semicolon behind it.
#[cycle(show_commands)]
pub(crate) fn show_commands(out: &mut Vec<u8>, commands: &List<Command>) -> Result<(), Memory>
    ensures { OnOk result (out.new.items ≡ out.old.items ++ written (show_commands 1 1 (block_of commands.now))) }
{
    for command in &commands.items {
        show_form(out, &command.form)?;
        show_word(out, ";")?;
    }
    Ok(())
}

#[cycle(show_commands)]
#[tactic(auto, using(crate::proofs::Writing::writing))]
pub(crate) fn show_block(out: &mut Vec<u8>, commands: &List<Command>) -> Result<(), Memory>
    ensures { OnOk result (out.new.items ≡ out.old.items ++ written (show_block 1 (block_of commands.now))) }
{
    show_word(out, "{")?;
    show_commands(out, commands)?;
    show_word(out, "}")
}

#[tactic(auto, using(crate::proofs::Commands::commands))]
pub(crate) fn show_command(out: &mut Vec<u8>, command: &Command) -> Result<(), Memory>
    ensures { OnOk result (out.new.items ≡ out.old.items ++ written (show_command 1 (command_of command.now))) }
{
    show_form(out, &command.form)
}

/// That a variable or a field takes the value.
#[tactic(auto, using(crate::proofs::Writing::writing))]
fn show_assigned(out: &mut Vec<u8>, x: &Name, e: &Expr) -> Result<(), Memory>
    ensures { OnOk result (out.new.items ≡ out.old.items ++ written (assigned x.now (show_expression 1 (expression_of e.now)))) }
{
    show_name(out, x)?;
    show_word(out, ":=")?;
    show_expression(out, e)
}

#[tactic(auto, using(crate::proofs::Writing::writing))]
fn show_load(out: &mut Vec<u8>, x: &Name, y: &Name, f: &Name) -> Result<(), Memory>
    ensures { OnOk result (out.new.items ≡ out.old.items
        ++ written (assigned x.now (named y.now ∷ word (codes ".") ∷ named f.now ∷ []))) }
{
    show_name(out, x)?;
    show_title(out, ":=", y)?;
    show_title(out, ".", f)
}

#[tactic(auto, using(crate::proofs::Writing::writing))]
fn show_store(out: &mut Vec<u8>, y: &Name, f: &Name, e: &Expr) -> Result<(), Memory>
    ensures { OnOk result (out.new.items ≡ out.old.items
        ++ written (named y.now ∷ word (codes ".") ∷ assigned f.now (show_expression 1 (expression_of e.now)))) }
{
    show_name(out, y)?;
    show_word(out, ".")?;
    show_assigned(out, f, e)
}

#[tactic(auto, using(crate::proofs::Writing::writing))]
fn show_new(out: &mut Vec<u8>, x: &Name, class: &Name) -> Result<(), Memory>
    ensures { OnOk result (out.new.items ≡ out.old.items
        ++ written (assigned x.now (word (codes "new") ∷ named class.now ∷ []))) }
{
    show_name(out, x)?;
    show_word(out, ":=")?;
    show_title(out, "new", class)
}

#[tactic(auto, using(crate::proofs::Writing::writing))]
fn show_call(
    out: &mut Vec<u8>,
    x: &Name,
    procedure: &Name,
    arguments: &List<Expr>,
) -> Result<(), Memory>
    ensures { OnOk result (out.new.items ≡ out.old.items
        ++ written (assigned x.now (word (codes "call") ∷ named procedure.now ∷ word (codes "(")
        ∷ listed (show_expression 1) (map expression_of arguments.now) ++ word (codes ")") ∷ []))) }
{
    show_name(out, x)?;
    show_word(out, ":=")?;
    show_title(out, "call", procedure)?;
    show_word(out, "(")?;
    show_listed(out, &Arguments, arguments)?;
    show_word(out, ")")
}
