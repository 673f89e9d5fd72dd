//! Commands.

ghost use Rattle.std.specs.Prelude.{◌≡◌, ◌↔◌, IfOk, IsTrue};
ghost use Rattle.rel_lang.specs.Syntax.{without_at, form_without_at};
ghost use Rattle.rel_lang.specs.View.{form_of, block_of};

use crate::copies::push_copy;
use crate::expr::{Expr, same_expr, same_exprs};
use crate::formula::{Formula, same_formula};
use rel_list::{Copies, List, Memory, Name, both};

/// A command, and the byte where it begins.
#[cycle(command)]
#[derive(Drop)]
pub struct Command {
    pub at: u32,
    pub form: Form,
}

/// What a command does. `Load(x, y, f)` is `x := y . f`, `Store(y, f, e)` is `y . f := e`, and `New` and `Call` begin with the variable that they assign.
#[cycle(command)]
#[derive(Drop)]
pub enum Form {
    Skip,
    Assign(Name, Expr),
    Load(Name, Name, Name),
    Store(Name, Name, Expr),
    New(Name, Name),
    Call(Name, Name, List<Expr>),
    If(Formula, List<Command>, List<Command>),
    /// The test, the invariant and the body.
    While(Formula, Formula, List<Command>),
}

impl Command {
    #[cycle(copy_command)]
    pub fn copy(&self) -> Result<Command, Memory>
        ensures { IfOk result (λ c. c ≡ self.now) }
    {
        Ok(Command {
            at: self.at,
            form: self.form.copy()?,
        })
    }
}

impl Copies for Command {
    fn copied(&self) -> Result<Command, Memory> {
        self.copy()
    }
}

impl Form {
    #[cycle(copy_command)]
    pub fn copy(&self) -> Result<Form, Memory>
        ensures { IfOk result (λ f. f ≡ self.now) }
    {
        match self {
            Form::Skip => Ok(Form::Skip),
            Form::Assign(x, e) => {
                let (x, e) = both(x.copy(), e.copy())?;
                Ok(Form::Assign(x, e))
            }
            Form::Load(x, y, f) => {
                let (x, (y, f)) = both(x.copy(), both(y.copy(), f.copy()))?;
                Ok(Form::Load(x, y, f))
            }
            Form::Store(y, f, e) => {
                let ((y, f), e) = both(both(y.copy(), f.copy()), e.copy())?;
                Ok(Form::Store(y, f, e))
            }
            Form::New(x, class) => {
                let (x, class) = both(x.copy(), class.copy())?;
                Ok(Form::New(x, class))
            }
            Form::Call(x, procedure, arguments) => {
                let names = both(x.copy(), procedure.copy());
                let ((x, procedure), arguments) = both(names, arguments.copied())?;
                Ok(Form::Call(x, procedure, arguments))
            }
            Form::If(test, yes, no) => {
                let blocks = both(copy_block(yes), copy_block(no));
                let (test, (yes, no)) = both(test.copy(), blocks)?;
                Ok(Form::If(test, yes, no))
            }
            Form::While(test, invariant, body) => {
                let formulas = both(test.copy(), invariant.copy());
                let ((test, invariant), body) = both(formulas, copy_block(body))?;
                Ok(Form::While(test, invariant, body))
            }
        }
    }
}

#[cycle(copy_command)]
fn copy_block(commands: &List<Command>) -> Result<List<Command>, Memory>
    ensures { IfOk result (λ c. c ≡ commands.now) }
{
    let mut copies = commands.empty_beside();
    for command in &commands.items {
        push_copy(&mut copies, command.copy())?;
    }
    Ok(copies)
}

/// Whether the two are equal but for `at`.
#[cycle(same_commands)]
#[tactic(auto, using(crate::proofs::Same::same_lists))]
pub fn same_commands(a: &List<Command>, b: &List<Command>) -> bool
    ensures { IsTrue result ↔ (without_at (block_of a.now) ≡ without_at (block_of b.now)) }
{
    if a.len() != b.len() {
        return false;
    }
    for i in 0..a.len() {
        if !same_form(&a.at(i).form, &b.at(i).form) {
            return false;
        }
    }
    true
}

#[cycle(same_commands)]
fn same_form(a: &Form, b: &Form) -> bool
    ensures { IsTrue result ↔ (form_without_at (form_of a.now) ≡ form_without_at (form_of b.now)) }
{
    match a {
        Form::Skip => matches!(b, Form::Skip),
        Form::Assign(x, e) => matches!(b, Form::Assign(y, f) if x.is(y) && same_expr(e, f)),
        Form::Load(x, y, f) => matches!(b, Form::Load(z, w, g) if x.is(z) && y.is(w) && f.is(g)),
        Form::Store(x, f, e) =>
            matches!(b, Form::Store(y, g, h) if x.is(y) && f.is(g) && same_expr(e, h)),
        Form::New(x, c) => matches!(b, Form::New(y, d) if x.is(y) && c.is(d)),
        Form::Call(x, p, es) =>
            matches!(b, Form::Call(y, q, fs) if x.is(y) && p.is(q) && same_exprs(es, fs)),
        Form::If(p, c, d) => {
            matches!(b, Form::If(q, e, f) if same_formula(p, q) && same_commands(c, e) && same_commands(d, f))
        }
        Form::While(p, i, c) => {
            matches!(b, Form::While(q, j, d) if same_formula(p, q) && same_formula(i, j) && same_commands(c, d))
        }
    }
}
