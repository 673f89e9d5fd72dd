//! What commands have wrong.

ghost use Rattle.std.specs.Prelude.{◌≡◌, IfOk, map, drop, option_map};
ghost use Rattle.rel_lang.specs.State.{find_field};
ghost use Rattle.rel_lang.specs.View.{expression_of, decl_of, form_of};
ghost use Rattle.rel_flaws.specs.Code as commands;
ghost use Rattle.rel_flaws.specs.View.{scope_of, tables_seen, flaws_of, inferred_of, type_seen};
ghost use Rattle.rel_flaws.specs.CodeView.{callee_of, code_of};
ghost use Rattle.rel_flaws.specs.Parts.{assign_flaws, new_flaws, argument_flaws, call_flaws};

use crate::expression::infer;
use crate::formula::flaws_of_formula;
use crate::index::Index;
use crate::kind::Flaws;
use crate::scope::{Scope, Tables};
use crate::types::{Inferred, Type};
use crate::uses::{flaws_of_code, flaws_of_test, flaws_of_value};
use rel_lang::bundle::Decl;
use rel_lang::command::Form;
use rel_lang::expr::Expr;
use rel_list::{List, Memory};

/// What a call needs to know of a procedure or a method.
#[derive(Clone, Copy, Drop)]
pub struct Callee<'a> {
    pub params: &'a List<Decl>,
    pub result: Type<'a>,
}

/// What code can name: variables, procedures and an interface's methods. The code of a module may name the methods and call none of them.
#[derive(Drop)]
pub struct Code<'a, 's> {
    pub scope: Scope<'a, 's>,
    pub procs: &'s Index<'a, Callee<'a>>,
    pub methods: &'s Index<'a, Callee<'a>>,
    pub may_call: bool,
}

impl<'a, 's> Code<'a, 's> {
    /// The procedure or method of this name.
    pub fn find_callee(&self, name: &str) -> Option<Callee<'a>>
        ensures { option_map (callee_of name.now) result ≡ commands.find_callee name.now (code_of self.now) }
    {
        match self.procs.get(name) {
            Some(callee) => Some(callee),
            None => self.methods.get(name),
        }
    }
}

pub fn unknown_where(holds: bool) -> Flaws
    ensures { flaws_of result ≡ commands.unknown_where holds }
{
    Flaws {
        unknown: holds,
        ..Flaws::none()
    }
}

/// What a variable that is assigned something of this type has wrong.
fn flaws_of_target<'a>(scope: &Scope<'a, '_>, x: &str, value: Inferred<'_>) -> Flaws
    ensures { flaws_of result ≡ commands.flaws_of_target (scope_of scope.now) x.now (inferred_of value.entry) }
{
    match scope.find(x) {
        None => Flaws {
            unknown: true,
            wrong_type: true,
            ..Flaws::none()
        },
        Some(seen) => Flaws {
            target: !seen.is_assignable,
            wrong_type: !value.fits(seen.ty),
            ..Flaws::none()
        },
    }
}

/// What a variable that refers to an object of the class has wrong.
fn flaws_of_reference<'a>(scope: &Scope<'a, '_>, y: &str, class: &str) -> Flaws
    ensures { flaws_of result ≡ commands.flaws_of_reference (scope_of scope.now) y.now class.now }
{
    match scope.find(y) {
        None => Flaws {
            unknown: true,
            wrong_type: true,
            ..Flaws::none()
        },
        Some(seen) => Flaws {
            wrong_type: !seen.ty.is_same(Type::Class(class)),
            ..Flaws::none()
        },
    }
}

fn flaws_of_load<'a>(tables: &Tables<'a>, scope: &Scope<'a, '_>, x: &str, y: &str, f: &str) -> Flaws
    ensures { flaws_of result ≡ commands.flaws_of_load (tables_seen tables.now) (scope_of scope.now) x.now y.now (find_field (tables_seen tables.now) f.now) }
{
    match tables.field(f) {
        None => unknown_where(true),
        Some(field) => {
            let reference = flaws_of_reference(scope, y, field.class);
            reference.either(flaws_of_target(scope, x, Inferred::Exactly(field.ty)))
        }
    }
}

fn flaws_of_store<'a>(
    tables: &Tables<'a>,
    scope: &Scope<'a, '_>,
    y: &str,
    f: &str,
    e: &Expr,
) -> Flaws
    ensures { flaws_of result ≡ commands.flaws_of_store (tables_seen tables.now) (scope_of scope.now) y.now (expression_of e.now) (find_field (tables_seen tables.now) f.now) }
{
    match tables.field(f) {
        None => unknown_where(true),
        Some(field) => {
            let reference = flaws_of_reference(scope, y, field.class);
            reference.either(flaws_of_value(tables, scope, e, field.ty))
        }
    }
}

fn flaws_of_assign<'a>(tables: &Tables<'a>, scope: &Scope<'a, '_>, x: &str, e: &Expr) -> Flaws
    ensures { flaws_of result ≡ assign_flaws (tables_seen tables.now) (scope_of scope.now) x.now (expression_of e.now) }
{
    let target = flaws_of_target(scope, x, infer(tables, scope, e));
    target.either(flaws_of_code(tables, scope, e))
}

fn flaws_of_new<'a>(tables: &Tables<'a>, scope: &Scope<'a, '_>, x: &str, class: &str) -> Flaws
    ensures { flaws_of result ≡ new_flaws (tables_seen tables.now) (scope_of scope.now) x.now class.now }
{
    let known = unknown_where(!tables.has_class(class));
    known.either(flaws_of_target(scope, x, Inferred::Exactly(Type::Class(class))))
}

fn flaws_of_argument<'a>(
    tables: &Tables<'a>,
    scope: &Scope<'a, '_>,
    e: &Expr,
    params: &'a List<Decl>,
    i: usize,
) -> Flaws
    ensures { flaws_of result ≡ argument_flaws (tables_seen tables.now) (scope_of scope.now) (expression_of e.now) (map decl_of (drop i params.now)) }
{
    if i < params.len() {
        flaws_of_value(tables, scope, e, Type::of(&params.at(i).ty))
    } else {
        flaws_of_code(tables, scope, e)
    }
}

/// What the arguments of a call have wrong, each of the type of its parameter where there is one.
fn flaws_of_arguments<'a>(
    tables: &Tables<'a>,
    scope: &Scope<'a, '_>,
    args: &List<Expr>,
    params: &'a List<Decl>,
) -> Flaws
    ensures { flaws_of result ≡ commands.flaws_of_arguments (tables_seen tables.now) (scope_of scope.now) (map expression_of args.now) (map decl_of params.now) }
{
    let mut flaws = Flaws::none();
    let mut i = args.len();
    while i > 0 {
        i -= 1;
        flaws = flaws_of_argument(tables, scope, args.at(i), params, i).either(flaws);
    }
    flaws
}

// What a call of a known procedure or method has wrong, its target and its arguments apart.
#[tactic(auto, using(crate::proofs::Callees::same_lengths))]
fn flaws_of_visibility(may_call: bool, p: &str, args: &List<Expr>, params: &List<Decl>) -> Flaws
    ensures { flaws_of result ≡ call_flaws may_call p.now (map expression_of args.now) (map decl_of params.now) }
{
    Flaws {
        not_visible: !may_call || p == "main",
        wrong_arity: args.len() != params.len(),
        ..Flaws::none()
    }
}

fn flaws_of_call<'a>(
    tables: &Tables<'a>,
    code: &Code<'a, '_>,
    x: &str,
    p: &str,
    args: &List<Expr>,
) -> Flaws
    ensures { flaws_of result ≡ commands.flaws_of_call (tables_seen tables.now) (code_of code.now) x.now p.now (map expression_of args.now) (commands.find_callee p.now (code_of code.now)) }
{
    match code.find_callee(p) {
        None => unknown_where(true),
        Some(callee) => {
            let call = flaws_of_visibility(code.may_call, p, args, callee.params);
            let target = flaws_of_target(&code.scope, x, Inferred::Exactly(callee.result));
            let arguments = flaws_of_arguments(tables, &code.scope, args, callee.params);
            call.either(target.either(arguments))
        }
    }
}

/// What a command has wrong, its blocks apart.
pub fn flaws_of_form<'a>(
    tables: &Tables<'a>,
    code: &mut Code<'a, '_>,
    form: &'a Form,
) -> Result<Flaws, Memory>
    ensures flaws { IfOk result (λ f. flaws_of f ≡ commands.flaws_of_form (tables_seen tables.now) (code_of code.old) (form_of form.now)) }
    ensures code { IfOk result (λ f. code.new ≡ code.old) }
{
    match form {
        Form::Skip => Ok(Flaws::none()),
        Form::Assign(x, e) => Ok(flaws_of_assign(tables, &code.scope, x.as_str(), e)),
        Form::Load(x, y, f) => Ok(flaws_of_load(
            tables,
            &code.scope,
            x.as_str(),
            y.as_str(),
            f.as_str(),
        )),
        Form::Store(y, f, e) => Ok(flaws_of_store(tables, &code.scope, y.as_str(), f.as_str(), e)),
        Form::New(x, class) => Ok(flaws_of_new(tables, &code.scope, x.as_str(), class.as_str())),
        Form::Call(x, p, args) => Ok(flaws_of_call(tables, code, x.as_str(), p.as_str(), args)),
        Form::If(p, _, _) => flaws_of_test(tables, &mut code.scope, p),
        Form::While(p, q, _) => {
            let test = flaws_of_test(tables, &mut code.scope, p)?;
            let invariant = flaws_of_formula(tables, &mut code.scope, true, q)?;
            Ok(test.either(invariant))
        }
    }
}
