//! Types and expressions.

ghost use Rattle.std.specs.Prelude.{◌≡◌, [], ◌∷◌, ◌++◌, OnOk, codes};
ghost use Rattle.rel_lang.specs.Text.{word, named, literally, show_type, show_expression, operation};
ghost use Rattle.rel_lang.specs.View.{type_of, expression_of};
ghost use Rattle.rel_show.specs.Written.{written};

use crate::text::{show_literal, show_name, show_title, show_word};
use rel_lang::expr::{Expr, Ty};
use rel_list::{Boxed, Memory, Name};

pub(crate) fn show_type(out: &mut Vec<u8>, ty: &Ty) -> Result<(), Memory>
    ensures { OnOk result (out.new.items ≡ out.old.items ++ written (show_type (type_of ty.now) ∷ [])) }
{
    match ty {
        Ty::Int => show_word(out, "int"),
        Ty::Rgn => show_word(out, "rgn"),
        Ty::Class(name) => show_name(out, name),
    }
}

#[cycle(show_expression)]
#[tactic(auto, using(crate::proofs::Expressions::expressions))]
pub(crate) fn show_expression(out: &mut Vec<u8>, e: &Expr) -> Result<(), Memory>
    ensures { OnOk result (out.new.items ≡ out.old.items ++ written (show_expression 1 (expression_of e.now))) }
{
    match e {
        Expr::Var(x) => show_name(out, x),
        Expr::Num(n) => show_literal(out, *n),
        Expr::Null => show_word(out, "null"),
        Expr::Empty => show_word(out, "empty"),
        Expr::Alloc => show_word(out, "alloc"),
        Expr::Add(a, b) => {
            show_first(out, a)?;
            show_second(out, "+", b)
        }
        Expr::Sub(a, b) => {
            show_first(out, a)?;
            show_second(out, "-", b)
        }
        Expr::Mul(n, a) => show_multiple(out, *n, a),
        Expr::Field(a, f) => show_applied(out, a, ".", f),
        Expr::Single(a) => show_single(out, a),
        Expr::Union(a, b) => {
            show_first(out, a)?;
            show_second(out, "union", b)
        }
        Expr::Meet(a, b) => {
            show_first(out, a)?;
            show_second(out, "meet", b)
        }
        Expr::Minus(a, b) => {
            show_first(out, a)?;
            show_second(out, "minus", b)
        }
        Expr::Image(a, f) => show_applied(out, a, "@", f),
        Expr::Filter(a, class) => show_applied(out, a, "of", class),
        Expr::Old(a) => show_old(out, a),
    }
}

/// The first operand of an operation.
#[cycle(show_expression)]
#[tactic(auto, using(crate::proofs::Writing::writing))]
fn show_first(out: &mut Vec<u8>, a: &Boxed<Expr>) -> Result<(), Memory>
    ensures { OnOk result (out.new.items ≡ out.old.items ++ written (word (codes "(") ∷ show_expression 1 (expression_of a.now))) }
{
    show_word(out, "(")?;
    show_expression(out, a.get())
}

/// The sign of an operation and its second operand.
#[cycle(show_expression)]
#[tactic(auto, using(crate::proofs::Writing::writing))]
fn show_second(out: &mut Vec<u8>, sign: &str, b: &Boxed<Expr>) -> Result<(), Memory>
    ensures { OnOk result (out.new.items ≡ out.old.items
        ++ written (word sign.now ∷ show_expression 1 (expression_of b.now) ++ word (codes ")") ∷ [])) }
{
    show_word(out, sign)?;
    show_expression(out, b.get())?;
    show_word(out, ")")
}

#[cycle(show_expression)]
#[tactic(auto, using(crate::proofs::Writing::writing))]
fn show_multiple(out: &mut Vec<u8>, n: i128, a: &Boxed<Expr>) -> Result<(), Memory>
    ensures { OnOk result (out.new.items ≡ out.old.items
        ++ written (operation (literally n ∷ []) (codes "*") (show_expression 1 (expression_of a.now)))) }
{
    show_word(out, "(")?;
    show_literal(out, n)?;
    show_second(out, "*", a)
}

/// An operation whose second operand is a name.
#[cycle(show_expression)]
#[tactic(auto, using(crate::proofs::Writing::writing))]
fn show_applied(out: &mut Vec<u8>, a: &Boxed<Expr>, sign: &str, name: &Name) -> Result<(), Memory>
    ensures { OnOk result (out.new.items ≡ out.old.items
        ++ written (operation (show_expression 1 (expression_of a.now)) sign.now (named name.now ∷ []))) }
{
    show_first(out, a)?;
    show_title(out, sign, name)?;
    show_word(out, ")")
}

#[cycle(show_expression)]
#[tactic(auto, using(crate::proofs::Writing::writing))]
fn show_single(out: &mut Vec<u8>, a: &Boxed<Expr>) -> Result<(), Memory>
    ensures { OnOk result (out.new.items ≡ out.old.items
        ++ written (word (codes "{") ∷ show_expression 1 (expression_of a.now) ++ word (codes "}") ∷ [])) }
{
    show_word(out, "{")?;
    show_expression(out, a.get())?;
    show_word(out, "}")
}

#[cycle(show_expression)]
#[tactic(auto, using(crate::proofs::Writing::writing))]
fn show_old(out: &mut Vec<u8>, a: &Boxed<Expr>) -> Result<(), Memory>
    ensures { OnOk result (out.new.items ≡ out.old.items
        ++ written (word (codes "old") ∷ word (codes "(") ∷ show_expression 1 (expression_of a.now) ++ word (codes ")") ∷ [])) }
{
    show_word(out, "old")?;
    show_first(out, a)?;
    show_word(out, ")")
}

/// An operation of two expressions.
#[tactic(auto, using(crate::proofs::Writing::writing))]
pub(crate) fn show_operation(
    out: &mut Vec<u8>,
    e: &Expr,
    sign: &str,
    f: &Expr,
) -> Result<(), Memory>
    ensures { OnOk result (out.new.items ≡ out.old.items
        ++ written (operation (show_expression 1 (expression_of e.now)) sign.now (show_expression 1 (expression_of f.now)))) }
{
    show_word(out, "(")?;
    show_expression(out, e)?;
    show_word(out, sign)?;
    show_expression(out, f)?;
    show_word(out, ")")
}
