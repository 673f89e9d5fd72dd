//! What expressions have wrong, and their types.

ghost use Rattle.std.specs.Prelude.{◌≡◌};
ghost use Rattle.rel_lang.specs.Typed as typed;
ghost use Rattle.rel_lang.specs.View.{expression_of};
ghost use Rattle.rel_flaws.specs.Inference as inference;
ghost use Rattle.rel_flaws.specs.View.{scope_of, tables_seen, inferred_of};

use crate::scope::{Scope, Tables};
use crate::types::{Inferred, Type, typed_where};
use rel_lang::expr::Expr;

/// Whether a variable, a field or a class isn't declared.
pub fn has_unknown(tables: &Tables<'_>, scope: &Scope<'_, '_>, e: &Expr) -> bool
    ensures { result ≡ inference.has_unknown (tables_seen tables.now) (scope_of scope.now) (expression_of e.now) }
{
    match e {
        Expr::Var(x) => scope.find(x.as_str()).is_none(),
        Expr::Num(_) | Expr::Null | Expr::Empty | Expr::Alloc => false,
        Expr::Add(a, b)
        | Expr::Sub(a, b)
        | Expr::Union(a, b)
        | Expr::Meet(a, b)
        | Expr::Minus(a, b) => has_unknown(tables, scope, a.get())
            || has_unknown(tables, scope, b.get()),
        Expr::Mul(_, a) | Expr::Single(a) | Expr::Old(a) => has_unknown(tables, scope, a.get()),
        Expr::Field(a, f) | Expr::Image(a, f) => has_unknown(tables, scope, a.get())
            || tables.field(f.as_str()).is_none(),
        Expr::Filter(a, class) => has_unknown(tables, scope, a.get())
            || !tables.has_class(class.as_str()),
    }
}

/// Whether `old` stands where it can't (the flag says whether it can here), or inside another one.
pub fn misplaces_old(old: bool, e: &Expr) -> bool
    ensures { result ≡ inference.misplaces_old old (expression_of e.now) }
{
    match e {
        Expr::Var(_) | Expr::Num(_) | Expr::Null | Expr::Empty | Expr::Alloc => false,
        Expr::Add(a, b)
        | Expr::Sub(a, b)
        | Expr::Union(a, b)
        | Expr::Meet(a, b)
        | Expr::Minus(a, b) => misplaces_old(old, a.get()) || misplaces_old(old, b.get()),
        Expr::Mul(_, a)
        | Expr::Single(a)
        | Expr::Field(a, _)
        | Expr::Image(a, _)
        | Expr::Filter(a, _) => misplaces_old(old, a.get()),
        Expr::Old(a) => !old || misplaces_old(false, a.get()),
    }
}

/// The type of an expression.
pub fn infer<'a>(tables: &Tables<'a>, scope: &Scope<'a, '_>, e: &Expr) -> Inferred<'a>
    ensures { inferred_of result ≡ inference.infer (tables_seen tables.now) (scope_of scope.now) (expression_of e.now) }
{
    match e {
        Expr::Var(x) => scope.type_of(x.as_str()),
        Expr::Num(_) => Inferred::Exactly(Type::Int),
        Expr::Null => Inferred::AnyClass,
        Expr::Empty | Expr::Alloc => Inferred::Exactly(Type::Rgn),
        Expr::Add(a, b) | Expr::Sub(a, b) => {
            let a = infer(tables, scope, a.get());
            let b = infer(tables, scope, b.get());
            typed_where(a.fits(Type::Int) && b.fits(Type::Int), Type::Int)
        }
        Expr::Mul(_, a) => typed_where(infer(tables, scope, a.get()).fits(Type::Int), Type::Int),
        Expr::Field(a, f) => tables.type_of_field(f.as_str(), infer(tables, scope, a.get())),
        Expr::Single(a) => typed_where(infer(tables, scope, a.get()).is_reference(), Type::Rgn),
        Expr::Union(a, b) | Expr::Meet(a, b) | Expr::Minus(a, b) => {
            let a = infer(tables, scope, a.get());
            let b = infer(tables, scope, b.get());
            typed_where(a.fits(Type::Rgn) && b.fits(Type::Rgn), Type::Rgn)
        }
        Expr::Image(a, f) => tables.type_of_image(f.as_str(), infer(tables, scope, a.get())),
        Expr::Filter(a, _) => typed_where(infer(tables, scope, a.get()).fits(Type::Rgn), Type::Rgn),
        Expr::Old(a) => infer(tables, scope, a.get()),
    }
}

/// Whether the expression can stand in code.
pub fn is_code(e: &Expr) -> bool
    ensures { result ≡ typed.is_code (expression_of e.now) }
{
    match e {
        Expr::Var(_) | Expr::Num(_) | Expr::Null | Expr::Empty => true,
        Expr::Alloc | Expr::Field(_, _) | Expr::Image(_, _) | Expr::Filter(_, _) | Expr::Old(_) =>
            false,
        Expr::Add(a, b)
        | Expr::Sub(a, b)
        | Expr::Union(a, b)
        | Expr::Meet(a, b)
        | Expr::Minus(a, b) => is_code(a.get()) && is_code(b.get()),
        Expr::Mul(_, a) | Expr::Single(a) => is_code(a.get()),
    }
}
