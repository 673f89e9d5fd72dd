//! What expressions and tests in code have wrong, and the regions of effects.

ghost use Rattle.std.specs.Prelude.{◌≡◌, IfOk};
ghost use Rattle.rel_lang.specs.Typed as typed;
ghost use Rattle.rel_lang.specs.View.{expression_of, formula_of};
ghost use Rattle.rel_flaws.specs.Inference as inference;
ghost use Rattle.rel_flaws.specs.View.{scope_of, tables_seen, flaws_of, type_seen};

use crate::expression::{has_unknown, infer, is_code, misplaces_old};
use crate::formula::flaws_of_formula;
use crate::kind::Flaws;
use crate::scope::{Scope, Tables};
use crate::types::Type;
use rel_lang::expr::Expr;
use rel_lang::formula::Formula;
use rel_list::Memory;

/// Whether the formula can be a test in code.
fn is_test(p: &Formula) -> bool
    ensures { result ≡ typed.is_test (formula_of p.now) }
{
    match p {
        Formula::True | Formula::False => true,
        Formula::Eq(a, b)
        | Formula::Lt(a, b)
        | Formula::Le(a, b)
        | Formula::Member(a, b)
        | Formula::Subset(a, b) => is_code(a) && is_code(b),
        Formula::Not(p) => is_test(p.get()),
        Formula::And(p, q) | Formula::Or(p, q) | Formula::Implies(p, q) => is_test(p.get())
            && is_test(q.get()),
        Formula::Every(_, _, _, _) | Formula::Exists(_, _, _, _) => false,
    }
}

/// What a test in code has wrong.
pub fn flaws_of_test<'a>(
    tables: &Tables<'a>,
    scope: &mut Scope<'a, '_>,
    p: &'a Formula,
) -> Result<Flaws, Memory>
    ensures flaws { IfOk result (λ f. flaws_of f ≡ inference.flaws_of_test (tables_seen tables.now) (scope_of scope.old) (formula_of p.now)) }
    ensures scope { IfOk result (λ f. scope.new ≡ scope.old) }
{
    let flaws = flaws_of_formula(tables, scope, false, p)?;
    Ok(Flaws {
        not_code: !is_test(p),
        ..flaws
    })
}

/// What an expression in code has wrong, whatever its type.
pub fn flaws_of_code<'a>(tables: &Tables<'a>, scope: &Scope<'a, '_>, e: &Expr) -> Flaws
    ensures { flaws_of result ≡ inference.flaws_of_code (tables_seen tables.now) (scope_of scope.now) (expression_of e.now) }
{
    Flaws {
        unknown: has_unknown(tables, scope, e),
        old_here: misplaces_old(false, e),
        not_code: !is_code(e),
        ..Flaws::none()
    }
}

/// What an expression in code has wrong, which has to be of this type.
pub fn flaws_of_value<'a>(
    tables: &Tables<'a>,
    scope: &Scope<'a, '_>,
    e: &Expr,
    ty: Type<'_>,
) -> Flaws
    ensures { flaws_of result ≡ inference.flaws_of_value (tables_seen tables.now) (scope_of scope.now) (expression_of e.now) (type_seen ty.entry) }
{
    Flaws {
        wrong_type: !infer(tables, scope, e).fits(ty),
        ..flaws_of_code(tables, scope, e)
    }
}

/// What a region of a boundary or of a writes list has wrong.
pub fn flaws_of_region<'a>(tables: &Tables<'a>, scope: &Scope<'a, '_>, region: &Expr) -> Flaws
    ensures { flaws_of result ≡ inference.flaws_of_region (tables_seen tables.now) (scope_of scope.now) (expression_of region.now) }
{
    Flaws {
        unknown: has_unknown(tables, scope, region),
        old_here: misplaces_old(false, region),
        wrong_type: !infer(tables, scope, region).fits(Type::Rgn),
        ..Flaws::none()
    }
}
