//! What formulas have wrong.

ghost use Rattle.std.specs.Prelude.{◌≡◌, ◌&&◌, ◌||◌, not, false, IfOk};
ghost use Rattle.rel_lang.specs.Syntax as syntax;
ghost use Rattle.rel_lang.specs.View.{expression_of, formula_of};
ghost use Rattle.rel_flaws.specs.Flaws.{flawless};
ghost use Rattle.rel_flaws.specs.Inference as inference;
ghost use Rattle.rel_flaws.specs.Parts.{binder_flaws};
ghost use Rattle.rel_flaws.specs.View.{scope_of, tables_seen, flaws_of, type_seen};

use crate::expression::{has_unknown, infer, misplaces_old};
use crate::kind::Flaws;
use crate::scope::{Scope, Tables};
use crate::types::Type;
use rel_lang::expr::Expr;
use rel_lang::formula::Formula;
use rel_list::{Memory, Name};

/// Two operands, which fit one another or don't.
pub fn flaws_of_operands<'a>(
    tables: &Tables<'a>,
    scope: &Scope<'a, '_>,
    old: bool,
    a: &Expr,
    b: &Expr,
    fit: bool,
) -> Flaws
    ensures { flaws_of result ≡ record flawless {
      unknown = inference.has_unknown (tables_seen tables.now) (scope_of scope.now) (expression_of a.now)
          || inference.has_unknown (tables_seen tables.now) (scope_of scope.now) (expression_of b.now);
      old_here = inference.misplaces_old old (expression_of a.now) || inference.misplaces_old old (expression_of b.now);
      wrong_type = not fit;
    } }
{
    Flaws {
        unknown: has_unknown(tables, scope, a) || has_unknown(tables, scope, b),
        old_here: misplaces_old(old, a) || misplaces_old(old, b),
        wrong_type: !fit,
        ..Flaws::none()
    }
}

/// Both are of this type.
pub fn both_fit<'a>(
    tables: &Tables<'a>,
    scope: &Scope<'a, '_>,
    a: &Expr,
    b: &Expr,
    ty: Type<'_>,
) -> bool
    ensures { result ≡ (inference.fits (inference.infer (tables_seen tables.now) (scope_of scope.now) (expression_of a.now)) (type_seen ty.entry)
        && inference.fits (inference.infer (tables_seen tables.now) (scope_of scope.now) (expression_of b.now)) (type_seen ty.entry)) }
{
    infer(tables, scope, a).fits(ty) && infer(tables, scope, b).fits(ty)
}

fn are_equal<'a>(tables: &Tables<'a>, scope: &Scope<'a, '_>, old: bool, a: &Expr, b: &Expr) -> Flaws
    ensures { flaws_of result ≡ inference.flaws_of_formula (tables_seen tables.now) old (scope_of scope.now) (syntax.Eq (expression_of a.now) (expression_of b.now)) }
{
    let fit = infer(tables, scope, a).compares_with(infer(tables, scope, b));
    flaws_of_operands(tables, scope, old, a, b, fit)
}

fn is_less<'a>(tables: &Tables<'a>, scope: &Scope<'a, '_>, old: bool, a: &Expr, b: &Expr) -> Flaws
    ensures { flaws_of result ≡ inference.flaws_of_formula (tables_seen tables.now) old (scope_of scope.now) (syntax.Lt (expression_of a.now) (expression_of b.now)) }
{
    flaws_of_operands(
        tables,
        scope,
        old,
        a,
        b,
        both_fit(tables, scope, a, b, Type::Int),
    )
}

fn is_member<'a>(tables: &Tables<'a>, scope: &Scope<'a, '_>, old: bool, a: &Expr, b: &Expr) -> Flaws
    ensures { flaws_of result ≡ inference.flaws_of_formula (tables_seen tables.now) old (scope_of scope.now) (syntax.Member (expression_of a.now) (expression_of b.now)) }
{
    let fit = infer(tables, scope, a).is_reference() && infer(tables, scope, b).fits(Type::Rgn);
    flaws_of_operands(tables, scope, old, a, b, fit)
}

fn is_subset<'a>(tables: &Tables<'a>, scope: &Scope<'a, '_>, old: bool, a: &Expr, b: &Expr) -> Flaws
    ensures { flaws_of result ≡ inference.flaws_of_formula (tables_seen tables.now) old (scope_of scope.now) (syntax.Subset (expression_of a.now) (expression_of b.now)) }
{
    flaws_of_operands(
        tables,
        scope,
        old,
        a,
        b,
        both_fit(tables, scope, a, b, Type::Rgn),
    )
}

/// What a formula has wrong, where `old` can stand or can't.
#[cycle(flaws_of_formula)]
pub fn flaws_of_formula<'a>(
    tables: &Tables<'a>,
    scope: &mut Scope<'a, '_>,
    old: bool,
    p: &'a Formula,
) -> Result<Flaws, Memory>
    ensures flaws { IfOk result (λ f. flaws_of f ≡ inference.flaws_of_formula (tables_seen tables.now) old (scope_of scope.old) (formula_of p.now)) }
    ensures scope { IfOk result (λ f. scope.new ≡ scope.old) }
{
    match p {
        Formula::True | Formula::False => Ok(Flaws::none()),
        Formula::Eq(a, b) => Ok(are_equal(tables, scope, old, a, b)),
        Formula::Lt(a, b) | Formula::Le(a, b) => Ok(is_less(tables, scope, old, a, b)),
        Formula::Member(a, b) => Ok(is_member(tables, scope, old, a, b)),
        Formula::Subset(a, b) => Ok(is_subset(tables, scope, old, a, b)),
        Formula::Not(p) => flaws_of_formula(tables, scope, old, p.get()),
        Formula::And(p, q) | Formula::Or(p, q) | Formula::Implies(p, q) => {
            let first = flaws_of_formula(tables, scope, old, p.get())?;
            let second = flaws_of_formula(tables, scope, old, q.get())?;
            Ok(first.either(second))
        }
        Formula::Every(x, class, region, p) | Formula::Exists(x, class, region, p) => {
            let front = flaws_of_binder(tables, scope, old, x, class, region);
            scope.quantified.push(x.as_str(), class.as_str())?;
            let body = flaws_of_formula(tables, scope, old, p.get())?;
            scope.quantified.pop();
            Ok(front.either(body))
        }
    }
}

/// What the name, the class and the region of a quantifier have wrong.
pub fn flaws_of_binder<'a>(
    tables: &Tables<'a>,
    scope: &Scope<'a, '_>,
    old: bool,
    x: &Name,
    class: &Name,
    region: &Expr,
) -> Flaws
    ensures { flaws_of result ≡ binder_flaws (tables_seen tables.now) old (scope_of scope.now) x.now class.now (expression_of region.now) }
{
    Flaws {
        twice: scope.find(x.as_str()).is_some(),
        unknown: !tables.has_class(class.as_str()) || has_unknown(tables, scope, region),
        old_here: misplaces_old(old, region),
        wrong_type: !infer(tables, scope, region).fits(Type::Rgn),
        ..Flaws::none()
    }
}
