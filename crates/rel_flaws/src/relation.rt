//! What relation formulas have wrong.

ghost use Rattle.std.specs.Prelude.{◌≡◌, IfOk};
ghost use Rattle.rel_lang.specs.Syntax as syntax;
ghost use Rattle.rel_lang.specs.View.{expression_of, rel_of};
ghost use Rattle.rel_flaws.specs.Inference as inference;
ghost use Rattle.rel_flaws.specs.View.{scope_of, tables_seen, flaws_of};

use crate::expression::{has_unknown, infer, misplaces_old};
use crate::formula::{flaws_of_binder, flaws_of_formula};
use crate::kind::Flaws;
use crate::scope::{Scope, Tables};
use crate::types::Type;
use rel_lang::expr::{Expr, Side};
use rel_lang::relation::RelFormula;
use rel_list::{Memory, Name};

fn agree<'a>(
    tables: &Tables<'a>,
    l: &Scope<'a, '_>,
    r: &Scope<'a, '_>,
    old: bool,
    a: &Expr,
    b: &Expr,
) -> Flaws
    ensures { flaws_of result ≡ inference.flaws_of_rel (tables_seen tables.now) old (scope_of l.now) (scope_of r.now) (syntax.Agree (expression_of a.now) (expression_of b.now)) }
{
    Flaws {
        unknown: has_unknown(tables, l, a) || has_unknown(tables, r, b),
        old_here: misplaces_old(old, a) || misplaces_old(old, b),
        wrong_type: !infer(tables, l, a).compares_with(infer(tables, r, b)),
        ..Flaws::none()
    }
}

fn images_agree<'a>(
    tables: &Tables<'a>,
    l: &Scope<'a, '_>,
    r: &Scope<'a, '_>,
    old: bool,
    region: &Expr,
    field: &Name,
) -> Flaws
    ensures { flaws_of result ≡ inference.flaws_of_rel (tables_seen tables.now) old (scope_of l.now) (scope_of r.now) (syntax.AgreeImage (expression_of region.now) field.now) }
{
    Flaws {
        unknown: has_unknown(tables, l, region)
            || has_unknown(tables, r, region)
            || tables.field(field.as_str()).is_none(),
        old_here: misplaces_old(old, region),
        wrong_type: !(infer(tables, l, region).fits(Type::Rgn)
            && infer(tables, r, region).fits(Type::Rgn)),
        ..Flaws::none()
    }
}

/// What a relation formula has wrong, where `old` can stand or can't.
#[cycle(flaws_of_rel)]
pub fn flaws_of_rel<'a>(
    tables: &Tables<'a>,
    l: &mut Scope<'a, '_>,
    r: &mut Scope<'a, '_>,
    old: bool,
    p: &'a RelFormula,
) -> Result<Flaws, Memory>
    ensures flaws { IfOk result (λ f. flaws_of f ≡ inference.flaws_of_rel (tables_seen tables.now) old (scope_of l.old) (scope_of r.old) (rel_of p.now)) }
    ensures left { IfOk result (λ f. l.new ≡ l.old) }
    ensures right { IfOk result (λ f. r.new ≡ r.old) }
{
    match p {
        RelFormula::True | RelFormula::False => Ok(Flaws::none()),
        RelFormula::OnLeft(p) => flaws_of_formula(tables, l, old, p),
        RelFormula::OnRight(p) => flaws_of_formula(tables, r, old, p),
        RelFormula::Both(p) => {
            let left = flaws_of_formula(tables, l, old, p)?;
            let right = flaws_of_formula(tables, r, old, p)?;
            Ok(left.either(right))
        }
        RelFormula::Agree(a, b) => Ok(agree(tables, l, r, old, a, b)),
        RelFormula::AgreeImage(region, field) => Ok(images_agree(tables, l, r, old, region, field)),
        RelFormula::Not(p) | RelFormula::Eventually(p) => flaws_of_rel(tables, l, r, old, p.get()),
        RelFormula::And(p, q) | RelFormula::Or(p, q) | RelFormula::Implies(p, q) => {
            let first = flaws_of_rel(tables, l, r, old, p.get())?;
            let second = flaws_of_rel(tables, l, r, old, q.get())?;
            Ok(first.either(second))
        }
        RelFormula::Every(Side::Left, x, class, region, p)
        | RelFormula::Exists(Side::Left, x, class, region, p) => {
            let front = flaws_of_binder(tables, l, old, x, class, region);
            l.quantified.push(x.as_str(), class.as_str())?;
            let body = flaws_of_rel(tables, l, r, old, p.get())?;
            l.quantified.pop();
            Ok(front.either(body))
        }
        RelFormula::Every(Side::Right, x, class, region, p)
        | RelFormula::Exists(Side::Right, x, class, region, p) => {
            let front = flaws_of_binder(tables, r, old, x, class, region);
            r.quantified.push(x.as_str(), class.as_str())?;
            let body = flaws_of_rel(tables, l, r, old, p.get())?;
            r.quantified.pop();
            Ok(front.either(body))
        }
    }
}
