//! Formulas about one state.

ghost use Rattle.std.specs.Prelude.{◌≡◌, ◌↔◌, IfOk, IsTrue};
ghost use Rattle.rel_lang.specs.View.{formula_of};

use crate::expr::{Expr, copy_operands, same_expr};
use rel_list::{Boxed, Copies, Memory, Name, both};

/// A formula. A quantifier has the variable, its class, the region that it ranges over, and the body.
#[derive(Drop)]
pub enum Formula {
    True,
    False,
    Eq(Expr, Expr),
    Lt(Expr, Expr),
    Le(Expr, Expr),
    Member(Expr, Expr),
    Subset(Expr, Expr),
    Not(Boxed<Formula>),
    And(Boxed<Formula>, Boxed<Formula>),
    Or(Boxed<Formula>, Boxed<Formula>),
    Implies(Boxed<Formula>, Boxed<Formula>),
    Every(Name, Name, Expr, Boxed<Formula>),
    Exists(Name, Name, Expr, Boxed<Formula>),
}

impl Formula {
    #[cycle(copy_formula)]
    pub fn copy(&self) -> Result<Formula, Memory>
        ensures { IfOk result (λ p. p ≡ self.now) }
    {
        match self {
            Formula::True => Ok(Formula::True),
            Formula::False => Ok(Formula::False),
            Formula::Eq(e, f) => {
                let (e, f) = copy_operands(e, f)?;
                Ok(Formula::Eq(e, f))
            }
            Formula::Lt(e, f) => {
                let (e, f) = copy_operands(e, f)?;
                Ok(Formula::Lt(e, f))
            }
            Formula::Le(e, f) => {
                let (e, f) = copy_operands(e, f)?;
                Ok(Formula::Le(e, f))
            }
            Formula::Member(e, f) => {
                let (e, f) = copy_operands(e, f)?;
                Ok(Formula::Member(e, f))
            }
            Formula::Subset(e, f) => {
                let (e, f) = copy_operands(e, f)?;
                Ok(Formula::Subset(e, f))
            }
            Formula::Not(p) => Ok(Formula::Not(copy_boxed(p)?)),
            Formula::And(p, q) => {
                let (p, q) = both(copy_boxed(p), copy_boxed(q))?;
                Ok(Formula::And(p, q))
            }
            Formula::Or(p, q) => {
                let (p, q) = both(copy_boxed(p), copy_boxed(q))?;
                Ok(Formula::Or(p, q))
            }
            Formula::Implies(p, q) => {
                let (p, q) = both(copy_boxed(p), copy_boxed(q))?;
                Ok(Formula::Implies(p, q))
            }
            Formula::Every(x, class, region, p) => {
                let ((x, class, region), p) = both(copy_bound(x, class, region), copy_boxed(p))?;
                Ok(Formula::Every(x, class, region, p))
            }
            Formula::Exists(x, class, region, p) => {
                let ((x, class, region), p) = both(copy_bound(x, class, region), copy_boxed(p))?;
                Ok(Formula::Exists(x, class, region, p))
            }
        }
    }
}

#[cycle(copy_formula)]
fn copy_boxed(p: &Boxed<Formula>) -> Result<Boxed<Formula>, Memory>
    ensures { IfOk result (λ c. c ≡ p.now) }
{
    p.beside(p.get().copy()?)
}

/// Copies of the variable of a quantifier, its class and its region.
pub(crate) fn copy_bound(
    x: &Name,
    class: &Name,
    region: &Expr,
) -> Result<(Name, Name, Expr), Memory>
    ensures { IfOk result (λ b. (b.0 ≡ x.now) × (b.1 ≡ class.now) × (b.2 ≡ region.now)) }
{
    let ((x, class), region) = both(both(x.copy(), class.copy()), region.copy())?;
    Ok((x, class, region))
}

impl Copies for Formula {
    fn copied(&self) -> Result<Formula, Memory> {
        self.copy()
    }
}

/// Whether the two are equal.
#[cycle(same_formula)]
pub fn same_formula(a: &Formula, b: &Formula) -> bool
    ensures { IsTrue result ↔ (formula_of a.now ≡ formula_of b.now) }
{
    match a {
        Formula::True => matches!(b, Formula::True),
        Formula::False => matches!(b, Formula::False),
        Formula::Eq(e, f) => matches!(b, Formula::Eq(g, h) if same_expr(e, g) && same_expr(f, h)),
        Formula::Lt(e, f) => matches!(b, Formula::Lt(g, h) if same_expr(e, g) && same_expr(f, h)),
        Formula::Le(e, f) => matches!(b, Formula::Le(g, h) if same_expr(e, g) && same_expr(f, h)),
        Formula::Member(e, f) =>
            matches!(b, Formula::Member(g, h) if same_expr(e, g) && same_expr(f, h)),
        Formula::Subset(e, f) =>
            matches!(b, Formula::Subset(g, h) if same_expr(e, g) && same_expr(f, h)),
        Formula::Not(p) => matches!(b, Formula::Not(q) if same_boxed(p, q)),
        Formula::And(p, q) =>
            matches!(b, Formula::And(r, s) if same_boxed(p, r) && same_boxed(q, s)),
        Formula::Or(p, q) => matches!(b, Formula::Or(r, s) if same_boxed(p, r) && same_boxed(q, s)),
        Formula::Implies(p, q) =>
            matches!(b, Formula::Implies(r, s) if same_boxed(p, r) && same_boxed(q, s)),
        Formula::Every(x, c, e, p) => {
            matches!(b, Formula::Every(y, d, f, q) if x.is(y) && c.is(d) && same_expr(e, f) && same_boxed(p, q))
        }
        Formula::Exists(x, c, e, p) => {
            matches!(b, Formula::Exists(y, d, f, q) if x.is(y) && c.is(d) && same_expr(e, f) && same_boxed(p, q))
        }
    }
}

#[cycle(same_formula)]
fn same_boxed(a: &Boxed<Formula>, b: &Boxed<Formula>) -> bool
    ensures { IsTrue result ↔ (formula_of a.now ≡ formula_of b.now) }
{
    same_formula(a.get(), b.get())
}
