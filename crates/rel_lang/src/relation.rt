//! Formulas about two states and a bijection of their references.

ghost use Rattle.std.specs.Prelude.{◌≡◌, IfOk};

use crate::expr::{Expr, Side, copy_operands};
use crate::formula::{Formula, copy_bound};
use rel_list::{Boxed, Copies, Memory, Name, both};

/// A relation formula. `Agree` relates the value of the first on the left to that of the second on the right. A quantifier has the side
/// of its variable, the variable, its class, the region that it ranges over, and the body.
#[derive(Drop)]
pub enum RelFormula {
    True,
    False,
    OnLeft(Formula),
    OnRight(Formula),
    Both(Formula),
    Agree(Expr, Expr),
    AgreeImage(Expr, Name),
    Not(Boxed<RelFormula>),
    And(Boxed<RelFormula>, Boxed<RelFormula>),
    Or(Boxed<RelFormula>, Boxed<RelFormula>),
    Implies(Boxed<RelFormula>, Boxed<RelFormula>),
    Every(Side, Name, Name, Expr, Boxed<RelFormula>),
    Exists(Side, Name, Name, Expr, Boxed<RelFormula>),
    Eventually(Boxed<RelFormula>),
}

impl RelFormula {
    #[cycle(copy_rel)]
    pub fn copy(&self) -> Result<RelFormula, Memory>
        ensures { IfOk result (λ r. r ≡ self.now) }
    {
        match self {
            RelFormula::True => Ok(RelFormula::True),
            RelFormula::False => Ok(RelFormula::False),
            RelFormula::OnLeft(p) => Ok(RelFormula::OnLeft(p.copy()?)),
            RelFormula::OnRight(p) => Ok(RelFormula::OnRight(p.copy()?)),
            RelFormula::Both(p) => Ok(RelFormula::Both(p.copy()?)),
            RelFormula::Agree(e, f) => {
                let (e, f) = copy_operands(e, f)?;
                Ok(RelFormula::Agree(e, f))
            }
            RelFormula::AgreeImage(e, f) => {
                let (e, f) = both(e.copy(), f.copy())?;
                Ok(RelFormula::AgreeImage(e, f))
            }
            RelFormula::Not(r) => Ok(RelFormula::Not(copy_boxed(r)?)),
            RelFormula::And(r, s) => {
                let (r, s) = both(copy_boxed(r), copy_boxed(s))?;
                Ok(RelFormula::And(r, s))
            }
            RelFormula::Or(r, s) => {
                let (r, s) = both(copy_boxed(r), copy_boxed(s))?;
                Ok(RelFormula::Or(r, s))
            }
            RelFormula::Implies(r, s) => {
                let (r, s) = both(copy_boxed(r), copy_boxed(s))?;
                Ok(RelFormula::Implies(r, s))
            }
            RelFormula::Every(side, x, class, region, r) => {
                let ((x, class, region), r) = both(copy_bound(x, class, region), copy_boxed(r))?;
                Ok(RelFormula::Every(*side, x, class, region, r))
            }
            RelFormula::Exists(side, x, class, region, r) => {
                let ((x, class, region), r) = both(copy_bound(x, class, region), copy_boxed(r))?;
                Ok(RelFormula::Exists(*side, x, class, region, r))
            }
            RelFormula::Eventually(r) => Ok(RelFormula::Eventually(copy_boxed(r)?)),
        }
    }
}

#[cycle(copy_rel)]
fn copy_boxed(r: &Boxed<RelFormula>) -> Result<Boxed<RelFormula>, Memory>
    ensures { IfOk result (λ c. c ≡ r.now) }
{
    r.beside(r.get().copy()?)
}

impl Copies for RelFormula {
    fn copied(&self) -> Result<RelFormula, Memory> {
        self.copy()
    }
}
