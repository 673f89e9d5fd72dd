//! Formulas.
ghost use Rattle.std.specs.Prelude.{◌≡◌, IfOk};
ghost use Rattle.rel_logic.specs.View.{fml_of};
ghost use Rattle.rel_logic.specs.Bounds.{free_bound_of};

use crate::term::{Sort, Term};
use rel_list::{Boxed, Copies, Memory, both};

#[derive(Drop)]
pub enum Fol {
    True,
    False,
    Eq(Term, Term),
    Lt(Term, Term),
    Le(Term, Term),
    /// The first lies in the second, a region.
    Member(Term, Term),
    /// The term isn't null and has the class.
    Is(u32, Term),
    /// The first, a bijection, pairs the second with the third.
    Paired(Term, Term, Term),
    /// The second bijection has every pair of the first.
    Ext(Term, Term),
    Not(Boxed<Fol>),
    And(Boxed<Fol>, Boxed<Fol>),
    Or(Boxed<Fol>, Boxed<Fol>),
    Imp(Boxed<Fol>, Boxed<Fol>),
    Every(Sort, Boxed<Fol>),
    Exists(Sort, Boxed<Fol>),
}

fn copy_terms(a: &Term, b: &Term) -> Result<(Term, Term), Memory>
    ensures { IfOk result (λ p. (p.0 ≡ a.now) × (p.1 ≡ b.now)) }
{
    both(a.copy(), b.copy())
}

impl Fol {
    #[cycle(copy_fol)]
    pub fn copy(&self) -> Result<Fol, Memory>
        ensures { IfOk result (λ f. f ≡ self.now) }
    {
        match self {
            Fol::True => Ok(Fol::True),
            Fol::False => Ok(Fol::False),
            Fol::Eq(a, b) => {
                let (a, b) = copy_terms(a, b)?;
                Ok(Fol::Eq(a, b))
            }
            Fol::Lt(a, b) => {
                let (a, b) = copy_terms(a, b)?;
                Ok(Fol::Lt(a, b))
            }
            Fol::Le(a, b) => {
                let (a, b) = copy_terms(a, b)?;
                Ok(Fol::Le(a, b))
            }
            Fol::Member(a, g) => {
                let (a, g) = copy_terms(a, g)?;
                Ok(Fol::Member(a, g))
            }
            Fol::Is(c, a) => Ok(Fol::Is(*c, a.copy()?)),
            Fol::Paired(p, a, b) => {
                let (p, (a, b)) = both(p.copy(), copy_terms(a, b))?;
                Ok(Fol::Paired(p, a, b))
            }
            Fol::Ext(p, q) => {
                let (p, q) = copy_terms(p, q)?;
                Ok(Fol::Ext(p, q))
            }
            Fol::Not(f) => Ok(Fol::Not(copy_boxed(f)?)),
            Fol::And(f, g) => {
                let (f, g) = both(copy_boxed(f), copy_boxed(g))?;
                Ok(Fol::And(f, g))
            }
            Fol::Or(f, g) => {
                let (f, g) = both(copy_boxed(f), copy_boxed(g))?;
                Ok(Fol::Or(f, g))
            }
            Fol::Imp(f, g) => {
                let (f, g) = both(copy_boxed(f), copy_boxed(g))?;
                Ok(Fol::Imp(f, g))
            }
            Fol::Every(sort, f) => Ok(Fol::Every(*sort, copy_boxed(f)?)),
            Fol::Exists(sort, f) => Ok(Fol::Exists(*sort, copy_boxed(f)?)),
        }
    }
}

#[cycle(copy_fol)]
fn copy_boxed(f: &Boxed<Fol>) -> Result<Boxed<Fol>, Memory>
    ensures { IfOk result (λ c. c ≡ f.now) }
{
    f.beside(f.get().copy()?)
}

impl Copies for Fol {
    fn copied(&self) -> Result<Fol, Memory> {
        self.copy()
    }
}

/// One more than the greatest free bound number, or 0.
pub fn free_bound(f: &Fol) -> u64
    ensures { result ≡ free_bound_of (fml_of f.now) }
{
    match f {
        Fol::True | Fol::False => 0,
        Fol::Eq(a, b) | Fol::Lt(a, b) | Fol::Le(a, b) | Fol::Member(a, b) | Fol::Ext(a, b) => a
            .free_bound()
            .max(b.free_bound()),
        Fol::Is(_, a) => a.free_bound(),
        Fol::Paired(p, a, b) => p.free_bound().max(a.free_bound().max(b.free_bound())),
        Fol::Not(f) => free_bound(f.get()),
        Fol::And(f, g) | Fol::Or(f, g) | Fol::Imp(f, g) => {
            free_bound(f.get()).max(free_bound(g.get()))
        }
        Fol::Every(_, f) | Fol::Exists(_, f) => free_bound(f.get()).saturating_sub(1),
    }
}
