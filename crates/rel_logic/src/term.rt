//! Sorts and terms.
ghost use Rattle.std.specs.Prelude.{◌≡◌, ◌↔◌, IfOk, IsTrue};
ghost use Rattle.rel_logic.specs.View.{sort_of, trm_of};
ghost use Rattle.rel_logic.specs.Sorting.{same_srt};
ghost use Rattle.rel_logic.specs.Bounds.{free_bound_term};

use rel_list::{Boxed, Copies, Memory, both};

#[derive(Clone, Copy, Debug, PartialEq, Eq, Drop)]
pub enum Sort {
    Int,
    Ref,
    Rgn,
    MapI,
    MapR,
    MapG,
    Bij,
}

impl Copies for Sort {
    fn copied(&self) -> Result<Sort, Memory> {
        Ok(*self)
    }
}

pub fn same_sort(a: Sort, b: Sort) -> bool
    ensures { result ≡ same_srt (sort_of a) (sort_of b) }
{
    a == b
}

/// A bound number counts the quantifiers around it, 0 for the innermost.
#[derive(Drop)]
pub enum Term {
    Var(u32),
    Bound(u32),
    Int(i128),
    Add(Boxed<Term>, Boxed<Term>),
    Sub(Boxed<Term>, Boxed<Term>),
    Mul(i128, Boxed<Term>),
    Null,
    /// The value that a map, the first, gives the second.
    Sel(Boxed<Term>, Boxed<Term>),
    /// The first, a map, with the third as its value at the second.
    Sto(Boxed<Term>, Boxed<Term>, Boxed<Term>),
    Empty,
    /// The region of one reference, empty where it is null.
    One(Boxed<Term>),
    Cup(Boxed<Term>, Boxed<Term>),
    Cap(Boxed<Term>, Boxed<Term>),
    Less(Boxed<Term>, Boxed<Term>),
    /// What the first, a map, gives the members of the second, null left out and regions united.
    Img(Boxed<Term>, Boxed<Term>),
    /// The members of the class.
    Of(u32, Boxed<Term>),
    /// The first, a bijection, with a pair of the others, where neither has a partner and they
    /// are of one class.
    Link(Boxed<Term>, Boxed<Term>, Boxed<Term>),
}

impl Term {
    #[cycle(copy_term)]
    pub fn copy(&self) -> Result<Term, Memory>
        ensures { IfOk result (λ t. t ≡ self.now) }
    {
        match self {
            Term::Var(n) => Ok(Term::Var(*n)),
            Term::Bound(n) => Ok(Term::Bound(*n)),
            Term::Int(n) => Ok(Term::Int(*n)),
            Term::Add(a, b) => {
                let (a, b) = both(copy_boxed(a), copy_boxed(b))?;
                Ok(Term::Add(a, b))
            }
            Term::Sub(a, b) => {
                let (a, b) = both(copy_boxed(a), copy_boxed(b))?;
                Ok(Term::Sub(a, b))
            }
            Term::Mul(k, a) => Ok(Term::Mul(*k, copy_boxed(a)?)),
            Term::Null => Ok(Term::Null),
            Term::Sel(m, a) => {
                let (m, a) = both(copy_boxed(m), copy_boxed(a))?;
                Ok(Term::Sel(m, a))
            }
            Term::Sto(m, a, b) => {
                let (m, (a, b)) = both(copy_boxed(m), both(copy_boxed(a), copy_boxed(b)))?;
                Ok(Term::Sto(m, a, b))
            }
            Term::Empty => Ok(Term::Empty),
            Term::One(a) => Ok(Term::One(copy_boxed(a)?)),
            Term::Cup(g, h) => {
                let (g, h) = both(copy_boxed(g), copy_boxed(h))?;
                Ok(Term::Cup(g, h))
            }
            Term::Cap(g, h) => {
                let (g, h) = both(copy_boxed(g), copy_boxed(h))?;
                Ok(Term::Cap(g, h))
            }
            Term::Less(g, h) => {
                let (g, h) = both(copy_boxed(g), copy_boxed(h))?;
                Ok(Term::Less(g, h))
            }
            Term::Img(m, g) => {
                let (m, g) = both(copy_boxed(m), copy_boxed(g))?;
                Ok(Term::Img(m, g))
            }
            Term::Of(c, g) => Ok(Term::Of(*c, copy_boxed(g)?)),
            Term::Link(p, a, b) => {
                let (p, (a, b)) = both(copy_boxed(p), both(copy_boxed(a), copy_boxed(b)))?;
                Ok(Term::Link(p, a, b))
            }
        }
    }

    /// One more than the greatest bound number, or 0.
    pub fn free_bound(&self) -> u64
        ensures { result ≡ free_bound_term (trm_of self.now) }
    {
        match self {
            Term::Var(_) | Term::Int(_) | Term::Null | Term::Empty => 0,
            Term::Bound(n) => u64::from(*n) + 1,
            Term::Mul(_, a) | Term::One(a) | Term::Of(_, a) => a.get().free_bound(),
            Term::Add(a, b)
            | Term::Sub(a, b)
            | Term::Sel(a, b)
            | Term::Cup(a, b)
            | Term::Cap(a, b)
            | Term::Less(a, b)
            | Term::Img(a, b) => a.get().free_bound().max(b.get().free_bound()),
            Term::Sto(a, b, c) | Term::Link(a, b, c) => {
                let later = b.get().free_bound().max(c.get().free_bound());
                a.get().free_bound().max(later)
            }
        }
    }
}

#[cycle(copy_term)]
fn copy_boxed(t: &Boxed<Term>) -> Result<Boxed<Term>, Memory>
    ensures { IfOk result (λ c. c ≡ t.now) }
{
    t.beside(t.get().copy()?)
}
