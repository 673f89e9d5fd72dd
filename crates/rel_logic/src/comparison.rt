//! Equality of trees.
ghost use Rattle.std.specs.Prelude.{◌≡◌, ◌↔◌, IsTrue};
ghost use Rattle.rel_logic.specs.View.{trm_of, fml_of};

use crate::fol::Fol;
use crate::term::{Term, same_sort};
use rel_list::Boxed;

/// Whether the two terms are one tree.
#[cycle(same_term)]
pub fn same_term(a: &Term, b: &Term) -> bool
    ensures { IsTrue result ↔ (trm_of a.now ≡ trm_of b.now) }
{
    match a {
        Term::Var(n) => matches!(b, Term::Var(m) if n == m),
        Term::Bound(n) => matches!(b, Term::Bound(m) if n == m),
        Term::Int(n) => matches!(b, Term::Int(m) if n == m),
        Term::Add(c, d) => { matches!(b, Term::Add(e, f) if same_boxed(c, e) && same_boxed(d, f)) }
        Term::Sub(c, d) => { matches!(b, Term::Sub(e, f) if same_boxed(c, e) && same_boxed(d, f)) }
        Term::Mul(k, c) => matches!(b, Term::Mul(m, e) if k == m && same_boxed(c, e)),
        Term::Null => matches!(b, Term::Null),
        Term::Sel(c, d) => { matches!(b, Term::Sel(e, f) if same_boxed(c, e) && same_boxed(d, f)) }
        Term::Sto(m, c, d) => {
            matches!(b, Term::Sto(n, e, f) if same_boxed(m, n) && same_boxed(c, e) && same_boxed(d, f))
        }
        Term::Empty => matches!(b, Term::Empty),
        Term::One(c) => matches!(b, Term::One(e) if same_boxed(c, e)),
        Term::Cup(c, d) => { matches!(b, Term::Cup(e, f) if same_boxed(c, e) && same_boxed(d, f)) }
        Term::Cap(c, d) => { matches!(b, Term::Cap(e, f) if same_boxed(c, e) && same_boxed(d, f)) }
        Term::Less(c, d) => {
            matches!(b, Term::Less(e, f) if same_boxed(c, e) && same_boxed(d, f))
        }
        Term::Img(c, d) => { matches!(b, Term::Img(e, f) if same_boxed(c, e) && same_boxed(d, f)) }
        Term::Of(k, c) => matches!(b, Term::Of(m, e) if k == m && same_boxed(c, e)),
        Term::Link(m, c, d) => {
            matches!(b, Term::Link(n, e, f) if same_boxed(m, n) && same_boxed(c, e) && same_boxed(d, f))
        }
    }
}

#[cycle(same_term)]
fn same_boxed(a: &Boxed<Term>, b: &Boxed<Term>) -> bool
    ensures { IsTrue result ↔ (trm_of a.now ≡ trm_of b.now) }
{
    same_term(a.get(), b.get())
}

/// Whether the two formulas are one tree.
#[cycle(same)]
pub fn same(a: &Fol, b: &Fol) -> bool
    ensures { IsTrue result ↔ (fml_of a.now ≡ fml_of b.now) }
{
    match a {
        Fol::True => matches!(b, Fol::True),
        Fol::False => matches!(b, Fol::False),
        Fol::Eq(c, d) => { matches!(b, Fol::Eq(e, f) if same_term(c, e) && same_term(d, f)) }
        Fol::Lt(c, d) => { matches!(b, Fol::Lt(e, f) if same_term(c, e) && same_term(d, f)) }
        Fol::Le(c, d) => { matches!(b, Fol::Le(e, f) if same_term(c, e) && same_term(d, f)) }
        Fol::Member(c, d) => {
            matches!(b, Fol::Member(e, f) if same_term(c, e) && same_term(d, f))
        }
        Fol::Is(k, c) => matches!(b, Fol::Is(m, e) if k == m && same_term(c, e)),
        Fol::Paired(p, c, d) => {
            matches!(b, Fol::Paired(q, e, f) if same_term(p, q) && same_term(c, e) && same_term(d, f))
        }
        Fol::Ext(c, d) => { matches!(b, Fol::Ext(e, f) if same_term(c, e) && same_term(d, f)) }
        Fol::Not(c) => matches!(b, Fol::Not(e) if same_within(c, e)),
        Fol::And(c, d) => { matches!(b, Fol::And(e, f) if same_within(c, e) && same_within(d, f)) }
        Fol::Or(c, d) => { matches!(b, Fol::Or(e, f) if same_within(c, e) && same_within(d, f)) }
        Fol::Imp(c, d) => { matches!(b, Fol::Imp(e, f) if same_within(c, e) && same_within(d, f)) }
        Fol::Every(s, c) => {
            matches!(b, Fol::Every(t, e) if same_sort(*s, *t) && same_within(c, e))
        }
        Fol::Exists(s, c) => {
            matches!(b, Fol::Exists(t, e) if same_sort(*s, *t) && same_within(c, e))
        }
    }
}

#[cycle(same)]
fn same_within(a: &Boxed<Fol>, b: &Boxed<Fol>) -> bool
    ensures { IsTrue result ↔ (fml_of a.now ≡ fml_of b.now) }
{
    same(a.get(), b.get())
}
