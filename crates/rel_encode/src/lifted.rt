//! Terms under quantifiers.

ghost use Rattle.std.specs.Prelude.{◌≡◌, ◌+◌, IfOk};
ghost use Rattle.rel_logic.specs.View.{trm_of};
ghost use Rattle.rel_encode.specs.Terms.{lifted};

use rel_list::{Boxed, Memory, both};
use rel_logic::term::Term;

fn lifted_number(n: u32, k: u32) -> Result<u32, Memory>
    ensures { IfOk result (λ m. m ≡ n + k) }
{
    match n.checked_add(k) {
        Some(sum) => Ok(sum),
        None => Err(Memory),
    }
}

/// The term under `k` more quantifiers.
#[cycle(lifted)]
pub fn lifted(t: &Term, k: u32) -> Result<Term, Memory>
    ensures { IfOk result (λ u. trm_of u ≡ lifted k (trm_of t.now)) }
{
    match t {
        Term::Var(n) => Ok(Term::Var(*n)),
        Term::Bound(n) => Ok(Term::Bound(lifted_number(*n, k)?)),
        Term::Int(n) => Ok(Term::Int(*n)),
        Term::Add(a, b) => {
            let (a, b) = both(lifted_boxed(a, k), lifted_boxed(b, k))?;
            Ok(Term::Add(a, b))
        }
        Term::Sub(a, b) => {
            let (a, b) = both(lifted_boxed(a, k), lifted_boxed(b, k))?;
            Ok(Term::Sub(a, b))
        }
        Term::Mul(n, a) => Ok(Term::Mul(*n, lifted_boxed(a, k)?)),
        Term::Null => Ok(Term::Null),
        Term::Sel(m, a) => {
            let (m, a) = both(lifted_boxed(m, k), lifted_boxed(a, k))?;
            Ok(Term::Sel(m, a))
        }
        Term::Sto(m, a, b) => {
            let later = both(lifted_boxed(a, k), lifted_boxed(b, k));
            let (m, (a, b)) = both(lifted_boxed(m, k), later)?;
            Ok(Term::Sto(m, a, b))
        }
        Term::Empty => Ok(Term::Empty),
        Term::One(a) => Ok(Term::One(lifted_boxed(a, k)?)),
        Term::Cup(g, h) => {
            let (g, h) = both(lifted_boxed(g, k), lifted_boxed(h, k))?;
            Ok(Term::Cup(g, h))
        }
        Term::Cap(g, h) => {
            let (g, h) = both(lifted_boxed(g, k), lifted_boxed(h, k))?;
            Ok(Term::Cap(g, h))
        }
        Term::Less(g, h) => {
            let (g, h) = both(lifted_boxed(g, k), lifted_boxed(h, k))?;
            Ok(Term::Less(g, h))
        }
        Term::Img(m, g) => {
            let (m, g) = both(lifted_boxed(m, k), lifted_boxed(g, k))?;
            Ok(Term::Img(m, g))
        }
        Term::Of(c, g) => Ok(Term::Of(*c, lifted_boxed(g, k)?)),
        Term::Link(p, a, b) => {
            let later = both(lifted_boxed(a, k), lifted_boxed(b, k));
            let (p, (a, b)) = both(lifted_boxed(p, k), later)?;
            Ok(Term::Link(p, a, b))
        }
    }
}

#[cycle(lifted)]
fn lifted_boxed(t: &Boxed<Term>, k: u32) -> Result<Boxed<Term>, Memory>
    ensures { IfOk result (λ u. trm_of u ≡ lifted k (trm_of t.now)) }
{
    t.beside(lifted(t.get(), k)?)
}
