//! Terms put for variables and for bound numbers.
ghost use Rattle.std.specs.Prelude.{◌≡◌, ◌↔◌, ◌≤◌, ◌+◌, [], ◌∷◌, IfOk};
ghost use Rattle.rel_logic.specs.declared.substitution.Target.{Target};
ghost use Rattle.rel_logic.specs.View.{trm_of, fml_of};
ghost use Rattle.rel_logic.specs.Bounds.{free_bound_term, free_bound_of};
ghost use Rattle.rel_logic.specs.Syntax.{var, bound};
ghost use Rattle.rel_logic.specs.Substitution.{put_term, put, under, substituted, instantiated};
ghost use Rattle.rel_logic.specs.Places.{place_of};
ghost use Rattle.rel_logic.specs.Truth.{Valuation, value, changed, IsTrueAt};

use crate::fol::Fol;
use crate::term::Term;
use rel_list::{Boxed, Memory, both};

/// What a term is put for.
#[derive(Clone, Copy)]
enum Target {
    Variable(u32),
    Number(u64),
}

impl Target {
    /// The same target, seen from under a quantifier. Memory holds no tree of 2^64 quantifiers.
    fn under(self) -> Result<Target, Memory>
        ensures { IfOk result (λ x. place_of x ≡ under (place_of self)) }
    {
        match self {
            Target::Variable(n) => Ok(Target::Variable(n)),
            Target::Number(n) => match n.checked_add(1) {
                Some(next) => Ok(Target::Number(next)),
                None => Err(Memory),
            },
        }
    }
}

fn put_at_variable(n: u32, x: Target, t: &Term) -> Result<Term, Memory>
    ensures { IfOk result (λ a. trm_of a ≡ put_term (place_of x) (trm_of t.now) (var n)) }
{
    match x {
        Target::Variable(m) if n == m => t.copy(),
        _ => Ok(Term::Var(n)),
    }
}

fn put_at_number(n: u32, x: Target, t: &Term) -> Result<Term, Memory>
    ensures { IfOk result (λ a. trm_of a ≡ put_term (place_of x) (trm_of t.now) (bound n)) }
{
    match x {
        Target::Number(m) if u64::from(n) == m => t.copy(),
        _ => Ok(Term::Bound(n)),
    }
}

#[cycle(put_term)]
fn put_term(a: &Term, x: Target, t: &Term) -> Result<Term, Memory>
    ensures { IfOk result (λ c. trm_of c ≡ put_term (place_of x) (trm_of t.now) (trm_of a.now)) }
{
    match a {
        Term::Var(n) => put_at_variable(*n, x, t),
        Term::Bound(n) => put_at_number(*n, x, t),
        Term::Int(n) => Ok(Term::Int(*n)),
        Term::Add(a, b) => {
            let (a, b) = both(put_boxed(a, x, t), put_boxed(b, x, t))?;
            Ok(Term::Add(a, b))
        }
        Term::Sub(a, b) => {
            let (a, b) = both(put_boxed(a, x, t), put_boxed(b, x, t))?;
            Ok(Term::Sub(a, b))
        }
        Term::Mul(k, a) => Ok(Term::Mul(*k, put_boxed(a, x, t)?)),
        Term::Null => Ok(Term::Null),
        Term::Sel(m, a) => {
            let (m, a) = both(put_boxed(m, x, t), put_boxed(a, x, t))?;
            Ok(Term::Sel(m, a))
        }
        Term::Sto(m, a, b) => {
            let later = both(put_boxed(a, x, t), put_boxed(b, x, t));
            let (m, (a, b)) = both(put_boxed(m, x, t), later)?;
            Ok(Term::Sto(m, a, b))
        }
        Term::Empty => Ok(Term::Empty),
        Term::One(a) => Ok(Term::One(put_boxed(a, x, t)?)),
        Term::Cup(g, h) => {
            let (g, h) = both(put_boxed(g, x, t), put_boxed(h, x, t))?;
            Ok(Term::Cup(g, h))
        }
        Term::Cap(g, h) => {
            let (g, h) = both(put_boxed(g, x, t), put_boxed(h, x, t))?;
            Ok(Term::Cap(g, h))
        }
        Term::Less(g, h) => {
            let (g, h) = both(put_boxed(g, x, t), put_boxed(h, x, t))?;
            Ok(Term::Less(g, h))
        }
        Term::Img(m, g) => {
            let (m, g) = both(put_boxed(m, x, t), put_boxed(g, x, t))?;
            Ok(Term::Img(m, g))
        }
        Term::Of(c, g) => Ok(Term::Of(*c, put_boxed(g, x, t)?)),
        Term::Link(p, a, b) => {
            let later = both(put_boxed(a, x, t), put_boxed(b, x, t));
            let (p, (a, b)) = both(put_boxed(p, x, t), later)?;
            Ok(Term::Link(p, a, b))
        }
    }
}

#[cycle(put_term)]
fn put_boxed(a: &Boxed<Term>, x: Target, t: &Term) -> Result<Boxed<Term>, Memory>
    ensures { IfOk result (λ c. trm_of c ≡ put_term (place_of x) (trm_of t.now) (trm_of a.now)) }
{
    a.beside(put_term(a.get(), x, t)?)
}

fn put_terms(a: &Term, b: &Term, x: Target, t: &Term) -> Result<(Term, Term), Memory>
    ensures { let place = place_of x in
        let closed = trm_of t.now in
        IfOk result (λ p. (trm_of p.0 ≡ put_term place closed (trm_of a.now)) × (trm_of p.1 ≡ put_term place closed (trm_of b.now))) }
{
    both(put_term(a, x, t), put_term(b, x, t))
}

#[cycle(put)]
fn put(f: &Fol, x: Target, t: &Term) -> Result<Fol, Memory>
    ensures { IfOk result (λ g. fml_of g ≡ put (place_of x) (trm_of t.now) (fml_of f.now)) }
{
    match f {
        Fol::True => Ok(Fol::True),
        Fol::False => Ok(Fol::False),
        Fol::Eq(a, b) => {
            let (a, b) = put_terms(a, b, x, t)?;
            Ok(Fol::Eq(a, b))
        }
        Fol::Lt(a, b) => {
            let (a, b) = put_terms(a, b, x, t)?;
            Ok(Fol::Lt(a, b))
        }
        Fol::Le(a, b) => {
            let (a, b) = put_terms(a, b, x, t)?;
            Ok(Fol::Le(a, b))
        }
        Fol::Member(a, g) => {
            let (a, g) = put_terms(a, g, x, t)?;
            Ok(Fol::Member(a, g))
        }
        Fol::Is(c, a) => Ok(Fol::Is(*c, put_term(a, x, t)?)),
        Fol::Paired(p, a, b) => {
            let (p, (a, b)) = both(put_term(p, x, t), put_terms(a, b, x, t))?;
            Ok(Fol::Paired(p, a, b))
        }
        Fol::Ext(p, q) => {
            let (p, q) = put_terms(p, q, x, t)?;
            Ok(Fol::Ext(p, q))
        }
        Fol::Not(f) => Ok(Fol::Not(put_in(f, x, t)?)),
        Fol::And(f, g) => {
            let (f, g) = both(put_in(f, x, t), put_in(g, x, t))?;
            Ok(Fol::And(f, g))
        }
        Fol::Or(f, g) => {
            let (f, g) = both(put_in(f, x, t), put_in(g, x, t))?;
            Ok(Fol::Or(f, g))
        }
        Fol::Imp(f, g) => {
            let (f, g) = both(put_in(f, x, t), put_in(g, x, t))?;
            Ok(Fol::Imp(f, g))
        }
        Fol::Every(sort, f) => Ok(Fol::Every(*sort, put_in(f, x.under()?, t)?)),
        Fol::Exists(sort, f) => Ok(Fol::Exists(*sort, put_in(f, x.under()?, t)?)),
    }
}

#[cycle(put)]
fn put_in(f: &Boxed<Fol>, x: Target, t: &Term) -> Result<Boxed<Fol>, Memory>
    ensures { IfOk result (λ g. fml_of g ≡ put (place_of x) (trm_of t.now) (fml_of f.now)) }
{
    f.beside(put(f.get(), x, t)?)
}

/// `f` with `t`, which is closed, for the variable.
pub fn substitute(f: &Fol, var: u32, t: &Term) -> Result<Fol, Memory>
    requires { free_bound_term (trm_of t.now) ≡ 0 }
    ensures tree { IfOk result (λ g. fml_of g ≡ substituted var (trm_of t.now) (fml_of f.now)) }
    ensures truth { let before = fml_of f.now in
        let term = trm_of t.now in
        IfOk result (λ g. (r : Valuation) → IsTrueAt r [] (fml_of g) ↔ IsTrueAt (changed r var (value r [] term)) [] before) }
{
    put(f, Target::Variable(var), t)
}

/// `body` with `t`, which is closed, for its one free bound number.
pub fn instantiate(body: &Fol, t: &Term) -> Result<Fol, Memory>
    requires closed { free_bound_term (trm_of t.now) ≡ 0 }
    requires one { free_bound_of (fml_of body.now) ≤ 1 }
    ensures tree { IfOk result (λ g. fml_of g ≡ instantiated (trm_of t.now) (fml_of body.now)) }
    ensures truth { let before = fml_of body.now in
        let term = trm_of t.now in
        IfOk result (λ g. (r : Valuation) → IsTrueAt r [] (fml_of g) ↔ IsTrueAt r (value r [] term ∷ []) before) }
{
    put(body, Target::Number(0), t)
}
