//! The quantifiers around a part of a formula.

ghost use Rattle.std.specs.Prelude.{◌≡◌, ◌+◌, length, IfOk};
ghost use Rattle.rel_lang.specs.View.{side_of};
ghost use Rattle.rel_encode.specs.Places.{binds, is_bound, deeper, found_under, bijection_found};
ghost use Rattle.rel_encode.specs.BindersView.{binding_of, binders_of, found_of};

use rel_lang::expr::Side;
use rel_list::Memory;

/// What a quantifier binds: a name of one side, with its class, or the bijection.
#[derive(Clone, Copy)]
pub enum Binder<'a> {
    Left(&'a str, &'a str),
    Right(&'a str, &'a str),
    Bijection,
}

impl<'a> Binder<'a> {
    /// Whether it binds this name on this side.
    fn binds(&self, side: Side, name: &str) -> bool
        ensures { result ≡ binds (side_of side) (binding_of self.now) name.now }
    {
        match side {
            Side::Left => matches!(self, Binder::Left(x, _) if name == *x),
            Side::Right => matches!(self, Binder::Right(x, _) if name == *x),
        }
    }
}

/// The number of what a quantifier binds, or the number of quantifiers around.
#[derive(Clone, Copy)]
pub enum Found {
    Inside(u32),
    Outside(u32),
}

fn one_more(n: u32) -> Result<u32, Memory>
    ensures { IfOk result (λ m. m ≡ n + 1) }
{
    match n.checked_add(1) {
        Some(m) => Ok(m),
        None => Err(Memory),
    }
}

impl Found {
    /// Seen from under one more quantifier.
    fn deeper(self) -> Result<Found, Memory>
        ensures { IfOk result (λ f. found_of f ≡ deeper (found_of self)) }
    {
        match self {
            Found::Inside(n) => Ok(Found::Inside(one_more(n)?)),
            Found::Outside(n) => Ok(Found::Outside(one_more(n)?)),
        }
    }
}

/// The quantifiers, the innermost first.
#[derive(Clone, Copy)]
pub enum Binders<'a> {
    Outside,
    Under(Binder<'a>, &'a Binders<'a>),
}

impl<'a> Binders<'a> {
    /// Where the name of this side stands. The innermost of a name counts.
    pub fn find(&self, side: Side, name: &str) -> Result<Found, Memory>
        ensures { IfOk result (λ f. found_of f ≡ found_under (side_of side) (binders_of self.now) name.now) }
    {
        match self {
            Binders::Outside => Ok(Found::Outside(0)),
            Binders::Under(binder, outer) => {
                if binder.binds(side, name) {
                    Ok(Found::Inside(0))
                } else {
                    outer.find(side, name)?.deeper()
                }
            }
        }
    }

    /// Whether a quantifier binds the name on this side.
    pub fn has(&self, side: Side, name: &str) -> bool
        ensures { result ≡ is_bound (side_of side) (binders_of self.now) name.now }
    {
        match self {
            Binders::Outside => false,
            Binders::Under(binder, outer) => binder.binds(side, name) || outer.has(side, name),
        }
    }

    /// Where the bijection stands.
    pub fn bijection(&self) -> Result<Found, Memory>
        ensures { IfOk result (λ f. found_of f ≡ bijection_found (binders_of self.now)) }
    {
        match self {
            Binders::Outside => Ok(Found::Outside(0)),
            Binders::Under(Binder::Bijection, _) => Ok(Found::Inside(0)),
            Binders::Under(_, outer) => outer.bijection()?.deeper(),
        }
    }

    /// The number of the quantifiers.
    pub fn depth(&self) -> Result<u32, Memory>
        ensures { IfOk result (λ n. n ≡ length (binders_of self.now)) }
    {
        match self {
            Binders::Outside => Ok(0),
            Binders::Under(_, outer) => one_more(outer.depth()?),
        }
    }
}
