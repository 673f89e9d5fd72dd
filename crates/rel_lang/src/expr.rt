//! Types and expressions.

ghost use Rattle.std.specs.Prelude.{◌≡◌, ◌↔◌, IfOk, IsTrue, map};
ghost use Rattle.rel_lang.specs.View.{expression_of};

use rel_list::{Boxed, Copies, List, Memory, Name, both};

/// The type of a variable, a field or a result.
#[derive(Debug, Drop)]
pub enum Ty {
    /// The whole numbers.
    Int,
    /// Finite sets of references.
    Rgn,
    /// Null and the references of the class of this name.
    Class(Name),
}

/// The left or the right one of two programs.
#[derive(Clone, Copy, Debug, PartialEq, Eq, Drop)]
pub enum Side {
    Left,
    Right,
}

/// An expression. The operands of `Field`, `Image` and `Filter` are followed by a field's name, and `Filter`'s by a class's.
#[derive(Drop)]
pub enum Expr {
    Var(Name),
    Num(i128),
    Null,
    Empty,
    Alloc,
    Add(Boxed<Expr>, Boxed<Expr>),
    Sub(Boxed<Expr>, Boxed<Expr>),
    Mul(i128, Boxed<Expr>),
    Field(Boxed<Expr>, Name),
    Single(Boxed<Expr>),
    Union(Boxed<Expr>, Boxed<Expr>),
    Meet(Boxed<Expr>, Boxed<Expr>),
    Minus(Boxed<Expr>, Boxed<Expr>),
    Image(Boxed<Expr>, Name),
    Filter(Boxed<Expr>, Name),
    Old(Boxed<Expr>),
}

impl Ty {
    pub fn copy(&self) -> Result<Ty, Memory>
        ensures { IfOk result (λ t. t ≡ self.now) }
    {
        match self {
            Ty::Int => Ok(Ty::Int),
            Ty::Rgn => Ok(Ty::Rgn),
            Ty::Class(name) => Ok(Ty::Class(name.copy()?)),
        }
    }
}

impl Copies for Ty {
    fn copied(&self) -> Result<Ty, Memory> {
        self.copy()
    }
}

impl Copies for Side {
    fn copied(&self) -> Result<Side, Memory> {
        Ok(*self)
    }
}

impl Expr {
    #[cycle(copy_expr)]
    pub fn copy(&self) -> Result<Expr, Memory>
        ensures { IfOk result (λ e. e ≡ self.now) }
    {
        match self {
            Expr::Var(name) => Ok(Expr::Var(name.copy()?)),
            Expr::Num(n) => Ok(Expr::Num(*n)),
            Expr::Null => Ok(Expr::Null),
            Expr::Empty => Ok(Expr::Empty),
            Expr::Alloc => Ok(Expr::Alloc),
            Expr::Add(a, b) => {
                let (a, b) = both(copy_boxed(a), copy_boxed(b))?;
                Ok(Expr::Add(a, b))
            }
            Expr::Sub(a, b) => {
                let (a, b) = both(copy_boxed(a), copy_boxed(b))?;
                Ok(Expr::Sub(a, b))
            }
            Expr::Mul(n, a) => Ok(Expr::Mul(*n, copy_boxed(a)?)),
            Expr::Field(a, f) => {
                let (a, f) = both(copy_boxed(a), f.copy())?;
                Ok(Expr::Field(a, f))
            }
            Expr::Single(a) => Ok(Expr::Single(copy_boxed(a)?)),
            Expr::Union(a, b) => {
                let (a, b) = both(copy_boxed(a), copy_boxed(b))?;
                Ok(Expr::Union(a, b))
            }
            Expr::Meet(a, b) => {
                let (a, b) = both(copy_boxed(a), copy_boxed(b))?;
                Ok(Expr::Meet(a, b))
            }
            Expr::Minus(a, b) => {
                let (a, b) = both(copy_boxed(a), copy_boxed(b))?;
                Ok(Expr::Minus(a, b))
            }
            Expr::Image(a, f) => {
                let (a, f) = both(copy_boxed(a), f.copy())?;
                Ok(Expr::Image(a, f))
            }
            Expr::Filter(a, class) => {
                let (a, class) = both(copy_boxed(a), class.copy())?;
                Ok(Expr::Filter(a, class))
            }
            Expr::Old(a) => Ok(Expr::Old(copy_boxed(a)?)),
        }
    }
}

#[cycle(copy_expr)]
fn copy_boxed(e: &Boxed<Expr>) -> Result<Boxed<Expr>, Memory>
    ensures { IfOk result (λ c. c ≡ e.now) }
{
    e.beside(e.get().copy()?)
}

/// Copies of two expressions.
pub(crate) fn copy_operands(e: &Expr, f: &Expr) -> Result<(Expr, Expr), Memory>
    ensures { IfOk result (λ p. (p.0 ≡ e.now) × (p.1 ≡ f.now)) }
{
    both(e.copy(), f.copy())
}

impl Copies for Expr {
    fn copied(&self) -> Result<Expr, Memory> {
        self.copy()
    }
}

/// Whether the two are equal.
#[cycle(same_expr)]
pub fn same_expr(a: &Expr, b: &Expr) -> bool
    ensures { IsTrue result ↔ (expression_of a.now ≡ expression_of b.now) }
{
    match a {
        Expr::Var(x) => matches!(b, Expr::Var(y) if x.is(y)),
        Expr::Num(m) => matches!(b, Expr::Num(n) if *m == *n),
        Expr::Null => matches!(b, Expr::Null),
        Expr::Empty => matches!(b, Expr::Empty),
        Expr::Alloc => matches!(b, Expr::Alloc),
        Expr::Add(a, c) => matches!(b, Expr::Add(b, d) if same_boxed(a, b) && same_boxed(c, d)),
        Expr::Sub(a, c) => matches!(b, Expr::Sub(b, d) if same_boxed(a, b) && same_boxed(c, d)),
        Expr::Mul(m, a) => matches!(b, Expr::Mul(n, b) if *m == *n && same_boxed(a, b)),
        Expr::Field(a, f) => matches!(b, Expr::Field(b, g) if same_boxed(a, b) && f.is(g)),
        Expr::Single(a) => matches!(b, Expr::Single(b) if same_boxed(a, b)),
        Expr::Union(a, c) => matches!(b, Expr::Union(b, d) if same_boxed(a, b) && same_boxed(c, d)),
        Expr::Meet(a, c) => matches!(b, Expr::Meet(b, d) if same_boxed(a, b) && same_boxed(c, d)),
        Expr::Minus(a, c) => matches!(b, Expr::Minus(b, d) if same_boxed(a, b) && same_boxed(c, d)),
        Expr::Image(a, f) => matches!(b, Expr::Image(b, g) if same_boxed(a, b) && f.is(g)),
        Expr::Filter(a, c) => matches!(b, Expr::Filter(b, d) if same_boxed(a, b) && c.is(d)),
        Expr::Old(a) => matches!(b, Expr::Old(b) if same_boxed(a, b)),
    }
}

#[cycle(same_expr)]
fn same_boxed(a: &Boxed<Expr>, b: &Boxed<Expr>) -> bool
    ensures { IsTrue result ↔ (expression_of a.now ≡ expression_of b.now) }
{
    same_expr(a.get(), b.get())
}

/// Whether the two lists are equal.
#[tactic(auto, using(crate::proofs::Same::same_lists))]
pub(crate) fn same_exprs(a: &List<Expr>, b: &List<Expr>) -> bool
    ensures { IsTrue result ↔ (map expression_of a.now ≡ map expression_of b.now) }
{
    if a.len() != b.len() {
        return false;
    }
    for i in 0..a.len() {
        if !same_expr(a.at(i), b.at(i)) {
            return false;
        }
    }
    true
}
