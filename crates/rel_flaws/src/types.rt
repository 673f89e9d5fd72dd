//! Types, and what is known of an expression's type.

ghost use Rattle.std.specs.Prelude.{◌≡◌};
ghost use Rattle.rel_lang.specs.View.{type_of};
ghost use Rattle.rel_flaws.specs.Inference as inference;
ghost use Rattle.rel_flaws.specs.View.{type_seen, inferred_of};

use rel_lang::expr::Ty;

/// A type, whose class borrows its name.
#[derive(Clone, Copy, Drop)]
pub enum Type<'a> {
    Int,
    Rgn,
    Class(&'a str),
}

impl<'a> Type<'a> {
    pub fn of(ty: &'a Ty) -> Type<'a>
        ensures { type_seen result ≡ type_of ty.now }
    {
        match ty {
            Ty::Int => Type::Int,
            Ty::Rgn => Type::Rgn,
            Ty::Class(name) => Type::Class(name.as_str()),
        }
    }

    pub fn is_same(self, other: Type<'_>) -> bool
        ensures { result ≡ inference.same_type (type_seen self.entry) (type_seen other.entry) }
    {
        match self {
            Type::Int => matches!(other, Type::Int),
            Type::Rgn => matches!(other, Type::Rgn),
            Type::Class(c) => match other {
                Type::Class(d) => c == d,
                _ => false,
            },
        }
    }

    pub fn is_class(self) -> bool
        ensures { result ≡ inference.is_class_type (type_seen self.entry) }
    {
        matches!(self, Type::Class(_))
    }
}

/// The type of an expression: none where its parts don't fit, every class for null, or one.
#[derive(Clone, Copy, Drop)]
pub enum Inferred<'a> {
    NoType,
    AnyClass,
    Exactly(Type<'a>),
}

impl<'a> Inferred<'a> {
    /// It can stand where this type is needed.
    pub fn fits(self, ty: Type<'_>) -> bool
        ensures { result ≡ inference.fits (inferred_of self.entry) (type_seen ty.entry) }
    {
        match self {
            Inferred::NoType => false,
            Inferred::AnyClass => ty.is_class(),
            Inferred::Exactly(own) => own.is_same(ty),
        }
    }

    pub fn is_reference(self) -> bool
        ensures { result ≡ inference.is_reference (inferred_of self.entry) }
    {
        match self {
            Inferred::NoType => false,
            Inferred::AnyClass => true,
            Inferred::Exactly(own) => own.is_class(),
        }
    }

    /// The two can be compared.
    pub fn compares_with(self, other: Inferred<'_>) -> bool
        ensures { result ≡ inference.have_one_type (inferred_of self.entry) (inferred_of other.entry) }
    {
        match self {
            Inferred::NoType => false,
            Inferred::AnyClass => other.is_reference(),
            Inferred::Exactly(own) => other.fits(own),
        }
    }
}

pub fn typed_where<'a>(holds: bool, ty: Type<'a>) -> Inferred<'a>
    ensures { inferred_of result ≡ inference.typed_where holds (type_seen ty.entry) }
{
    if holds {
        Inferred::Exactly(ty)
    } else {
        Inferred::NoType
    }
}
