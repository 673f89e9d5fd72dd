//! The kinds of fault that a text or its bundle can have.

/// What isn't a token: a character that begins none, or a number that no literal may have.
#[derive(Clone, Copy, Debug, PartialEq, Eq, Drop)]
pub enum LexKind {
    BadChar,
    WideLiteral,
}

/// What can be wrong with the types of a bundle, in the order that decides at one place.
#[derive(Clone, Copy, Debug, PartialEq, Eq, Drop)]
pub enum TypeKind {
    /// A name is declared again.
    Twice,
    /// A name has no declaration of the kind that is needed.
    Unknown,
    /// A module or a pair doesn't list exactly the methods of its interface in their order, or the modules of a pair have different interfaces.
    Missing,
    /// A client has no `main`, or its `main` has parameters.
    NoMain,
    /// A call stands in a module's body, or names `main`.
    NotVisible,
    /// A call has another number of arguments than there are parameters.
    WrongArity,
    /// A parameter or a quantified name is assigned.
    Target,
    /// `old` stands where there is no entry to speak of, or inside another `old`.
    OldHere,
    /// Code reads the heap inside an expression, or speaks of `alloc` or `old`, or a test has a quantifier.
    NotCode,
    /// A part hasn't the type that is needed there.
    WrongType,
}
