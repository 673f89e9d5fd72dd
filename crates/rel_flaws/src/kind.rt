//! What can be wrong with the types of a bundle.

ghost use Rattle.std.specs.Prelude.{◌≡◌, option_map};
ghost use Rattle.rel_flaws.specs.Flaws.{kind_in, fault_at, either as either_of, flawless, ForOthers};
ghost use Rattle.rel_flaws.specs.View.{flaws_of, kind_of, fault_of, pass_of};

use rel_lang::fault::TypeKind;

/// A fault and its place.
#[derive(Clone, Copy)]
pub struct Fault {
    pub kind: TypeKind,
    pub at: u32,
}

/// A bundle is gone over twice: for names that are declared twice, and for every other fault.
#[derive(Clone, Copy, Debug, PartialEq, Eq, Drop)]
pub enum Pass {
    ForTwice,
    ForOthers,
}

/// Which kinds of fault one place has.
#[derive(Clone, Copy)]
pub struct Flaws {
    pub twice: bool,
    pub unknown: bool,
    pub missing: bool,
    pub no_main: bool,
    pub not_visible: bool,
    pub wrong_arity: bool,
    pub target: bool,
    pub old_here: bool,
    pub not_code: bool,
    pub wrong_type: bool,
}

impl Flaws {
    pub fn none() -> Flaws
        ensures { flaws_of result ≡ flawless }
    {
        Flaws {
            twice: false,
            unknown: false,
            missing: false,
            no_main: false,
            not_visible: false,
            wrong_arity: false,
            target: false,
            old_here: false,
            not_code: false,
            wrong_type: false,
        }
    }

    /// Those of either.
    pub fn either(self, other: Flaws) -> Flaws
        ensures { flaws_of result ≡ either_of (flaws_of self) (flaws_of other) }
    {
        Flaws {
            twice: self.twice | other.twice,
            unknown: self.unknown | other.unknown,
            missing: self.missing | other.missing,
            no_main: self.no_main | other.no_main,
            not_visible: self.not_visible | other.not_visible,
            wrong_arity: self.wrong_arity | other.wrong_arity,
            target: self.target | other.target,
            old_here: self.old_here | other.old_here,
            not_code: self.not_code | other.not_code,
            wrong_type: self.wrong_type | other.wrong_type,
        }
    }

    /// The kind that decides at a place.
    pub fn kind(self, pass: Pass) -> Option<TypeKind>
        ensures { option_map kind_of result ≡ kind_in (pass_of pass) (flaws_of self) }
    {
        match pass {
            Pass::ForTwice => self.twice.then_some(TypeKind::Twice),
            Pass::ForOthers => self.other_kind(),
        }
    }

    // The first of the kinds but `Twice`.
    fn other_kind(self) -> Option<TypeKind>
        ensures { option_map kind_of result ≡ kind_in ForOthers (flaws_of self) }
    {
        if self.unknown {
            Some(TypeKind::Unknown)
        } else if self.missing {
            Some(TypeKind::Missing)
        } else if self.no_main {
            Some(TypeKind::NoMain)
        } else if self.not_visible {
            Some(TypeKind::NotVisible)
        } else if self.wrong_arity {
            Some(TypeKind::WrongArity)
        } else if self.target {
            Some(TypeKind::Target)
        } else if self.old_here {
            Some(TypeKind::OldHere)
        } else if self.not_code {
            Some(TypeKind::NotCode)
        } else if self.wrong_type {
            Some(TypeKind::WrongType)
        } else {
            None
        }
    }

    /// The fault of a place that begins at this byte.
    pub fn fault(self, pass: Pass, at: u32) -> Option<Fault>
        ensures { option_map fault_of result ≡ fault_at (pass_of pass) at (flaws_of self) }
    {
        match self.kind(pass) {
            Some(kind) => Some(Fault { kind, at }),
            None => None,
        }
    }
}
