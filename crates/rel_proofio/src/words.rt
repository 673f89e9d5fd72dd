//! The words that terms and formulas begin with, and those of the sorts.

ghost use Rattle.std.specs.Prelude.{◌≡◌, bytes_eq, find, option_map};
ghost use Rattle.rel_logic.specs.View.{sort_of};
ghost use Rattle.rel_proofio.specs.Words.{term_word, term_heads, term_head, fol_word, fol_heads, fol_head, srt_word, srt_named};

use rel_logic::term::Sort;

/// What a term is.
#[derive(Clone, Copy, Debug, PartialEq, Eq)]
pub enum TermHead {
    Var,
    Bound,
    Int,
    Add,
    Sub,
    Mul,
    Null,
    Sel,
    Sto,
    Empty,
    One,
    Cup,
    Cap,
    Less,
    Img,
    Of,
    Link,
}

const TERM_HEADS: [TermHead; 17] = [
    TermHead::Var,
    TermHead::Bound,
    TermHead::Int,
    TermHead::Add,
    TermHead::Sub,
    TermHead::Mul,
    TermHead::Null,
    TermHead::Sel,
    TermHead::Sto,
    TermHead::Empty,
    TermHead::One,
    TermHead::Cup,
    TermHead::Cap,
    TermHead::Less,
    TermHead::Img,
    TermHead::Of,
    TermHead::Link,
];

impl TermHead {
    pub fn word(self) -> &'static str
        ensures { result.now ≡ term_word self }
    {
        match self {
            TermHead::Var => "v",
            TermHead::Bound => "b",
            TermHead::Int => "int",
            TermHead::Add => "add",
            TermHead::Sub => "sub",
            TermHead::Mul => "mul",
            TermHead::Null => "null",
            TermHead::Sel => "sel",
            TermHead::Sto => "sto",
            TermHead::Empty => "empty",
            TermHead::One => "one",
            TermHead::Cup => "cup",
            TermHead::Cap => "cap",
            TermHead::Less => "less",
            TermHead::Img => "img",
            TermHead::Of => "of",
            TermHead::Link => "link",
        }
    }

    #[tactic(auto, unfolding(crate::specs::Words::term_heads))]
    pub fn of_word(word: &str) -> Option<TermHead>
        ensures { result ≡ term_head word.now }
    {
        TERM_HEADS.iter().copied().find(|head| word == head.word())
    }
}

/// What a formula is.
#[derive(Clone, Copy, Debug, PartialEq, Eq)]
pub enum FolHead {
    True,
    False,
    Eq,
    Lt,
    Le,
    Member,
    Is,
    Paired,
    Ext,
    Not,
    And,
    Or,
    Imp,
    Every,
    Exists,
}

const FOL_HEADS: [FolHead; 15] = [
    FolHead::True,
    FolHead::False,
    FolHead::Eq,
    FolHead::Lt,
    FolHead::Le,
    FolHead::Member,
    FolHead::Is,
    FolHead::Paired,
    FolHead::Ext,
    FolHead::Not,
    FolHead::And,
    FolHead::Or,
    FolHead::Imp,
    FolHead::Every,
    FolHead::Exists,
];

impl FolHead {
    pub fn word(self) -> &'static str
        ensures { result.now ≡ fol_word self }
    {
        match self {
            FolHead::True => "true",
            FolHead::False => "false",
            FolHead::Eq => "eq",
            FolHead::Lt => "lt",
            FolHead::Le => "le",
            FolHead::Member => "in",
            FolHead::Is => "is",
            FolHead::Paired => "pair",
            FolHead::Ext => "ext",
            FolHead::Not => "not",
            FolHead::And => "and",
            FolHead::Or => "or",
            FolHead::Imp => "imp",
            FolHead::Every => "all",
            FolHead::Exists => "some",
        }
    }

    #[tactic(auto, unfolding(crate::specs::Words::fol_heads))]
    pub fn of_word(word: &str) -> Option<FolHead>
        ensures { result ≡ fol_head word.now }
    {
        FOL_HEADS.iter().copied().find(|head| word == head.word())
    }
}

const SORTS: [Sort; 7] = [
    Sort::Int,
    Sort::Ref,
    Sort::Rgn,
    Sort::MapI,
    Sort::MapR,
    Sort::MapG,
    Sort::Bij,
];

pub fn sort_word(sort: Sort) -> &'static str
    ensures { result.now ≡ srt_word (sort_of sort) }
{
    match sort {
        Sort::Int => "Int",
        Sort::Ref => "Ref",
        Sort::Rgn => "Rgn",
        Sort::MapI => "MapI",
        Sort::MapR => "MapR",
        Sort::MapG => "MapG",
        Sort::Bij => "Bij",
    }
}

fn sort_among(sorts: &[Sort], word: &str) -> Option<Sort>
    ensures { result ≡ find (λ s. bytes_eq word.now (srt_word (sort_of s))) sorts.now }
{
    sorts.iter().copied().find(|sort| word == sort_word(*sort))
}

/// The sort with this word.
#[tactic(auto, using(crate::proofs::Found::found_mapped), unfolding(crate::specs::Words::srts))]
pub fn sort_named(word: &str) -> Option<Sort>
    ensures { option_map sort_of result ≡ srt_named word.now }
{
    sort_among(&SORTS, word)
}
