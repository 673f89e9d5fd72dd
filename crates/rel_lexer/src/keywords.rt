//! The reserved words.

ghost use Rattle.std.specs.Prelude.{◌≡◌, bytes_eq, find};
ghost use Rattle.rel_lexer.specs.Words.{keyword_text, keyword_of, keywords_with};

/// A reserved word.
#[derive(Clone, Copy, Debug, PartialEq, Eq)]
pub enum Keyword {
    Agree,
    Align,
    All,
    Alloc,
    And,
    At,
    Bi,
    Both,
    Boundary,
    Call,
    Class,
    Client,
    Coupling,
    Drop,
    Else,
    Empty,
    Ensures,
    Eventually,
    False,
    Global,
    If,
    Implies,
    In,
    Init,
    Interface,
    Int,
    Inv,
    Invariant,
    Judge,
    Left,
    Link,
    Meet,
    Method,
    Minus,
    Module,
    New,
    Not,
    Note,
    Null,
    Of,
    Old,
    Or,
    Pair,
    Proc,
    Rel,
    Requires,
    Rgn,
    Right,
    Seq,
    Skip,
    Some,
    Split,
    Sub,
    Sync,
    True,
    Union,
    Unit,
    Using,
    Var,
    Weave,
    While,
    Writes,
}

impl Keyword {
    pub fn text(self) -> &'static str
        ensures { result.now ≡ keyword_text self }
    {
        match self {
            Keyword::Agree => "agree",
            Keyword::Align => "align",
            Keyword::All => "all",
            Keyword::Alloc => "alloc",
            Keyword::And => "and",
            Keyword::At => "at",
            Keyword::Bi => "bi",
            Keyword::Both => "both",
            Keyword::Boundary => "boundary",
            Keyword::Call => "call",
            Keyword::Class => "class",
            Keyword::Client => "client",
            Keyword::Coupling => "coupling",
            Keyword::Drop => "drop",
            Keyword::Else => "else",
            Keyword::Empty => "empty",
            Keyword::Ensures => "ensures",
            Keyword::Eventually => "eventually",
            Keyword::False => "false",
            Keyword::Global => "global",
            Keyword::If => "if",
            Keyword::Implies => "implies",
            Keyword::In => "in",
            Keyword::Init => "init",
            Keyword::Interface => "interface",
            Keyword::Int => "int",
            Keyword::Inv => "inv",
            Keyword::Invariant => "invariant",
            Keyword::Judge => "judge",
            Keyword::Left => "left",
            Keyword::Link => "link",
            Keyword::Meet => "meet",
            Keyword::Method => "method",
            Keyword::Minus => "minus",
            Keyword::Module => "module",
            Keyword::New => "new",
            Keyword::Not => "not",
            Keyword::Note => "note",
            Keyword::Null => "null",
            Keyword::Of => "of",
            Keyword::Old => "old",
            Keyword::Or => "or",
            Keyword::Pair => "pair",
            Keyword::Proc => "proc",
            Keyword::Rel => "rel",
            Keyword::Requires => "requires",
            Keyword::Rgn => "rgn",
            Keyword::Right => "right",
            Keyword::Seq => "seq",
            Keyword::Skip => "skip",
            Keyword::Some => "some",
            Keyword::Split => "split",
            Keyword::Sub => "sub",
            Keyword::Sync => "sync",
            Keyword::True => "true",
            Keyword::Union => "union",
            Keyword::Unit => "unit",
            Keyword::Using => "using",
            Keyword::Var => "var",
            Keyword::Weave => "weave",
            Keyword::While => "while",
            Keyword::Writes => "writes",
        }
    }
}

/// The reserved words that begin with this byte.
#[tactic(auto, unfolding(crate::specs::Words::keywords))]
fn keywords_with(first: u8) -> &'static [Keyword]
    ensures { result.now ≡ keywords_with first }
{
    match first {
        b'a' => &[
            Keyword::Agree,
            Keyword::Align,
            Keyword::All,
            Keyword::Alloc,
            Keyword::And,
            Keyword::At,
        ],
        b'b' => &[Keyword::Bi, Keyword::Both, Keyword::Boundary],
        b'c' => &[
            Keyword::Call,
            Keyword::Class,
            Keyword::Client,
            Keyword::Coupling,
        ],
        b'd' => &[Keyword::Drop],
        b'e' => &[
            Keyword::Else,
            Keyword::Empty,
            Keyword::Ensures,
            Keyword::Eventually,
        ],
        b'f' => &[Keyword::False],
        b'g' => &[Keyword::Global],
        b'i' => &[
            Keyword::If,
            Keyword::Implies,
            Keyword::In,
            Keyword::Init,
            Keyword::Interface,
            Keyword::Int,
            Keyword::Inv,
            Keyword::Invariant,
        ],
        b'j' => &[Keyword::Judge],
        b'l' => &[Keyword::Left, Keyword::Link],
        b'm' => &[
            Keyword::Meet,
            Keyword::Method,
            Keyword::Minus,
            Keyword::Module,
        ],
        b'n' => &[Keyword::New, Keyword::Not, Keyword::Note, Keyword::Null],
        b'o' => &[Keyword::Of, Keyword::Old, Keyword::Or],
        b'p' => &[Keyword::Pair, Keyword::Proc],
        b'r' => &[
            Keyword::Rel,
            Keyword::Requires,
            Keyword::Rgn,
            Keyword::Right,
        ],
        b's' => &[
            Keyword::Seq,
            Keyword::Skip,
            Keyword::Some,
            Keyword::Split,
            Keyword::Sub,
            Keyword::Sync,
        ],
        b't' => &[Keyword::True],
        b'u' => &[Keyword::Union, Keyword::Unit, Keyword::Using],
        b'v' => &[Keyword::Var],
        b'w' => &[Keyword::Weave, Keyword::While, Keyword::Writes],
        _ => &[],
    }
}

fn among(keywords: &[Keyword], text: &str) -> Option<Keyword>
    ensures { result ≡ find (λ k. bytes_eq text.now (keyword_text k)) keywords.now }
{
    keywords
        .iter()
        .copied()
        .find(|keyword| text == keyword.text())
}

/// The reserved word that this text is, if it is one.
pub fn keyword_of(text: &str) -> Option<Keyword>
    ensures { result ≡ keyword_of text.now }
{
    match text.as_bytes() {
        [] => None,
        [first, ..] => among(keywords_with(*first), text),
    }
}
