//! The symbols.

ghost use Rattle.std.specs.Prelude.{◌≡◌};
ghost use Rattle.rel_lexer.specs.Words.{symbol_text, symbol_at};

/// A symbol, named by its characters.
#[derive(Clone, Copy, Debug, PartialEq, Eq)]
pub enum Symbol {
    EqualColonEqual,
    ColonEqual,
    LessEqual,
    OpenParenthesis,
    CloseParenthesis,
    OpenBracket,
    CloseBracket,
    OpenBrace,
    CloseBrace,
    Semicolon,
    Colon,
    Comma,
    Dot,
    Tilde,
    Bar,
    Plus,
    Minus,
    Star,
    Equal,
    Less,
    At,
}

impl Symbol {
    pub fn text(self) -> &'static str
        ensures { result.now ≡ symbol_text self }
    {
        match self {
            Symbol::EqualColonEqual => "=:=",
            Symbol::ColonEqual => ":=",
            Symbol::LessEqual => "<=",
            Symbol::OpenParenthesis => "(",
            Symbol::CloseParenthesis => ")",
            Symbol::OpenBracket => "[",
            Symbol::CloseBracket => "]",
            Symbol::OpenBrace => "{",
            Symbol::CloseBrace => "}",
            Symbol::Semicolon => ";",
            Symbol::Colon => ":",
            Symbol::Comma => ",",
            Symbol::Dot => ".",
            Symbol::Tilde => "~",
            Symbol::Bar => "|",
            Symbol::Plus => "+",
            Symbol::Minus => "-",
            Symbol::Star => "*",
            Symbol::Equal => "=",
            Symbol::Less => "<",
            Symbol::At => "@",
        }
    }
}

/// The symbol that begins a text, of which the longest counts.
#[tactic(auto, unfolding(crate::specs::Words::symbols))]
pub fn symbol_at(rest: &[u8]) -> Option<Symbol>
    ensures { result ≡ symbol_at rest.now }
{
    match rest {
        [b'=', b':', b'=', ..] => Some(Symbol::EqualColonEqual),
        [b':', b'=', ..] => Some(Symbol::ColonEqual),
        [b'<', b'=', ..] => Some(Symbol::LessEqual),
        [b'(', ..] => Some(Symbol::OpenParenthesis),
        [b')', ..] => Some(Symbol::CloseParenthesis),
        [b'[', ..] => Some(Symbol::OpenBracket),
        [b']', ..] => Some(Symbol::CloseBracket),
        [b'{', ..] => Some(Symbol::OpenBrace),
        [b'}', ..] => Some(Symbol::CloseBrace),
        [b';', ..] => Some(Symbol::Semicolon),
        [b':', ..] => Some(Symbol::Colon),
        [b',', ..] => Some(Symbol::Comma),
        [b'.', ..] => Some(Symbol::Dot),
        [b'~', ..] => Some(Symbol::Tilde),
        [b'|', ..] => Some(Symbol::Bar),
        [b'+', ..] => Some(Symbol::Plus),
        [b'-', ..] => Some(Symbol::Minus),
        [b'*', ..] => Some(Symbol::Star),
        [b'=', ..] => Some(Symbol::Equal),
        [b'<', ..] => Some(Symbol::Less),
        [b'@', ..] => Some(Symbol::At),
        _ => None,
    }
}
