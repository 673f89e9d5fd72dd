//! What `lex` gives on texts of each kind, and which texts it refuses where.

use rel_lexer::{Keyword, Kind, LexFault, Symbol, lex};
use std::alloc::Global;
use std::test::Fail;

/// A token as a table writes it.
type Row<'a> = (Kind, &'a str, u32);

const GREATEST: i128 = 170141183460469231731687303715884105727;

/// Whether the text's tokens are these.
fn gives(alloc: Global, text: &str, expected: &[Row<'_>]) -> bool {
    if text.len() > 4096 {
        return false;
    }
    let tokens = match lex(alloc, text) {
        Ok(tokens) => tokens,
        Err(_) => return false,
    };
    let mut same = tokens.len() == expected.len();
    for (token, (kind, text, at)) in tokens.iter().zip(expected) {
        same = same && token.kind == *kind && token.text == *text && token.at == *at;
    }
    same
}

/// Why the text is refused, if it is.
fn fault(alloc: Global, text: &str) -> Option<LexFault> {
    if text.len() > 4096 {
        return None;
    }
    match lex(alloc, text) {
        Ok(_) => None,
        Err(fault) => Some(fault),
    }
}

fn name(text: &str, at: u32) -> Row<'_> {
    (Kind::Name, text, at)
}

fn word(keyword: Keyword, at: u32) -> Row<'static> {
    (Kind::Word(keyword), keyword.text(), at)
}

fn symbol(symbol: Symbol, at: u32) -> Row<'static> {
    (Kind::Symbol(symbol), symbol.text(), at)
}

fn number(value: i128, text: &str, at: u32) -> Row<'_> {
    (Kind::Number(value), text, at)
}

#[test]
fn texts_have_their_tokens(rt: HostRuntime) -> Result<(), Fail> {
    let table: [(&str, &[Row<'_>]); 12] = [
        ("", &[]),
        (" // at the end //", &[]),
        ("units while", &[name("units", 0), word(Keyword::While, 6)]),
        (
            "in int inte",
            &[word(Keyword::In, 0), word(Keyword::Int, 3), name("inte", 7)],
        ),
        ("a\rb", &[name("a", 0), name("b", 2)]),
        ("a//\rb := %\nc//", &[name("a", 0), name("c", 11)]),
        (
            "é_2 e\u{301}x _",
            &[name("é_2", 0), name("e\u{301}x", 5), name("_", 10)],
        ),
        (
            "0 12x",
            &[number(0, "0", 0), number(12, "12", 2), name("x", 4)],
        ),
        (
            "170141183460469231731687303715884105727",
            &[number(GREATEST, "170141183460469231731687303715884105727", 0)],
        ),
        (
            "=:=:=:=",
            &[
                symbol(Symbol::EqualColonEqual, 0),
                symbol(Symbol::ColonEqual, 3),
                symbol(Symbol::ColonEqual, 5),
            ],
        ),
        (
            "= :<=<",
            &[
                symbol(Symbol::Equal, 0),
                symbol(Symbol::Colon, 2),
                symbol(Symbol::LessEqual, 3),
                symbol(Symbol::Less, 5),
            ],
        ),
        (
            "(x@y)",
            &[
                symbol(Symbol::OpenParenthesis, 0),
                name("x", 1),
                symbol(Symbol::At, 2),
                name("y", 3),
                symbol(Symbol::CloseParenthesis, 4),
            ],
        ),
    ];
    for (text, expected) in table {
        assert!(rt; gives(rt.alloc(), text, expected));
    }
    Ok(())
}

#[test]
fn refused_texts_have_their_places(rt: HostRuntime) -> Result<(), Fail> {
    let table = [
        ("%", LexFault::BadChar(0)),
        ("00", LexFault::BadChar(1)),
        ("a 01", LexFault::BadChar(3)),
        ("a /b", LexFault::BadChar(2)),
        ("é%", LexFault::BadChar(2)),
        ("a \u{301}", LexFault::BadChar(2)),
        ("\u{feff}a", LexFault::BadChar(0)),
        ("unit U { } %", LexFault::BadChar(11)),
        (
            " 170141183460469231731687303715884105728 %",
            LexFault::WideLiteral(1),
        ),
    ];
    for (text, expected) in table {
        assert!(rt; fault(rt.alloc(), text) == Some(expected));
    }
    Ok(())
}
