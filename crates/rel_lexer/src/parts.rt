//! What begins a text: a blank or a comment, which only separate, or a token.

ghost use Rattle.std.specs.Prelude.{◌≡◌, ◌^◌, ◌<◌, ◌+◌, not, length, drop, IsTrue, Ok};
ghost use Rattle.std.specs.Str.{chars};
ghost use Rattle.unicode_ident.specs.Ident.{is_xid_start};
ghost use Rattle.rel_lang.specs.Tokens.{is_blank, is_digit, is_line_feed, begins_name, continues_name, has_name_form, slash};
ghost use Rattle.rel_lang.specs.Tokens.{run_len, comment_piece, number_piece, symbol_piece, symbols, piece_at};
ghost use Rattle.rel_lang.specs.Tokens.Piece.{token};
ghost use Rattle.rel_lexer.specs.Pieces.{BeginsWith, IsRun, IsPart, is_ascii_name, part_len};
ghost use Rattle.rel_lexer.specs.Tokens.{IsOfKind};

use crate::keywords::keyword_of;
use crate::symbols::symbol_at;
use crate::{Kind, LexFault};
use unicode_ident::{is_xid_continue, is_xid_start};

/// A part of a text, with the number of its bytes.
#[derive(Clone, Copy, Drop)]
pub enum Part {
    Gap(usize),
    Token(Kind, usize),
}

impl Part {
    pub fn len(self) -> usize
        ensures { result ≡ part_len self }
    {
        match self {
            Part::Gap(len) => len,
            Part::Token(_, len) => len,
        }
    }
}

/// Space, tab, carriage return and line feed only separate.
fn is_blank(ch: char) -> bool
    ensures { result ≡ is_blank ch }
{
    ch == ' ' || ch == '\t' || ch == '\r' || ch == '\n'
}

/// Whether an identifier may start with it. ASCII needs no table.
fn is_start(ch: char) -> bool
    ensures { result ≡ is_xid_start ch }
{
    if ch.is_ascii() {
        ch.is_ascii_alphabetic()
    } else {
        is_xid_start(ch)
    }
}

fn begins_name(ch: char) -> bool
    ensures { result ≡ begins_name ch }
{
    is_start(ch) || ch == '_'
}

/// How many bytes the line takes, without its line feed.
fn line_len(rest: &str) -> usize
    ensures { IsRun (λ c. not (is_line_feed c)) rest.now result }
{
    rest.find(|c: char| c == '\n').unwrap_or(rest.len())
}

/// How many of the first bytes are ASCII letters, digits or `_`.
fn ascii_name_len(bytes: &[u8]) -> usize
    ensures { result ≡ run_len is_ascii_name bytes.now }
{
    bytes
        .iter()
        .take_while(|byte| byte.is_ascii_alphanumeric() || **byte == b'_')
        .count()
}

/// How many bytes the characters take that go on with a name.
fn any_name_len(rest: &str) -> usize
    ensures { IsRun continues_name rest.now result }
{
    rest.find(|c: char| !is_xid_continue(c))
        .unwrap_or(rest.len())
}

/// The same, by bytes as long as they are ASCII.
fn name_len(rest: &str) -> usize
    ensures { IsRun continues_name rest.now result }
{
    let bytes = rest.as_bytes();
    let len = ascii_name_len(bytes);
    if len < bytes.len() && !bytes[len].is_ascii() {
        any_name_len(rest)
    } else {
        len
    }
}

/// How many digits come first.
fn digits_len(rest: &str) -> usize
    ensures { IsRun is_digit rest.now result }
{
    rest.find(|c: char| !c.is_ascii_digit())
        .unwrap_or(rest.len())
}

fn first_char(rest: &str) -> char
    requires { 0 < length rest.now }
    ensures { BeginsWith rest.now result }
{
    match rest.chars().next() {
        Some(first) => first,
        None => unreachable!(),
    }
}

/// A comment ends with its line.
fn comment(rest: &str, at: u32) -> Result<Part, LexFault>
    requires { BeginsWith rest.now slash }
    ensures { IsPart (comment_piece (drop 1 (chars rest.now))) at rest.now result }
{
    if rest.starts_with("//") {
        Ok(Part::Gap(line_len(rest)))
    } else {
        Err(LexFault::BadChar(at))
    }
}

/// The kind of a text that has the form of a name.
fn name_kind(text: &str) -> Kind
    requires { IsTrue (has_name_form (chars text.now)) }
    ensures { IsOfKind result text.now }
{
    match keyword_of(text) {
        Some(keyword) => Kind::Word(keyword),
        None => Kind::Name,
    }
}

/// A name begins with `first` and goes on as far as it can.
fn name(rest: &str, first: char) -> Part
    requires begins { BeginsWith rest.now first }
    requires passes { IsTrue (begins_name first) }
    ensures { IsPart (token (1 + run_len continues_name (drop 1 (chars rest.now)))) 0 rest.now (Ok result) }
{
    let len = name_len(rest);
    let (text, _) = rest.split_at(len);
    Part::Token(name_kind(text), len)
}

/// A number has no zero before it. It is 0, or begins with another digit.
fn number(rest: &str, first: char, at: u32) -> Result<Part, LexFault>
    requires begins { BeginsWith rest.now first }
    requires passes { IsTrue (is_digit first) }
    requires places { at + length rest.now < 2 ^ 32 }
    ensures { IsPart (number_piece (chars rest.now)) at rest.now result }
{
    let len = digits_len(rest);
    if first == '0' && len != 1 {
        return Err(LexFault::BadChar(at + 1));
    }
    let (text, _) = rest.split_at(len);
    match text.parse::<i128>() {
        Ok(value) => Ok(Part::Token(Kind::Number(value), len)),
        Err(_) => Err(LexFault::WideLiteral(at)),
    }
}

/// The longest symbol counts.
fn symbol(rest: &str, at: u32) -> Result<Part, LexFault>
    ensures { IsPart (symbol_piece symbols (chars rest.now)) at rest.now result }
{
    match symbol_at(rest.as_bytes()) {
        Some(symbol) => Ok(Part::Token(Kind::Symbol(symbol), symbol.text().len())),
        None => Err(LexFault::BadChar(at)),
    }
}

/// What begins the text, which begins at the byte `at`.
pub fn next_part(rest: &str, at: u32) -> Result<Part, LexFault>
    requires some { 0 < length rest.now }
    requires places { at + length rest.now < 2 ^ 32 }
    ensures { IsPart (piece_at (chars rest.now)) at rest.now result }
{
    let first = first_char(rest);
    if is_blank(first) {
        Ok(Part::Gap(1))
    } else if first == '/' {
        comment(rest, at)
    } else if begins_name(first) {
        Ok(name(rest, first))
    } else if first.is_ascii_digit() {
        number(rest, first, at)
    } else {
        symbol(rest, at)
    }
}
