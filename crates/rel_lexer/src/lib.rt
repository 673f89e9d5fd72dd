//! Reads a text into its tokens, which borrow it.
#![tactic(auto)]

ghost use Rattle.std.specs.Prelude.{◌≡◌, ◌^◌, ◌<◌, length, Ok, All, AllPairs, IfOk, IfErr};
ghost use Rattle.rel_lang.specs.Tokens.{lexed};
ghost use Rattle.rel_lexer.specs.Tokens.{tokens_of, HasKind, IsSlice, IsFirstFault};

mod keywords;
mod parts;
mod symbols;

pub use keywords::Keyword;
use parts::{Part, next_part};
use std::alloc::Global;
pub use symbols::Symbol;

/// What a token is: a reserved word, another name, a number, or a symbol.
#[derive(Clone, Copy, Debug, PartialEq, Eq)]
pub enum Kind {
    Word(Keyword),
    Name,
    Number(i128),
    Symbol(Symbol),
}

/// A token, whose text is the slice of the source that begins at the byte `at`.
#[derive(Clone, Copy, Debug)]
pub struct Token<'a> {
    pub kind: Kind,
    pub text: &'a str,
    pub at: u32,
}

/// Why a text has no tokens: the byte of a character that begins nothing, or the first byte of a number
/// that is too great. Or there was no memory.
#[derive(Clone, Copy, Debug, PartialEq, Eq, Drop)]
pub enum LexFault {
    BadChar(u32),
    WideLiteral(u32),
    Memory,
}

/// The tokens of the text, in order, or its first fault.
pub fn lex<'a>(alloc: Global, text: &'a str) -> Result<Vec<Token<'a>>, LexFault>
    requires { length text.now < 2 ^ 32 }
    ensures tokens { IfOk result (λ v. lexed text.now ≡ Ok (tokens_of v.items)) }
    ensures refused { IfErr result (λ e. IsFirstFault text.now e) }
    ensures kinds { IfOk result (λ v. All HasKind v.items) }
    ensures slices { IfOk result (λ v. All (λ t. IsSlice text.now t) v.items) }
    ensures rising { IfOk result (λ v. AllPairs (λ t u. t.at < u.at) v.items) }
{
    let mut tokens = Vec::new(alloc);
    let mut rest = text;
    let mut at = 0;
    while !rest.is_empty() {
        let part = match next_part(rest, at) {
            Ok(part) => part,
            Err(fault) => return Err(fault),
        };
        let (front, after) = rest.split_at(part.len());
        if let Part::Token(kind, _) = part {
            let token = Token {
                kind,
                text: front,
                at,
            };
            if tokens.push(token).is_err() {
                return Err(LexFault::Memory);
            }
        }
        at += front.len() as u32;
        rest = after;
    }
    Ok(tokens)
}
