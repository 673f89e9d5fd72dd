//! Reads single tokens.

ghost use Rattle.std.specs.Prelude.{◌≡◌, ◌≢◌, length, IfErr};
ghost use Rattle.rel_parse.specs.Gives.{Gives};
ghost use Rattle.rel_parse.specs.Reading.{same_fixed, is_next, is_second, is_name_next, is_number_next, expect_at, name_at, literal_at, place_of};
ghost use Rattle.rel_parse.specs.declared.fault.Fault.TheVariants as faults;

use crate::fault::Fault;
use rel_lexer::{Kind, Token};
use rel_list::Name;
use std::alloc::Global;

/// What is read, and the tokens behind it.
pub type Read<'a, T> = Result<(T, &'a [Token<'a>]), Fault>;

/// The two are the same reserved word or the same symbol.
fn same_fixed(a: Kind, b: Kind) -> bool
    ensures { result ≡ same_fixed a b }
{
    match (a, b) {
        (Kind::Word(a), Kind::Word(b)) => a == b,
        (Kind::Symbol(a), Kind::Symbol(b)) => a == b,
        _ => false,
    }
}

pub fn is_next(tokens: &[Token<'_>], kind: Kind) -> bool
    ensures { result ≡ is_next kind tokens.now }
{
    match tokens {
        [] => false,
        [token, ..] => same_fixed(token.kind, kind),
    }
}

/// Whether it comes behind the next token.
pub fn is_second(tokens: &[Token<'_>], kind: Kind) -> bool
    ensures { result ≡ is_second kind tokens.now }
{
    match tokens {
        [] => false,
        [_, rest @ ..] => is_next(rest, kind),
    }
}

pub fn is_name_next(tokens: &[Token<'_>]) -> bool
    ensures { result ≡ is_name_next tokens.now }
{
    match tokens {
        [] => false,
        [token, ..] => matches!(token.kind, Kind::Name),
    }
}

pub fn is_number_next(tokens: &[Token<'_>]) -> bool
    ensures { result ≡ is_number_next tokens.now }
{
    match tokens {
        [] => false,
        [token, ..] => matches!(token.kind, Kind::Number(_)),
    }
}

/// The refusal of the first of these tokens.
pub fn unexpected(tokens: &[Token<'_>]) -> Fault
    ensures { result ≡ faults.Unexpected (length tokens.now) }
{
    Fault::Unexpected(tokens.len())
}

/// The tokens behind this reserved word or symbol.
pub fn expect<'a>(tokens: &'a [Token<'a>], kind: Kind) -> Result<&'a [Token<'a>], Fault>
    ensures gives { Gives (λ rest. (tt, rest.now)) result (expect_at kind tokens.now) }
    ensures no_memory { IfErr result (λ e. e ≢ faults.Memory) }
{
    match tokens {
        [] => Err(Fault::Unexpected(0)),
        [token, rest @ ..] => {
            if same_fixed(token.kind, kind) {
                Ok(rest)
            } else {
                Err(Fault::Unexpected(tokens.len()))
            }
        }
    }
}

pub fn name_of<'a>(alloc: Global, tokens: &'a [Token<'a>]) -> Read<'a, Name>
    ensures { Gives (λ x. (x.0, x.1.now)) result (name_at tokens.now) }
{
    match tokens {
        [] => Err(Fault::Unexpected(0)),
        [token, rest @ ..] => match token.kind {
            Kind::Name => Ok((Name::new(alloc, token.text)?, rest)),
            _ => Err(Fault::Unexpected(tokens.len())),
        },
    }
}

pub fn literal<'a>(tokens: &'a [Token<'a>]) -> Read<'a, i128>
    ensures gives { Gives (λ x. (x.0, x.1.now)) result (literal_at tokens.now) }
    ensures no_memory { IfErr result (λ e. e ≢ faults.Memory) }
{
    match tokens {
        [] => Err(Fault::Unexpected(0)),
        [token, rest @ ..] => match token.kind {
            Kind::Number(n) => Ok((n, rest)),
            _ => Err(Fault::Unexpected(tokens.len())),
        },
    }
}

/// The byte where the first token begins, or 0 where there is none.
pub fn place(tokens: &[Token<'_>]) -> u32
    ensures { result ≡ place_of tokens.now }
{
    match tokens {
        [] => 0,
        [token, ..] => token.at,
    }
}
