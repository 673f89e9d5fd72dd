//! Reads types and declarations.

ghost use Rattle.std.specs.Prelude.{map};
ghost use Rattle.rel_lang.specs.Refusal.{limits};
ghost use Rattle.rel_lang.specs.Syntax as syntax;
ghost use Rattle.rel_lang.specs.View.{type_of, decl_of};
ghost use Rattle.rel_parse.specs.Gives.{Gives};
ghost use Rattle.rel_parse.specs.Reading.{is_next, is_name_next, after};
ghost use Rattle.rel_decls.specs.Declarations.{type_at, decl_at, ended_decl_at, decls_at, fields_at, params_at};

use rel_lang::bundle::Decl;
use rel_lang::expr::Ty;
use rel_lexer::{Keyword, Kind, Symbol, Token};
use rel_list::List;
use rel_parse::several::{Element, Repeated, listed, many};
use rel_parse::token::{Read, expect, is_name_next, is_next, name_of};
use std::alloc::Global;

#[tactic(auto, unfolding(crate::specs::Declarations::type_at))]
pub fn ty<'a>(alloc: Global, tokens: &'a [Token<'a>]) -> Read<'a, Ty>
    ensures { Gives (λ x. (type_of x.0, x.1.now)) result (type_at tokens.now) }
{
    if is_next(tokens, Kind::Word(Keyword::Int)) {
        let rest = expect(tokens, Kind::Word(Keyword::Int))?;
        return Ok((Ty::Int, rest));
    }
    if is_next(tokens, Kind::Word(Keyword::Rgn)) {
        let rest = expect(tokens, Kind::Word(Keyword::Rgn))?;
        return Ok((Ty::Rgn, rest));
    }
    let (name, rest) = name_of(alloc, tokens)?;
    Ok((Ty::Class(name), rest))
}

#[tactic(auto, unfolding(crate::specs::Declarations::decl_at))]
fn decl<'a>(alloc: Global, tokens: &'a [Token<'a>]) -> Read<'a, Decl>
    ensures { Gives (λ x. (decl_of x.0, x.1.now)) result (decl_at tokens.now) }
{
    let (name, rest) = name_of(alloc, tokens)?;
    let rest = expect(rest, Kind::Symbol(Symbol::Colon))?;
    let (ty, rest) = ty(alloc, rest)?;
    Ok((Decl { name, ty }, rest))
}

/// A declaration with a semicolon behind it.
fn ended_decl<'a>(alloc: Global, tokens: &'a [Token<'a>]) -> Read<'a, Decl>
    ensures { Gives (λ x. (decl_of x.0, x.1.now)) result (ended_decl_at tokens.now) }
{
    let (decl, rest) = decl(alloc, tokens)?;
    let rest = expect(rest, Kind::Symbol(Symbol::Semicolon))?;
    Ok((decl, rest))
}

/// The declarations of variables, each behind this word.
#[derive(Drop)]
struct EachBehind {
    word: Kind,
}

impl Element for EachBehind {
    type Item = Decl;

    ghost Tree = { syntax.Decl };

    ghost view = { decl_of };

    ghost reader = { λ s. after s.word ended_decl_at };

    fn read<'a>(&self, alloc: Global, tokens: &'a [Token<'a>]) -> Read<'a, Decl> {
        let rest = expect(tokens, self.word)?;
        ended_decl(alloc, rest)
    }
}

impl Repeated for EachBehind {
    ghost begins = { λ s. is_next s.word };

    fn begins(&self, tokens: &[Token<'_>]) -> bool {
        is_next(tokens, self.word)
    }
}

/// The declarations that begin with the word.
pub fn decls<'a>(alloc: Global, tokens: &'a [Token<'a>], word: Kind) -> Read<'a, List<Decl>>
    ensures { Gives (λ x. (map decl_of x.0, x.1.now)) result (decls_at word limits.most tokens.now) }
{
    many(alloc, tokens, &EachBehind { word })
}

#[derive(Drop)]
struct EachField;

impl Element for EachField {
    type Item = Decl;

    ghost Tree = { syntax.Decl };

    ghost view = { decl_of };

    ghost reader = { λ _. ended_decl_at };

    fn read<'a>(&self, alloc: Global, tokens: &'a [Token<'a>]) -> Read<'a, Decl> {
        ended_decl(alloc, tokens)
    }
}

impl Repeated for EachField {
    ghost begins = { λ _. is_name_next };

    fn begins(&self, tokens: &[Token<'_>]) -> bool {
        is_name_next(tokens)
    }
}

/// The fields of a class.
pub fn fields<'a>(alloc: Global, tokens: &'a [Token<'a>]) -> Read<'a, List<Decl>>
    ensures { Gives (λ x. (map decl_of x.0, x.1.now)) result (fields_at limits.most tokens.now) }
{
    many(alloc, tokens, &EachField)
}

#[derive(Drop)]
struct EachParam;

impl Element for EachParam {
    type Item = Decl;

    ghost Tree = { syntax.Decl };

    ghost view = { decl_of };

    ghost reader = { λ _. decl_at };

    fn read<'a>(&self, alloc: Global, tokens: &'a [Token<'a>]) -> Read<'a, Decl> {
        decl(alloc, tokens)
    }
}

/// The parameters between parentheses.
pub fn params<'a>(alloc: Global, tokens: &'a [Token<'a>]) -> Read<'a, List<Decl>>
    ensures { Gives (λ x. (map decl_of x.0, x.1.now)) result (params_at limits.most tokens.now) }
{
    let rest = expect(tokens, Kind::Symbol(Symbol::OpenParenthesis))?;
    let (params, rest) = listed(
        alloc,
        rest,
        Kind::Symbol(Symbol::CloseParenthesis),
        &EachParam,
    )?;
    let rest = expect(rest, Kind::Symbol(Symbol::CloseParenthesis))?;
    Ok((params, rest))
}
