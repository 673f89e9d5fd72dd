//! Reads bodies, procedures and methods of interfaces.

ghost use Rattle.std.specs.Prelude.{map};
ghost use Rattle.rel_lang.specs.Refusal.{limits};
ghost use Rattle.rel_lang.specs.Syntax as syntax;
ghost use Rattle.rel_lang.specs.View.{type_of, decl_of, block_of, proc_of, sig_of};
ghost use Rattle.rel_lexer.specs.declared.Kind.TheVariants as kind;
ghost use Rattle.rel_lexer.specs.declared.keywords.Keyword.TheVariants as word;
ghost use Rattle.rel_parse.specs.Gives.{Gives};
ghost use Rattle.rel_parse.specs.Reading.{is_next};
ghost use Rattle.rel_decls.specs.Procedures.{content_at, head_at, proc_at, sig_at};
ghost use Rattle.rel_decls.specs.Items.{procs_at, sigs_at};

use crate::DEEPEST;
use crate::decl::{decls, params, ty};
use crate::spec::spec;
use rel_lang::bundle::{Body, Decl, Proc, Sig};
use rel_lang::command::Command;
use rel_lang::expr::Ty;
use rel_lexer::{Keyword, Kind, Symbol, Token};
use rel_list::{List, Name};
use rel_parse::command::commands;
use rel_parse::several::{Element, Repeated, many};
use rel_parse::token::{Read, expect, is_next, name_of, place};
use std::alloc::Global;

/// The locals and the commands between the braces of a body.
#[tactic(auto, unfolding(crate::specs::Procedures::content_at))]
pub fn content<'a>(alloc: Global, tokens: &'a [Token<'a>]) -> Read<'a, (List<Decl>, List<Command>)>
    ensures { Gives (λ x. ((map decl_of x.0.0, block_of x.0.1), x.1.now)) result
        (content_at limits tokens.now) }
{
    let rest = expect(tokens, Kind::Symbol(Symbol::OpenBrace))?;
    let (locals, rest) = decls(alloc, rest, Kind::Word(Keyword::Var))?;
    let (commands, rest) = commands(alloc, rest, DEEPEST)?;
    let rest = expect(rest, Kind::Symbol(Symbol::CloseBrace))?;
    Ok(((locals, commands), rest))
}

/// What stands before a specification.
#[derive(Drop)]
struct Head {
    name: Name,
    params: List<Decl>,
    result_ty: Ty,
}

#[tactic(auto, unfolding(crate::specs::Procedures::head_at))]
fn heading<'a>(alloc: Global, tokens: &'a [Token<'a>]) -> Read<'a, Head>
    ensures { Gives (λ x. ((x.0.name, (map decl_of x.0.params, type_of x.0.result_ty)), x.1.now)) result
        (head_at limits tokens.now) }
{
    let (name, rest) = name_of(alloc, tokens)?;
    let (params, rest) = params(alloc, rest)?;
    let rest = expect(rest, Kind::Symbol(Symbol::Colon))?;
    let (result_ty, rest) = ty(alloc, rest)?;
    Ok((
        Head {
            name,
            params,
            result_ty,
        },
        rest,
    ))
}

#[tactic(auto, unfolding(crate::specs::Procedures::proc_at))]
fn procedure<'a>(alloc: Global, tokens: &'a [Token<'a>]) -> Read<'a, Proc>
    ensures { Gives (λ x. (proc_of x.0, x.1.now)) result (proc_at limits tokens.now) }
{
    let at = place(tokens);
    let rest = expect(tokens, Kind::Word(Keyword::Proc))?;
    let (head, rest) = heading(alloc, rest)?;
    let (spec, rest) = spec(alloc, rest)?;
    let ((locals, commands), rest) = content(alloc, rest)?;
    Ok((
        Proc {
            at,
            name: head.name,
            params: head.params,
            result: head.result_ty,
            spec: spec.into_inner(),
            body: Body {
                at,
                locals,
                commands,
            },
        },
        rest,
    ))
}

#[tactic(auto, unfolding(crate::specs::Procedures::sig_at))]
fn method<'a>(alloc: Global, tokens: &'a [Token<'a>]) -> Read<'a, Sig>
    ensures { Gives (λ x. (sig_of x.0, x.1.now)) result (sig_at limits tokens.now) }
{
    let at = place(tokens);
    let rest = expect(tokens, Kind::Word(Keyword::Method))?;
    let (head, rest) = heading(alloc, rest)?;
    let (spec, rest) = spec(alloc, rest)?;
    let rest = expect(rest, Kind::Symbol(Symbol::Semicolon))?;
    Ok((
        Sig {
            at,
            name: head.name,
            params: head.params,
            result: head.result_ty,
            spec: spec.into_inner(),
        },
        rest,
    ))
}

#[derive(Drop)]
struct EachProc;

impl Element for EachProc {
    type Item = Proc;

    ghost Tree = { syntax.Proc };

    ghost view = { proc_of };

    ghost reader = { λ _. proc_at limits };

    fn read<'a>(&self, alloc: Global, tokens: &'a [Token<'a>]) -> Read<'a, Proc> {
        procedure(alloc, tokens)
    }
}

impl Repeated for EachProc {
    ghost begins = { λ _. is_next (kind.Word word.Proc) };

    fn begins(&self, tokens: &[Token<'_>]) -> bool {
        is_next(tokens, Kind::Word(Keyword::Proc))
    }
}

/// The procedures of a unit or a client.
pub fn procs<'a>(alloc: Global, tokens: &'a [Token<'a>]) -> Read<'a, List<Proc>>
    ensures { Gives (λ x. (map proc_of x.0, x.1.now)) result (procs_at limits tokens.now) }
{
    many(alloc, tokens, &EachProc)
}

#[derive(Drop)]
struct EachSig;

impl Element for EachSig {
    type Item = Sig;

    ghost Tree = { syntax.Sig };

    ghost view = { sig_of };

    ghost reader = { λ _. sig_at limits };

    fn read<'a>(&self, alloc: Global, tokens: &'a [Token<'a>]) -> Read<'a, Sig> {
        method(alloc, tokens)
    }
}

impl Repeated for EachSig {
    ghost begins = { λ _. is_next (kind.Word word.Method) };

    fn begins(&self, tokens: &[Token<'_>]) -> bool {
        is_next(tokens, Kind::Word(Keyword::Method))
    }
}

/// The methods of an interface.
pub fn sigs<'a>(alloc: Global, tokens: &'a [Token<'a>]) -> Read<'a, List<Sig>>
    ensures { Gives (λ x. (map sig_of x.0, x.1.now)) result (sigs_at limits tokens.now) }
{
    many(alloc, tokens, &EachSig)
}
