//! Reads modules.

ghost use Rattle.std.specs.Prelude.{map};
ghost use Rattle.rel_lang.specs.Refusal.{limits};
ghost use Rattle.rel_lang.specs.Syntax as syntax;
ghost use Rattle.rel_lang.specs.View.{clause_of, body_of, module_of};
ghost use Rattle.rel_lexer.specs.declared.Kind.TheVariants as kind;
ghost use Rattle.rel_lexer.specs.declared.keywords.Keyword.TheVariants as word;
ghost use Rattle.rel_parse.specs.Gives.{Gives};
ghost use Rattle.rel_parse.specs.Reading.{is_next};
ghost use Rattle.rel_decls.specs.Items.{init_body_at, method_at, methods_at, invariant_at, module_at};

use crate::decl::decls;
use crate::proc::content;
use crate::spec::clause;
use crate::unit::titled;
use rel_lang::bundle::{Body, Clause, Module};
use rel_lexer::{Keyword, Kind, Symbol, Token};
use rel_list::{Boxed, List, Name};
use rel_parse::several::{Element, Repeated, many};
use rel_parse::token::{Read, expect, is_next, name_of, place};
use std::alloc::Global;

/// The body behind the word `init`.
#[tactic(auto, unfolding(crate::specs::Items::init_body_at))]
fn init_body<'a>(alloc: Global, tokens: &'a [Token<'a>]) -> Read<'a, Body>
    ensures { Gives (λ x. (body_of x.0, x.1.now)) result (init_body_at limits tokens.now) }
{
    let at = place(tokens);
    let rest = expect(tokens, Kind::Word(Keyword::Init))?;
    let ((locals, commands), rest) = content(alloc, rest)?;
    Ok((
        Body {
            at,
            locals,
            commands,
        },
        rest,
    ))
}

#[tactic(auto, unfolding(crate::specs::Items::method_at))]
fn method<'a>(alloc: Global, tokens: &'a [Token<'a>]) -> Read<'a, (Name, Body)>
    ensures { Gives (λ x. ((x.0.0, body_of x.0.1), x.1.now)) result (method_at limits tokens.now) }
{
    let at = place(tokens);
    let rest = expect(tokens, Kind::Word(Keyword::Method))?;
    let (name, rest) = name_of(alloc, rest)?;
    let ((locals, commands), rest) = content(alloc, rest)?;
    let body = Body {
        at,
        locals,
        commands,
    };
    Ok(((name, body), rest))
}

/// The invariant, with its semicolon.
#[tactic(auto, unfolding(crate::specs::Items::invariant_at))]
fn invariant_of<'a>(alloc: Global, tokens: &'a [Token<'a>]) -> Read<'a, Boxed<Clause>>
    ensures { Gives (λ x. (clause_of x.0, x.1.now)) result (invariant_at limits tokens.now) }
{
    let rest = expect(tokens, Kind::Word(Keyword::Invariant))?;
    let (clause, rest) = clause(alloc, rest)?;
    let rest = expect(rest, Kind::Symbol(Symbol::Semicolon))?;
    Ok((clause, rest))
}

#[derive(Drop)]
struct EachMethod;

impl Element for EachMethod {
    type Item = (Name, Body);

    ghost Tree = { syntax.Word × syntax.Body };

    ghost view = { λ m. (m.0, body_of m.1) };

    ghost reader = { λ _. method_at limits };

    fn read<'a>(&self, alloc: Global, tokens: &'a [Token<'a>]) -> Read<'a, (Name, Body)> {
        method(alloc, tokens)
    }
}

impl Repeated for EachMethod {
    ghost begins = { λ _. is_next (kind.Word word.Method) };

    fn begins(&self, tokens: &[Token<'_>]) -> bool {
        is_next(tokens, Kind::Word(Keyword::Method))
    }
}

fn methods<'a>(alloc: Global, tokens: &'a [Token<'a>]) -> Read<'a, List<(Name, Body)>>
    ensures { Gives (λ x. (map (λ m. (m.0, body_of m.1)) x.0, x.1.now)) result
        (methods_at limits tokens.now) }
{
    many(alloc, tokens, &EachMethod)
}

#[tactic(auto, unfolding(crate::specs::Items::module_at))]
pub fn module<'a>(alloc: Global, tokens: &'a [Token<'a>]) -> Read<'a, Module>
    ensures { Gives (λ x. (module_of x.0, x.1.now)) result (module_at limits tokens.now) }
{
    let at = place(tokens);
    let rest = expect(tokens, Kind::Word(Keyword::Module))?;
    let ((name, interface), rest) = titled(alloc, rest)?;
    let rest = expect(rest, Kind::Symbol(Symbol::OpenBrace))?;
    let (globals, rest) = decls(alloc, rest, Kind::Word(Keyword::Global))?;
    let (invariant, rest) = invariant_of(alloc, rest)?;
    let (init, rest) = init_body(alloc, rest)?;
    let (methods, rest) = methods(alloc, rest)?;
    let rest = expect(rest, Kind::Symbol(Symbol::CloseBrace))?;
    Ok((
        Module {
            at,
            name,
            interface,
            globals,
            invariant: invariant.into_inner(),
            init,
            methods,
        },
        rest,
    ))
}
