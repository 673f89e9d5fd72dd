//! Reads interfaces.

ghost use Rattle.std.specs.Prelude.{map};
ghost use Rattle.rel_lang.specs.Refusal.{limits};
ghost use Rattle.rel_lang.specs.View.{place_of, effect_of, clause_of, interface_of};
ghost use Rattle.rel_parse.specs.Gives.{Gives};
ghost use Rattle.rel_decls.specs.Items.{boundary_at, init_at, interface_at};

use crate::decl::decls;
use crate::proc::sigs;
use crate::spec::{clause, places, writes};
use rel_lang::bundle::{Clause, Effect, Interface, Place};
use rel_lexer::{Keyword, Kind, Symbol, Token};
use rel_list::{Boxed, List};
use rel_parse::token::{Read, expect, name_of, place};
use std::alloc::Global;

/// The boundary, with the byte where it begins.
#[tactic(auto, unfolding(crate::specs::Items::boundary_at))]
fn boundary<'a>(alloc: Global, tokens: &'a [Token<'a>]) -> Read<'a, (u32, List<Place>)>
    ensures { Gives (λ x. ((x.0.0, map place_of x.0.1), x.1.now)) result
        (boundary_at limits tokens.now) }
{
    let at = place(tokens);
    let rest = expect(tokens, Kind::Word(Keyword::Boundary))?;
    let (places, rest) = places(alloc, rest)?;
    Ok(((at, places), rest))
}

/// What the init ensures, and what it writes.
#[tactic(auto, unfolding(crate::specs::Items::init_at))]
fn init<'a>(alloc: Global, tokens: &'a [Token<'a>]) -> Read<'a, (Boxed<Clause>, List<Effect>)>
    ensures { Gives (λ x. ((clause_of x.0.0, map effect_of x.0.1), x.1.now)) result
        (init_at limits tokens.now) }
{
    let rest = expect(tokens, Kind::Word(Keyword::Init))?;
    let rest = expect(rest, Kind::Word(Keyword::Ensures))?;
    let (ensured, rest) = clause(alloc, rest)?;
    let (writes, rest) = writes(alloc, rest)?;
    Ok(((ensured, writes), rest))
}

#[tactic(auto, unfolding(crate::specs::Items::interface_at))]
pub fn interface<'a>(alloc: Global, tokens: &'a [Token<'a>]) -> Read<'a, Interface>
    ensures { Gives (λ x. (interface_of x.0, x.1.now)) result (interface_at limits tokens.now) }
{
    let at = place(tokens);
    let rest = expect(tokens, Kind::Word(Keyword::Interface))?;
    let (name, rest) = name_of(alloc, rest)?;
    let rest = expect(rest, Kind::Symbol(Symbol::OpenBrace))?;
    let (globals, rest) = decls(alloc, rest, Kind::Word(Keyword::Global))?;
    let ((boundary_at, boundary), rest) = boundary(alloc, rest)?;
    let ((init_ensures, init_writes), rest) = init(alloc, rest)?;
    let (methods, rest) = sigs(alloc, rest)?;
    let rest = expect(rest, Kind::Symbol(Symbol::CloseBrace))?;
    Ok((
        Interface {
            at,
            name,
            globals,
            boundary_at,
            boundary,
            init_ensures: init_ensures.into_inner(),
            init_writes,
            methods,
        },
        rest,
    ))
}
