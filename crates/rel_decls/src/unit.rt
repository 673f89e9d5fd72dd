//! Reads units and clients.

ghost use Rattle.std.specs.Prelude.{map};
ghost use Rattle.rel_lang.specs.Refusal.{limits};
ghost use Rattle.rel_lang.specs.View.{decl_of, proc_of, unit_of, client_of};
ghost use Rattle.rel_parse.specs.Gives.{Gives};
ghost use Rattle.rel_decls.specs.Items.{titled_at, program_at, unit_at, client_at};

use crate::decl::decls;
use crate::proc::procs;
use rel_lang::bundle::{Client, Decl, Proc, UnitItem};
use rel_lexer::{Keyword, Kind, Symbol, Token};
use rel_list::{List, Name};
use rel_parse::token::{Read, expect, name_of, place};
use std::alloc::Global;

/// The globals and the procedures between braces.
#[tactic(auto, unfolding(crate::specs::Items::program_at))]
fn program<'a>(alloc: Global, tokens: &'a [Token<'a>]) -> Read<'a, (List<Decl>, List<Proc>)>
    ensures { Gives (λ x. ((map decl_of x.0.0, map proc_of x.0.1), x.1.now)) result
        (program_at limits tokens.now) }
{
    let rest = expect(tokens, Kind::Symbol(Symbol::OpenBrace))?;
    let (globals, rest) = decls(alloc, rest, Kind::Word(Keyword::Global))?;
    let (procs, rest) = procs(alloc, rest)?;
    let rest = expect(rest, Kind::Symbol(Symbol::CloseBrace))?;
    Ok(((globals, procs), rest))
}

/// A name and the name of an interface.
pub fn titled<'a>(alloc: Global, tokens: &'a [Token<'a>]) -> Read<'a, (Name, Name)>
    ensures { Gives (λ x. ((x.0.0, x.0.1), x.1.now)) result (titled_at tokens.now) }
{
    let (name, rest) = name_of(alloc, tokens)?;
    let rest = expect(rest, Kind::Symbol(Symbol::Colon))?;
    let (interface, rest) = name_of(alloc, rest)?;
    Ok(((name, interface), rest))
}

#[tactic(auto, unfolding(crate::specs::Items::unit_at))]
pub fn unit<'a>(alloc: Global, tokens: &'a [Token<'a>]) -> Read<'a, UnitItem>
    ensures { Gives (λ x. (unit_of x.0, x.1.now)) result (unit_at limits tokens.now) }
{
    let at = place(tokens);
    let rest = expect(tokens, Kind::Word(Keyword::Unit))?;
    let (name, rest) = name_of(alloc, rest)?;
    let ((globals, procs), rest) = program(alloc, rest)?;
    Ok((
        UnitItem {
            at,
            name,
            globals,
            procs,
        },
        rest,
    ))
}

#[tactic(auto, unfolding(crate::specs::Items::client_at))]
pub fn client<'a>(alloc: Global, tokens: &'a [Token<'a>]) -> Read<'a, Client>
    ensures { Gives (λ x. (client_of x.0, x.1.now)) result (client_at limits tokens.now) }
{
    let at = place(tokens);
    let rest = expect(tokens, Kind::Word(Keyword::Client))?;
    let ((name, interface), rest) = titled(alloc, rest)?;
    let ((globals, procs), rest) = program(alloc, rest)?;
    Ok((
        Client {
            at,
            name,
            interface,
            globals,
            procs,
        },
        rest,
    ))
}
