//! Reads judgements and pairs of modules.

ghost use Rattle.std.specs.Prelude.{ℕ, map};
ghost use Rattle.rel_lang.specs.Refusal.{limits};
ghost use Rattle.rel_lang.specs.Syntax as syntax;
ghost use Rattle.rel_lang.specs.View.{rel_clause_of, align_of, judgement_of, pair_of};
ghost use Rattle.rel_lexer.specs.declared.Kind.TheVariants as kind;
ghost use Rattle.rel_lexer.specs.declared.keywords.Keyword.TheVariants as word;
ghost use Rattle.rel_parse.specs.Gives.{Gives};
ghost use Rattle.rel_parse.specs.Reading.{is_next, name_at};
ghost use Rattle.rel_decls.specs.Items.{subject_at, about_at, judgement_at, coupling_at, pair_init_at, pair_method_at, pair_methods_at, pair_at};

use crate::align::align;
use crate::spec::rel_clause;
use rel_lang::biprogram::Align;
use rel_lang::bundle::{Judgement, Pair, RelClause};
use rel_lexer::{Keyword, Kind, Symbol, Token};
use rel_list::{Boxed, List, Name};
use rel_parse::several::{Element, Repeated, many};
use rel_parse::token::{Read, expect, is_next, name_of, place};
use std::alloc::Global;

/// A unit's name and a procedure's.
fn subject<'a>(alloc: Global, tokens: &'a [Token<'a>]) -> Read<'a, (Name, Name)>
    ensures { Gives (λ x. ((x.0.0, x.0.1), x.1.now)) result (subject_at tokens.now) }
{
    let (unit, rest) = name_of(alloc, tokens)?;
    let rest = expect(rest, Kind::Symbol(Symbol::Dot))?;
    let (procedure, rest) = name_of(alloc, rest)?;
    Ok(((unit, procedure), rest))
}

/// The name of a judgement and its two procedures.
#[derive(Drop)]
struct Title {
    name: Name,
    left: (Name, Name),
    right: (Name, Name),
}

fn title_of<'a>(alloc: Global, tokens: &'a [Token<'a>]) -> Read<'a, Title>
    ensures { Gives (λ x. ((x.0.name, ((x.0.left.0, x.0.left.1), (x.0.right.0, x.0.right.1))), x.1.now)) result
        (about_at subject_at tokens.now) }
{
    let (name, rest) = name_of(alloc, tokens)?;
    let rest = expect(rest, Kind::Symbol(Symbol::Colon))?;
    let (left, rest) = subject(alloc, rest)?;
    let rest = expect(rest, Kind::Symbol(Symbol::Tilde))?;
    let (right, rest) = subject(alloc, rest)?;
    Ok((Title { name, left, right }, rest))
}

#[tactic(auto, unfolding(crate::specs::Items::judgement_at))]
pub fn judgement<'a>(alloc: Global, tokens: &'a [Token<'a>]) -> Read<'a, Judgement>
    ensures { Gives (λ x. (judgement_of x.0, x.1.now)) result (judgement_at limits tokens.now) }
{
    let at = place(tokens);
    let rest = expect(tokens, Kind::Word(Keyword::Judge))?;
    let (title, rest) = title_of(alloc, rest)?;
    let rest = expect(rest, Kind::Word(Keyword::Requires))?;
    let (needs, rest) = rel_clause(alloc, rest)?;
    let rest = expect(rest, Kind::Word(Keyword::Ensures))?;
    let (gives, rest) = rel_clause(alloc, rest)?;
    let (align, rest) = align(alloc, rest)?;
    Ok((
        Judgement {
            at,
            name: title.name,
            left: title.left,
            right: title.right,
            needs: needs.into_inner(),
            gives: gives.into_inner(),
            align,
        },
        rest,
    ))
}

/// The names of a pair and of its two modules.
#[derive(Drop)]
struct Names {
    name: Name,
    left: Name,
    right: Name,
}

fn names_of<'a>(alloc: Global, tokens: &'a [Token<'a>]) -> Read<'a, Names>
    ensures { Gives (λ x. ((x.0.name, (x.0.left, x.0.right)), x.1.now)) result
        (about_at name_at tokens.now) }
{
    let (name, rest) = name_of(alloc, tokens)?;
    let rest = expect(rest, Kind::Symbol(Symbol::Colon))?;
    let (left, rest) = name_of(alloc, rest)?;
    let rest = expect(rest, Kind::Symbol(Symbol::Tilde))?;
    let (right, rest) = name_of(alloc, rest)?;
    Ok((Names { name, left, right }, rest))
}

/// The coupling, with its semicolon.
#[tactic(auto, unfolding(crate::specs::Items::coupling_at))]
fn coupling_of<'a>(alloc: Global, tokens: &'a [Token<'a>]) -> Read<'a, Boxed<RelClause>>
    ensures { Gives (λ x. (rel_clause_of x.0, x.1.now)) result (coupling_at limits tokens.now) }
{
    let rest = expect(tokens, Kind::Word(Keyword::Coupling))?;
    let (coupling, rest) = rel_clause(alloc, rest)?;
    let rest = expect(rest, Kind::Symbol(Symbol::Semicolon))?;
    Ok((coupling, rest))
}

/// How the inits are aligned.
#[tactic(auto, unfolding(crate::specs::Items::pair_init_at))]
fn pair_init<'a>(alloc: Global, tokens: &'a [Token<'a>]) -> Read<'a, (u32, Align)>
    ensures { Gives (λ x. ((x.0.0, align_of x.0.1), x.1.now)) result
        (pair_init_at limits tokens.now) }
{
    let at = place(tokens);
    let rest = expect(tokens, Kind::Word(Keyword::Init))?;
    let (align, rest) = align(alloc, rest)?;
    Ok(((at, align), rest))
}

/// How two methods are aligned.
#[tactic(auto, unfolding(crate::specs::Items::pair_method_at))]
fn pair_method<'a>(alloc: Global, tokens: &'a [Token<'a>]) -> Read<'a, (u32, Name, Align)>
    ensures { Gives (λ x. ((x.0.0, x.0.1, align_of x.0.2), x.1.now)) result
        (pair_method_at limits tokens.now) }
{
    let at = place(tokens);
    let rest = expect(tokens, Kind::Word(Keyword::Method))?;
    let (name, rest) = name_of(alloc, rest)?;
    let (align, rest) = align(alloc, rest)?;
    Ok(((at, name, align), rest))
}

#[derive(Drop)]
struct EachAlignment;

impl Element for EachAlignment {
    type Item = (u32, Name, Align);

    ghost Tree = { ℕ × syntax.Word × syntax.Align };

    ghost view = { λ m. (m.0, m.1, align_of m.2) };

    ghost reader = { λ _. pair_method_at limits };

    fn read<'a>(&self, alloc: Global, tokens: &'a [Token<'a>]) -> Read<'a, (u32, Name, Align)> {
        pair_method(alloc, tokens)
    }
}

impl Repeated for EachAlignment {
    ghost begins = { λ _. is_next (kind.Word word.Method) };

    fn begins(&self, tokens: &[Token<'_>]) -> bool {
        is_next(tokens, Kind::Word(Keyword::Method))
    }
}

fn pair_methods<'a>(alloc: Global, tokens: &'a [Token<'a>]) -> Read<'a, List<(u32, Name, Align)>>
    ensures { Gives (λ x. (map (λ m. (m.0, m.1, align_of m.2)) x.0, x.1.now)) result
        (pair_methods_at limits tokens.now) }
{
    many(alloc, tokens, &EachAlignment)
}

#[tactic(auto, unfolding(crate::specs::Items::pair_at))]
pub fn pair<'a>(alloc: Global, tokens: &'a [Token<'a>]) -> Read<'a, Pair>
    ensures { Gives (λ x. (pair_of x.0, x.1.now)) result (pair_at limits tokens.now) }
{
    let at = place(tokens);
    let rest = expect(tokens, Kind::Word(Keyword::Pair))?;
    let (names, rest) = names_of(alloc, rest)?;
    let rest = expect(rest, Kind::Symbol(Symbol::OpenBrace))?;
    let (coupling, rest) = coupling_of(alloc, rest)?;
    let (init, rest) = pair_init(alloc, rest)?;
    let (methods, rest) = pair_methods(alloc, rest)?;
    let rest = expect(rest, Kind::Symbol(Symbol::CloseBrace))?;
    Ok((
        Pair {
            at,
            name: names.name,
            left: names.left,
            right: names.right,
            coupling: coupling.into_inner(),
            init,
            methods,
        },
        rest,
    ))
}
