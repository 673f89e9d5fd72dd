//! Reads effects, clauses and specifications.

ghost use Rattle.std.specs.Prelude.{◌≡◌, map};
ghost use Rattle.rel_lang.specs.Refusal.{limits};
ghost use Rattle.rel_lang.specs.Syntax as syntax;
ghost use Rattle.rel_lang.specs.View.{place_of, effect_of, clause_of, rel_clause_of, spec_of};
ghost use Rattle.rel_parse.specs.Gives.{Gives};
ghost use Rattle.rel_decls.specs.Specifications.{is_variable_next, place_at, effect_at, places_at, writes_at, clause_at, rel_clause_at, spec_at};

use crate::DEEPEST;
use rel_lang::bundle::{Clause, Effect, Place, RelClause, Spec};
use rel_lexer::{Keyword, Kind, Symbol, Token};
use rel_list::{Boxed, List};
use rel_parse::expr::expression;
use rel_parse::formula::formula;
use rel_parse::relation::rel;
use rel_parse::several::{Element, listed};
use rel_parse::token::{Read, expect, is_name_next, is_second, name_of, place};
use std::alloc::Global;

#[tactic(auto, unfolding(crate::specs::Specifications::place_at))]
fn location<'a>(alloc: Global, tokens: &'a [Token<'a>]) -> Read<'a, Place>
    ensures { Gives (λ x. (place_of x.0, x.1.now)) result (place_at limits tokens.now) }
{
    let (region, rest) = expression(alloc, tokens, DEEPEST)?;
    let rest = expect(rest, Kind::Symbol(Symbol::At))?;
    let (field, rest) = name_of(alloc, rest)?;
    Ok((Place { region, field }, rest))
}

/// A name comes next, without a field behind it.
fn is_variable_next(tokens: &[Token<'_>]) -> bool
    ensures { result ≡ is_variable_next tokens.now }
{
    is_name_next(tokens) && !is_second(tokens, Kind::Symbol(Symbol::At))
}

#[tactic(auto, unfolding(crate::specs::Specifications::effect_at))]
fn effect<'a>(alloc: Global, tokens: &'a [Token<'a>]) -> Read<'a, Effect>
    ensures { Gives (λ x. (effect_of x.0, x.1.now)) result (effect_at limits tokens.now) }
{
    if is_variable_next(tokens) {
        let (name, rest) = name_of(alloc, tokens)?;
        return Ok((Effect::Var(name), rest));
    }
    let (place, rest) = location(alloc, tokens)?;
    Ok((Effect::At(place), rest))
}

#[derive(Drop)]
struct EachPlace;

impl Element for EachPlace {
    type Item = Place;

    ghost Tree = { syntax.Place };

    ghost view = { place_of };

    ghost reader = { λ _. place_at limits };

    fn read<'a>(&self, alloc: Global, tokens: &'a [Token<'a>]) -> Read<'a, Place> {
        location(alloc, tokens)
    }
}

#[derive(Drop)]
struct EachEffect;

impl Element for EachEffect {
    type Item = Effect;

    ghost Tree = { syntax.Effect };

    ghost view = { effect_of };

    ghost reader = { λ _. effect_at limits };

    fn read<'a>(&self, alloc: Global, tokens: &'a [Token<'a>]) -> Read<'a, Effect> {
        effect(alloc, tokens)
    }
}

/// The places between braces.
pub fn places<'a>(alloc: Global, tokens: &'a [Token<'a>]) -> Read<'a, List<Place>>
    ensures { Gives (λ x. (map place_of x.0, x.1.now)) result (places_at limits tokens.now) }
{
    let rest = expect(tokens, Kind::Symbol(Symbol::OpenBrace))?;
    let (places, rest) = listed(alloc, rest, Kind::Symbol(Symbol::CloseBrace), &EachPlace)?;
    let rest = expect(rest, Kind::Symbol(Symbol::CloseBrace))?;
    Ok((places, rest))
}

/// The effects behind the word `writes`.
pub fn writes<'a>(alloc: Global, tokens: &'a [Token<'a>]) -> Read<'a, List<Effect>>
    ensures { Gives (λ x. (map effect_of x.0, x.1.now)) result (writes_at limits tokens.now) }
{
    let rest = expect(tokens, Kind::Word(Keyword::Writes))?;
    let rest = expect(rest, Kind::Symbol(Symbol::OpenBrace))?;
    let (effects, rest) = listed(alloc, rest, Kind::Symbol(Symbol::CloseBrace), &EachEffect)?;
    let rest = expect(rest, Kind::Symbol(Symbol::CloseBrace))?;
    Ok((effects, rest))
}

#[tactic(auto, unfolding(crate::specs::Specifications::clause_at))]
fn plain_clause<'a>(alloc: Global, tokens: &'a [Token<'a>]) -> Read<'a, Clause>
    ensures { Gives (λ x. (clause_of x.0, x.1.now)) result (clause_at limits tokens.now) }
{
    let at = place(tokens);
    let (formula, rest) = formula(alloc, tokens, DEEPEST)?;
    Ok((Clause { at, formula }, rest))
}

#[tactic(auto, unfolding(crate::specs::Specifications::rel_clause_at))]
fn plain_rel_clause<'a>(alloc: Global, tokens: &'a [Token<'a>]) -> Read<'a, RelClause>
    ensures { Gives (λ x. (rel_clause_of x.0, x.1.now)) result (rel_clause_at limits tokens.now) }
{
    let at = place(tokens);
    let (formula, rest) = rel(alloc, tokens, DEEPEST)?;
    Ok((RelClause { at, formula }, rest))
}

pub fn clause<'a>(alloc: Global, tokens: &'a [Token<'a>]) -> Read<'a, Boxed<Clause>>
    ensures { Gives (λ x. (clause_of x.0, x.1.now)) result (clause_at limits tokens.now) }
{
    let (clause, rest) = plain_clause(alloc, tokens)?;
    Ok((Boxed::new(alloc, clause)?, rest))
}

pub fn rel_clause<'a>(alloc: Global, tokens: &'a [Token<'a>]) -> Read<'a, Boxed<RelClause>>
    ensures { Gives (λ x. (rel_clause_of x.0, x.1.now)) result (rel_clause_at limits tokens.now) }
{
    let (clause, rest) = plain_rel_clause(alloc, tokens)?;
    Ok((Boxed::new(alloc, clause)?, rest))
}

/// What is required, what is ensured, and what is written.
#[tactic(auto, unfolding(crate::specs::Specifications::spec_at))]
fn plain_spec<'a>(alloc: Global, tokens: &'a [Token<'a>]) -> Read<'a, Spec>
    ensures { Gives (λ x. (spec_of x.0, x.1.now)) result (spec_at limits tokens.now) }
{
    let rest = expect(tokens, Kind::Word(Keyword::Requires))?;
    let (needs, rest) = clause(alloc, rest)?;
    let rest = expect(rest, Kind::Word(Keyword::Ensures))?;
    let (gives, rest) = clause(alloc, rest)?;
    let (writes, rest) = writes(alloc, rest)?;
    Ok((
        Spec {
            needs: needs.into_inner(),
            gives: gives.into_inner(),
            writes,
        },
        rest,
    ))
}

pub fn spec<'a>(alloc: Global, tokens: &'a [Token<'a>]) -> Read<'a, Boxed<Spec>>
    ensures { Gives (λ x. (spec_of x.0, x.1.now)) result (spec_at limits tokens.now) }
{
    let (spec, rest) = plain_spec(alloc, tokens)?;
    Ok((Boxed::new(alloc, spec)?, rest))
}
