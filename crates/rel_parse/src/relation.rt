//! Reads relation formulas.

ghost use Rattle.std.specs.Prelude.{◌≡◌};
ghost use Rattle.rel_lang.specs.Syntax.{RelTrue, RelFalse};
ghost use Rattle.rel_lang.specs.View.{side_of, expression_of, rel_of};
ghost use Rattle.rel_lexer.specs.declared.Kind.TheVariants as kind;
ghost use Rattle.rel_lexer.specs.declared.keywords.Keyword.TheVariants as word;
ghost use Rattle.rel_parse.specs.Gives.{Gives};
ghost use Rattle.rel_parse.specs.Firsts.{begins_one, means};
ghost use Rattle.rel_parse.specs.Expressions.{expression_at};
ghost use Rattle.rel_parse.specs.Formulas.{formula_at};
ghost use Rattle.rel_parse.specs.Relations.{plain_firsts, begins_rel, on_left_at, on_right_at, on_both_at, agree_at, agree_image_at, plain_at, rel_connected, side_at, rel_not_at, rel_connecting_at, sided_at, rel_every_at, rel_exists_at, eventually_at, rel_at};

use crate::expr::expression;
use crate::fault::Fault;
use crate::formula::{Connective, binder, formula, read_connective};
use crate::token::{Read, expect, is_next, name_of};
use rel_lang::expr::{Expr, Side};
use rel_lang::relation::RelFormula;
use rel_lexer::{Keyword, Kind, Symbol, Token};
use rel_list::{Boxed, Name};
use std::alloc::Global;

/// The variable and the class of a quantifier, its region and its body.
pub type Range = ((Name, Name), (Expr, Boxed<RelFormula>));

/// Whether a relation formula begins here of which no part is one.
fn begins_plain(tokens: &[Token<'_>]) -> bool
    ensures { result ≡ begins_one plain_firsts tokens.now }
{
    is_next(tokens, Kind::Word(Keyword::True))
        || is_next(tokens, Kind::Word(Keyword::False))
        || is_next(tokens, Kind::Word(Keyword::Left))
        || is_next(tokens, Kind::Word(Keyword::Right))
        || is_next(tokens, Kind::Word(Keyword::Both))
        || is_next(tokens, Kind::Symbol(Symbol::OpenParenthesis))
        || is_next(tokens, Kind::Word(Keyword::Agree))
}

/// Whether a relation formula begins here.
pub fn begins_rel(tokens: &[Token<'_>]) -> bool
    ensures { result ≡ begins_rel tokens.now }
{
    is_next(tokens, Kind::Word(Keyword::True))
        || is_next(tokens, Kind::Word(Keyword::False))
        || is_next(tokens, Kind::Word(Keyword::Left))
        || is_next(tokens, Kind::Word(Keyword::Right))
        || is_next(tokens, Kind::Word(Keyword::Both))
        || is_next(tokens, Kind::Symbol(Symbol::OpenParenthesis))
        || is_next(tokens, Kind::Word(Keyword::Agree))
        || is_next(tokens, Kind::Word(Keyword::Not))
        || is_next(tokens, Kind::Symbol(Symbol::OpenBracket))
        || is_next(tokens, Kind::Word(Keyword::All))
        || is_next(tokens, Kind::Word(Keyword::Some))
        || is_next(tokens, Kind::Word(Keyword::Eventually))
}

fn truth<'a>(tokens: &'a [Token<'a>]) -> Read<'a, RelFormula>
    ensures { Gives (λ x. (rel_of x.0, x.1.now)) result (means (kind.Word word.True) RelTrue tokens.now) }
{
    let rest = expect(tokens, Kind::Word(Keyword::True))?;
    Ok((RelFormula::True, rest))
}

fn falsehood<'a>(tokens: &'a [Token<'a>]) -> Read<'a, RelFormula>
    ensures { Gives (λ x. (rel_of x.0, x.1.now)) result (means (kind.Word word.False) RelFalse tokens.now) }
{
    let rest = expect(tokens, Kind::Word(Keyword::False))?;
    Ok((RelFormula::False, rest))
}

fn on_left<'a>(alloc: Global, tokens: &'a [Token<'a>], left: u32) -> Read<'a, RelFormula>
    ensures { Gives (λ x. (rel_of x.0, x.1.now)) result (on_left_at (formula_at left) tokens.now) }
{
    let rest = expect(tokens, Kind::Word(Keyword::Left))?;
    let (fact, rest) = formula(alloc, rest, left)?;
    Ok((RelFormula::OnLeft(fact), rest))
}

fn on_right<'a>(alloc: Global, tokens: &'a [Token<'a>], left: u32) -> Read<'a, RelFormula>
    ensures { Gives (λ x. (rel_of x.0, x.1.now)) result (on_right_at (formula_at left) tokens.now) }
{
    let rest = expect(tokens, Kind::Word(Keyword::Right))?;
    let (fact, rest) = formula(alloc, rest, left)?;
    Ok((RelFormula::OnRight(fact), rest))
}

fn on_both<'a>(alloc: Global, tokens: &'a [Token<'a>], left: u32) -> Read<'a, RelFormula>
    ensures { Gives (λ x. (rel_of x.0, x.1.now)) result (on_both_at (formula_at left) tokens.now) }
{
    let rest = expect(tokens, Kind::Word(Keyword::Both))?;
    let (fact, rest) = formula(alloc, rest, left)?;
    Ok((RelFormula::Both(fact), rest))
}

fn agreement<'a>(alloc: Global, tokens: &'a [Token<'a>], left: u32) -> Read<'a, RelFormula>
    ensures { Gives (λ x. (rel_of x.0, x.1.now)) result (agree_at (expression_at left) tokens.now) }
{
    let rest = expect(tokens, Kind::Symbol(Symbol::OpenParenthesis))?;
    let (first, rest) = expression(alloc, rest, left)?;
    let rest = expect(rest, Kind::Symbol(Symbol::EqualColonEqual))?;
    let (second, rest) = expression(alloc, rest, left)?;
    let rest = expect(rest, Kind::Symbol(Symbol::CloseParenthesis))?;
    Ok((RelFormula::Agree(first, second), rest))
}

fn image_agreement<'a>(alloc: Global, tokens: &'a [Token<'a>], left: u32) -> Read<'a, RelFormula>
    ensures { Gives (λ x. (rel_of x.0, x.1.now)) result (agree_image_at (expression_at left) tokens.now) }
{
    let rest = expect(tokens, Kind::Word(Keyword::Agree))?;
    let (region, rest) = expression(alloc, rest, left)?;
    let rest = expect(rest, Kind::Symbol(Symbol::At))?;
    let (field, rest) = name_of(alloc, rest)?;
    Ok((RelFormula::AgreeImage(region, field), rest))
}

/// A relation formula of which no part is one.
fn plain<'a>(alloc: Global, tokens: &'a [Token<'a>], left: u32) -> Read<'a, RelFormula>
    ensures { Gives (λ x. (rel_of x.0, x.1.now)) result (plain_at (expression_at left) (formula_at left) tokens.now) }
{
    if is_next(tokens, Kind::Word(Keyword::True)) {
        truth(tokens)
    } else if is_next(tokens, Kind::Word(Keyword::False)) {
        falsehood(tokens)
    } else if is_next(tokens, Kind::Word(Keyword::Left)) {
        on_left(alloc, tokens, left)
    } else if is_next(tokens, Kind::Word(Keyword::Right)) {
        on_right(alloc, tokens, left)
    } else if is_next(tokens, Kind::Word(Keyword::Both)) {
        on_both(alloc, tokens, left)
    } else if is_next(tokens, Kind::Symbol(Symbol::OpenParenthesis)) {
        agreement(alloc, tokens, left)
    } else {
        image_agreement(alloc, tokens, left)
    }
}

fn connected(
    connective: Connective,
    left: Boxed<RelFormula>,
    right: Boxed<RelFormula>,
) -> RelFormula
    ensures { rel_of result ≡ rel_connected connective (rel_of left) (rel_of right) }
{
    match connective {
        Connective::And => RelFormula::And(left, right),
        Connective::Or => RelFormula::Or(left, right),
        Connective::Implies => RelFormula::Implies(left, right),
    }
}

fn read_side<'a>(tokens: &'a [Token<'a>]) -> Read<'a, Side>
    ensures { Gives (λ x. (side_of x.0, x.1.now)) result (side_at tokens.now) }
{
    if is_next(tokens, Kind::Word(Keyword::Left)) {
        Ok((Side::Left, expect(tokens, Kind::Word(Keyword::Left))?))
    } else {
        Ok((Side::Right, expect(tokens, Kind::Word(Keyword::Right))?))
    }
}

/// A relation formula that is at most so deep.
#[cycle(rel)]
#[tactic(auto, using(crate::proofs::RelationLevels::rel_at_none, crate::proofs::RelationLevels::rel_at_more))]
pub fn rel<'a>(alloc: Global, tokens: &'a [Token<'a>], left: u32) -> Read<'a, RelFormula>
    ensures { Gives (λ x. (rel_of x.0, x.1.now)) result (rel_at left tokens.now) }
{
    if left == 0 {
        if begins_rel(tokens) {
            Err(Fault::TooDeep(tokens.len()))
        } else {
            Err(Fault::Unexpected(tokens.len()))
        }
    } else if begins_plain(tokens) {
        plain(alloc, tokens, left - 1)
    } else if is_next(tokens, Kind::Word(Keyword::Not)) {
        negation(alloc, tokens, left - 1)
    } else if is_next(tokens, Kind::Symbol(Symbol::OpenBracket)) {
        let rest = expect(tokens, Kind::Symbol(Symbol::OpenBracket))?;
        connecting(alloc, rest, left - 1)
    } else if is_next(tokens, Kind::Word(Keyword::All)) {
        every(alloc, tokens, left - 1)
    } else if is_next(tokens, Kind::Word(Keyword::Some)) {
        exists(alloc, tokens, left - 1)
    } else {
        eventually(alloc, tokens, left - 1)
    }
}

#[cycle(rel)]
pub fn part<'a>(alloc: Global, tokens: &'a [Token<'a>], left: u32) -> Read<'a, Boxed<RelFormula>>
    ensures { Gives (λ x. (rel_of x.0, x.1.now)) result (rel_at left tokens.now) }
{
    let (whole, rest) = rel(alloc, tokens, left)?;
    Ok((Boxed::new(alloc, whole)?, rest))
}

#[cycle(rel)]
fn negation<'a>(alloc: Global, tokens: &'a [Token<'a>], left: u32) -> Read<'a, RelFormula>
    ensures { Gives (λ x. (rel_of x.0, x.1.now)) result (rel_not_at (rel_at left) tokens.now) }
{
    let rest = expect(tokens, Kind::Word(Keyword::Not))?;
    let (operand, rest) = part(alloc, rest, left)?;
    Ok((RelFormula::Not(operand), rest))
}

#[cycle(rel)]
fn eventually<'a>(alloc: Global, tokens: &'a [Token<'a>], left: u32) -> Read<'a, RelFormula>
    ensures { Gives (λ x. (rel_of x.0, x.1.now)) result (eventually_at (rel_at left) tokens.now) }
{
    let rest = expect(tokens, Kind::Word(Keyword::Eventually))?;
    let (operand, rest) = part(alloc, rest, left)?;
    Ok((RelFormula::Eventually(operand), rest))
}

/// What stands behind an opening bracket.
#[cycle(rel)]
fn connecting<'a>(alloc: Global, tokens: &'a [Token<'a>], left: u32) -> Read<'a, RelFormula>
    ensures { Gives (λ x. (rel_of x.0, x.1.now)) result (rel_connecting_at (rel_at left) tokens.now) }
{
    let (first, rest) = part(alloc, tokens, left)?;
    let (connective, rest) = read_connective(rest)?;
    let (second, rest) = part(alloc, rest, left)?;
    let rest = expect(rest, Kind::Symbol(Symbol::CloseBracket))?;
    Ok((connected(connective, first, second), rest))
}

/// What stands behind a quantifier.
#[cycle(rel)]
fn sided<'a>(alloc: Global, tokens: &'a [Token<'a>], left: u32) -> Read<'a, (Side, Range)>
    ensures { Gives (λ x. ((side_of x.0.0, (x.0.1.0, (expression_of x.0.1.1.0, rel_of x.0.1.1.1))), x.1.now)) result (sided_at (expression_at left) (rel_at left) tokens.now) }
{
    let (side, rest) = read_side(tokens)?;
    let (binder, rest) = binder(alloc, rest)?;
    let (region, rest) = expression(alloc, rest, left)?;
    let rest = expect(rest, Kind::Symbol(Symbol::OpenBrace))?;
    let (body, rest) = part(alloc, rest, left)?;
    let rest = expect(rest, Kind::Symbol(Symbol::CloseBrace))?;
    Ok(((side, (binder, (region, body))), rest))
}

#[cycle(rel)]
fn every<'a>(alloc: Global, tokens: &'a [Token<'a>], left: u32) -> Read<'a, RelFormula>
    ensures { Gives (λ x. (rel_of x.0, x.1.now)) result (rel_every_at (expression_at left) (rel_at left) tokens.now) }
{
    let rest = expect(tokens, Kind::Word(Keyword::All))?;
    let ((side, ((name, class), (region, body))), rest) = sided(alloc, rest, left)?;
    Ok((RelFormula::Every(side, name, class, region, body), rest))
}

#[cycle(rel)]
fn exists<'a>(alloc: Global, tokens: &'a [Token<'a>], left: u32) -> Read<'a, RelFormula>
    ensures { Gives (λ x. (rel_of x.0, x.1.now)) result (rel_exists_at (expression_at left) (rel_at left) tokens.now) }
{
    let rest = expect(tokens, Kind::Word(Keyword::Some))?;
    let ((side, ((name, class), (region, body))), rest) = sided(alloc, rest, left)?;
    Ok((RelFormula::Exists(side, name, class, region, body), rest))
}
