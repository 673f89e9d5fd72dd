//! Reads formulas.

ghost use Rattle.std.specs.Prelude.{◌≡◌};
ghost use Rattle.rel_lang.specs.Syntax.{True, False};
ghost use Rattle.rel_lang.specs.View.{expression_of, formula_of};
ghost use Rattle.rel_lexer.specs.declared.Kind.TheVariants as kind;
ghost use Rattle.rel_lexer.specs.declared.keywords.Keyword.TheVariants as word;
ghost use Rattle.rel_parse.specs.Gives.{Gives};
ghost use Rattle.rel_parse.specs.Firsts.{means};
ghost use Rattle.rel_parse.specs.Expressions.{expression_at};
ghost use Rattle.rel_parse.specs.Formulas.{begins_formula, comparison_at, compared, connective_at, connected, binder_at, quantified_at, comparing_at, connecting_at, not_at, every_at, exists_at, formula_at};

use crate::expr::expression;
use crate::fault::Fault;
use crate::token::{Read, expect, is_next, name_of};
use rel_lang::expr::Expr;
use rel_lang::formula::Formula;
use rel_lexer::{Keyword, Kind, Symbol, Token};
use rel_list::{Boxed, Name};
use std::alloc::Global;

/// What stands between two expressions in a formula.
#[derive(Clone, Copy, Debug)]
pub enum Comparison {
    Eq,
    Lt,
    Le,
    Member,
    Subset,
}

/// What stands between two formulas, or two relation formulas.
#[derive(Clone, Copy, Debug)]
pub enum Connective {
    And,
    Or,
    Implies,
}

/// Whether a formula begins here.
pub fn begins_formula(tokens: &[Token<'_>]) -> bool
    ensures { result ≡ begins_formula tokens.now }
{
    is_next(tokens, Kind::Word(Keyword::True))
        || is_next(tokens, Kind::Word(Keyword::False))
        || is_next(tokens, Kind::Word(Keyword::Not))
        || is_next(tokens, Kind::Symbol(Symbol::OpenParenthesis))
        || is_next(tokens, Kind::Symbol(Symbol::OpenBracket))
        || is_next(tokens, Kind::Word(Keyword::All))
        || is_next(tokens, Kind::Word(Keyword::Some))
}

fn read_comparison<'a>(tokens: &'a [Token<'a>]) -> Read<'a, Comparison>
    ensures { Gives (λ x. (x.0, x.1.now)) result (comparison_at tokens.now) }
{
    if is_next(tokens, Kind::Symbol(Symbol::Equal)) {
        Ok((Comparison::Eq, expect(tokens, Kind::Symbol(Symbol::Equal))?))
    } else if is_next(tokens, Kind::Symbol(Symbol::Less)) {
        Ok((Comparison::Lt, expect(tokens, Kind::Symbol(Symbol::Less))?))
    } else if is_next(tokens, Kind::Symbol(Symbol::LessEqual)) {
        Ok((
            Comparison::Le,
            expect(tokens, Kind::Symbol(Symbol::LessEqual))?,
        ))
    } else if is_next(tokens, Kind::Word(Keyword::In)) {
        Ok((Comparison::Member, expect(tokens, Kind::Word(Keyword::In))?))
    } else {
        Ok((
            Comparison::Subset,
            expect(tokens, Kind::Word(Keyword::Sub))?,
        ))
    }
}

fn compared(comparison: Comparison, left: Expr, right: Expr) -> Formula
    ensures { formula_of result ≡ compared comparison (expression_of left) (expression_of right) }
{
    match comparison {
        Comparison::Eq => Formula::Eq(left, right),
        Comparison::Lt => Formula::Lt(left, right),
        Comparison::Le => Formula::Le(left, right),
        Comparison::Member => Formula::Member(left, right),
        Comparison::Subset => Formula::Subset(left, right),
    }
}

pub fn read_connective<'a>(tokens: &'a [Token<'a>]) -> Read<'a, Connective>
    ensures { Gives (λ x. (x.0, x.1.now)) result (connective_at tokens.now) }
{
    if is_next(tokens, Kind::Word(Keyword::And)) {
        Ok((Connective::And, expect(tokens, Kind::Word(Keyword::And))?))
    } else if is_next(tokens, Kind::Word(Keyword::Or)) {
        Ok((Connective::Or, expect(tokens, Kind::Word(Keyword::Or))?))
    } else {
        Ok((
            Connective::Implies,
            expect(tokens, Kind::Word(Keyword::Implies))?,
        ))
    }
}

fn connected(connective: Connective, left: Boxed<Formula>, right: Boxed<Formula>) -> Formula
    ensures { formula_of result ≡ connected connective (formula_of left) (formula_of right) }
{
    match connective {
        Connective::And => Formula::And(left, right),
        Connective::Or => Formula::Or(left, right),
        Connective::Implies => Formula::Implies(left, right),
    }
}

/// A quantifier's variable and class, up to the region that it ranges over.
pub fn binder<'a>(alloc: Global, tokens: &'a [Token<'a>]) -> Read<'a, (Name, Name)>
    ensures { Gives (λ x. (x.0, x.1.now)) result (binder_at tokens.now) }
{
    let (name, rest) = name_of(alloc, tokens)?;
    let rest = expect(rest, Kind::Symbol(Symbol::Colon))?;
    let (class, rest) = name_of(alloc, rest)?;
    let rest = expect(rest, Kind::Word(Keyword::In))?;
    Ok(((name, class), rest))
}

fn truth<'a>(tokens: &'a [Token<'a>]) -> Read<'a, Formula>
    ensures { Gives (λ x. (formula_of x.0, x.1.now)) result (means (kind.Word word.True) True tokens.now) }
{
    let rest = expect(tokens, Kind::Word(Keyword::True))?;
    Ok((Formula::True, rest))
}

fn falsehood<'a>(tokens: &'a [Token<'a>]) -> Read<'a, Formula>
    ensures { Gives (λ x. (formula_of x.0, x.1.now)) result (means (kind.Word word.False) False tokens.now) }
{
    let rest = expect(tokens, Kind::Word(Keyword::False))?;
    Ok((Formula::False, rest))
}

/// What stands behind an opening parenthesis.
fn comparing<'a>(alloc: Global, tokens: &'a [Token<'a>], left: u32) -> Read<'a, Formula>
    ensures { Gives (λ x. (formula_of x.0, x.1.now)) result (comparing_at (expression_at left) tokens.now) }
{
    let (first, rest) = expression(alloc, tokens, left)?;
    let (comparison, rest) = read_comparison(rest)?;
    let (second, rest) = expression(alloc, rest, left)?;
    let rest = expect(rest, Kind::Symbol(Symbol::CloseParenthesis))?;
    Ok((compared(comparison, first, second), rest))
}

/// A formula that is at most so deep.
#[cycle(formula)]
#[tactic(auto, using(crate::proofs::FormulaLevels::formula_at_none, crate::proofs::FormulaLevels::formula_at_more))]
pub fn formula<'a>(alloc: Global, tokens: &'a [Token<'a>], left: u32) -> Read<'a, Formula>
    ensures { Gives (λ x. (formula_of x.0, x.1.now)) result (formula_at left tokens.now) }
{
    if left == 0 {
        if begins_formula(tokens) {
            Err(Fault::TooDeep(tokens.len()))
        } else {
            Err(Fault::Unexpected(tokens.len()))
        }
    } else if is_next(tokens, Kind::Word(Keyword::True)) {
        truth(tokens)
    } else if is_next(tokens, Kind::Word(Keyword::False)) {
        falsehood(tokens)
    } else if is_next(tokens, Kind::Word(Keyword::Not)) {
        negation(alloc, tokens, left - 1)
    } else if is_next(tokens, Kind::Symbol(Symbol::OpenParenthesis)) {
        let rest = expect(tokens, Kind::Symbol(Symbol::OpenParenthesis))?;
        comparing(alloc, rest, left - 1)
    } else if is_next(tokens, Kind::Symbol(Symbol::OpenBracket)) {
        let rest = expect(tokens, Kind::Symbol(Symbol::OpenBracket))?;
        connecting(alloc, rest, left - 1)
    } else if is_next(tokens, Kind::Word(Keyword::All)) {
        every(alloc, tokens, left - 1)
    } else {
        exists(alloc, tokens, left - 1)
    }
}

#[cycle(formula)]
pub fn part<'a>(alloc: Global, tokens: &'a [Token<'a>], left: u32) -> Read<'a, Boxed<Formula>>
    ensures { Gives (λ x. (formula_of x.0, x.1.now)) result (formula_at left tokens.now) }
{
    let (whole, rest) = formula(alloc, tokens, left)?;
    Ok((Boxed::new(alloc, whole)?, rest))
}

#[cycle(formula)]
fn negation<'a>(alloc: Global, tokens: &'a [Token<'a>], left: u32) -> Read<'a, Formula>
    ensures { Gives (λ x. (formula_of x.0, x.1.now)) result (not_at (formula_at left) tokens.now) }
{
    let rest = expect(tokens, Kind::Word(Keyword::Not))?;
    let (operand, rest) = part(alloc, rest, left)?;
    Ok((Formula::Not(operand), rest))
}

/// What stands behind an opening bracket.
#[cycle(formula)]
fn connecting<'a>(alloc: Global, tokens: &'a [Token<'a>], left: u32) -> Read<'a, Formula>
    ensures { Gives (λ x. (formula_of x.0, x.1.now)) result (connecting_at (formula_at left) tokens.now) }
{
    let (first, rest) = part(alloc, tokens, left)?;
    let (connective, rest) = read_connective(rest)?;
    let (second, rest) = part(alloc, rest, left)?;
    let rest = expect(rest, Kind::Symbol(Symbol::CloseBracket))?;
    Ok((connected(connective, first, second), rest))
}

/// The variable and the class of a quantifier, its region and its body.
#[cycle(formula)]
fn quantified<'a>(
    alloc: Global,
    tokens: &'a [Token<'a>],
    left: u32,
) -> Read<'a, ((Name, Name), (Expr, Boxed<Formula>))>
    ensures { Gives (λ x. ((x.0.0, (expression_of x.0.1.0, formula_of x.0.1.1)), x.1.now)) result (quantified_at (expression_at left) (formula_at left) tokens.now) }
{
    let (binder, rest) = binder(alloc, tokens)?;
    let (region, rest) = expression(alloc, rest, left)?;
    let rest = expect(rest, Kind::Symbol(Symbol::OpenBrace))?;
    let (body, rest) = part(alloc, rest, left)?;
    let rest = expect(rest, Kind::Symbol(Symbol::CloseBrace))?;
    Ok(((binder, (region, body)), rest))
}

#[cycle(formula)]
fn every<'a>(alloc: Global, tokens: &'a [Token<'a>], left: u32) -> Read<'a, Formula>
    ensures { Gives (λ x. (formula_of x.0, x.1.now)) result (every_at (expression_at left) (formula_at left) tokens.now) }
{
    let rest = expect(tokens, Kind::Word(Keyword::All))?;
    let (((name, class), (region, body)), rest) = quantified(alloc, rest, left)?;
    Ok((Formula::Every(name, class, region, body), rest))
}

#[cycle(formula)]
fn exists<'a>(alloc: Global, tokens: &'a [Token<'a>], left: u32) -> Read<'a, Formula>
    ensures { Gives (λ x. (formula_of x.0, x.1.now)) result (exists_at (expression_at left) (formula_at left) tokens.now) }
{
    let rest = expect(tokens, Kind::Word(Keyword::Some))?;
    let (((name, class), (region, body)), rest) = quantified(alloc, rest, left)?;
    Ok((Formula::Exists(name, class, region, body), rest))
}
