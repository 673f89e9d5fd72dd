//! Reads expressions.

ghost use Rattle.std.specs.Prelude.{◌≡◌, IfOk};
ghost use Rattle.rel_lang.specs.Syntax.{Var, Num, Null, Empty, Alloc};
ghost use Rattle.rel_lang.specs.View.{expression_of};
ghost use Rattle.rel_lexer.specs.declared.Kind.TheVariants as kind;
ghost use Rattle.rel_lexer.specs.declared.keywords.Keyword.TheVariants as word;
ghost use Rattle.rel_parse.specs.Gives.{Gives};
ghost use Rattle.rel_parse.specs.Reading.{name_at, literal_at, made, before};
ghost use Rattle.rel_parse.specs.Firsts.{begins_one, means};
ghost use Rattle.rel_parse.specs.Expressions.{begins_expression, operator_at, selector_firsts, selector_at, combined, selected, is_factor, single_at, old_at, product_at, operated_at, parenthesized_at, expression_at};

use crate::fault::Fault;
use crate::token::{
    Read, expect, is_name_next, is_next, is_number_next, is_second, literal, name_of,
};
use rel_lang::expr::Expr;
use rel_lexer::{Keyword, Kind, Symbol, Token};
use rel_list::{Boxed, Memory, Name};
use std::alloc::Global;

/// What stands between two expressions.
#[derive(Clone, Copy, Debug)]
pub enum Operator {
    Add,
    Sub,
    Union,
    Meet,
    Minus,
}

/// What stands between an expression and a name.
#[derive(Clone, Copy, Debug)]
pub enum Selector {
    Field,
    Image,
    Filter,
}

/// Whether an expression begins here.
pub fn begins_expression(tokens: &[Token<'_>]) -> bool
    ensures { result ≡ begins_expression tokens.now }
{
    is_number_next(tokens)
        || is_name_next(tokens)
        || is_next(tokens, Kind::Word(Keyword::Null))
        || is_next(tokens, Kind::Word(Keyword::Empty))
        || is_next(tokens, Kind::Word(Keyword::Alloc))
        || is_next(tokens, Kind::Symbol(Symbol::OpenBrace))
        || is_next(tokens, Kind::Word(Keyword::Old))
        || is_next(tokens, Kind::Symbol(Symbol::OpenParenthesis))
}

fn read_operator<'a>(tokens: &'a [Token<'a>]) -> Read<'a, Operator>
    ensures { Gives (λ x. (x.0, x.1.now)) result (operator_at tokens.now) }
{
    if is_next(tokens, Kind::Symbol(Symbol::Plus)) {
        Ok((Operator::Add, expect(tokens, Kind::Symbol(Symbol::Plus))?))
    } else if is_next(tokens, Kind::Symbol(Symbol::Minus)) {
        Ok((Operator::Sub, expect(tokens, Kind::Symbol(Symbol::Minus))?))
    } else if is_next(tokens, Kind::Word(Keyword::Union)) {
        Ok((Operator::Union, expect(tokens, Kind::Word(Keyword::Union))?))
    } else if is_next(tokens, Kind::Word(Keyword::Meet)) {
        Ok((Operator::Meet, expect(tokens, Kind::Word(Keyword::Meet))?))
    } else {
        Ok((Operator::Minus, expect(tokens, Kind::Word(Keyword::Minus))?))
    }
}

fn begins_selector(tokens: &[Token<'_>]) -> bool
    ensures { result ≡ begins_one selector_firsts tokens.now }
{
    is_next(tokens, Kind::Symbol(Symbol::Dot))
        || is_next(tokens, Kind::Symbol(Symbol::At))
        || is_next(tokens, Kind::Word(Keyword::Of))
}

fn read_selector<'a>(tokens: &'a [Token<'a>]) -> Read<'a, Selector>
    ensures { Gives (λ x. (x.0, x.1.now)) result (selector_at tokens.now) }
{
    if is_next(tokens, Kind::Symbol(Symbol::Dot)) {
        Ok((Selector::Field, expect(tokens, Kind::Symbol(Symbol::Dot))?))
    } else if is_next(tokens, Kind::Symbol(Symbol::At)) {
        Ok((Selector::Image, expect(tokens, Kind::Symbol(Symbol::At))?))
    } else {
        Ok((Selector::Filter, expect(tokens, Kind::Word(Keyword::Of))?))
    }
}

fn combined(alloc: Global, operator: Operator, left: Expr, right: Expr) -> Result<Expr, Memory>
    ensures { IfOk result (λ e. expression_of e ≡ combined operator (expression_of left) (expression_of right)) }
{
    let left = Boxed::new(alloc, left)?;
    let right = Boxed::new(alloc, right)?;
    Ok(match operator {
        Operator::Add => Expr::Add(left, right),
        Operator::Sub => Expr::Sub(left, right),
        Operator::Union => Expr::Union(left, right),
        Operator::Meet => Expr::Meet(left, right),
        Operator::Minus => Expr::Minus(left, right),
    })
}

fn selected(alloc: Global, selector: Selector, operand: Expr, name: Name) -> Result<Expr, Memory>
    ensures { IfOk result (λ e. expression_of e ≡ selected selector (expression_of operand) name) }
{
    let operand = Boxed::new(alloc, operand)?;
    Ok(match selector {
        Selector::Field => Expr::Field(operand, name),
        Selector::Image => Expr::Image(operand, name),
        Selector::Filter => Expr::Filter(operand, name),
    })
}

fn is_factor(tokens: &[Token<'_>]) -> bool
    ensures { result ≡ is_factor tokens.now }
{
    is_number_next(tokens) && is_second(tokens, Kind::Symbol(Symbol::Star))
}

fn variable<'a>(alloc: Global, tokens: &'a [Token<'a>]) -> Read<'a, Expr>
    ensures { Gives (λ x. (expression_of x.0, x.1.now)) result (made Var name_at tokens.now) }
{
    let (name, rest) = name_of(alloc, tokens)?;
    Ok((Expr::Var(name), rest))
}

fn number<'a>(tokens: &'a [Token<'a>]) -> Read<'a, Expr>
    ensures { Gives (λ x. (expression_of x.0, x.1.now)) result (made Num literal_at tokens.now) }
{
    let (n, rest) = literal(tokens)?;
    Ok((Expr::Num(n), rest))
}

fn null<'a>(tokens: &'a [Token<'a>]) -> Read<'a, Expr>
    ensures { Gives (λ x. (expression_of x.0, x.1.now)) result (means (kind.Word word.Null) Null tokens.now) }
{
    let rest = expect(tokens, Kind::Word(Keyword::Null))?;
    Ok((Expr::Null, rest))
}

fn empty<'a>(tokens: &'a [Token<'a>]) -> Read<'a, Expr>
    ensures { Gives (λ x. (expression_of x.0, x.1.now)) result (means (kind.Word word.Empty) Empty tokens.now) }
{
    let rest = expect(tokens, Kind::Word(Keyword::Empty))?;
    Ok((Expr::Empty, rest))
}

fn all_allocated<'a>(tokens: &'a [Token<'a>]) -> Read<'a, Expr>
    ensures { Gives (λ x. (expression_of x.0, x.1.now)) result (means (kind.Word word.Alloc) Alloc tokens.now) }
{
    let rest = expect(tokens, Kind::Word(Keyword::Alloc))?;
    Ok((Expr::Alloc, rest))
}

/// An expression that is at most so deep.
#[cycle(expression)]
#[tactic(auto, using(crate::proofs::ExpressionLevels::expression_at_none, crate::proofs::ExpressionLevels::expression_at_more))]
pub fn expression<'a>(alloc: Global, tokens: &'a [Token<'a>], left: u32) -> Read<'a, Expr>
    ensures { Gives (λ x. (expression_of x.0, x.1.now)) result (expression_at left tokens.now) }
{
    if left == 0 {
        if begins_expression(tokens) {
            Err(Fault::TooDeep(tokens.len()))
        } else {
            Err(Fault::Unexpected(tokens.len()))
        }
    } else if is_number_next(tokens) {
        number(tokens)
    } else if is_name_next(tokens) {
        variable(alloc, tokens)
    } else if is_next(tokens, Kind::Word(Keyword::Null)) {
        null(tokens)
    } else if is_next(tokens, Kind::Word(Keyword::Empty)) {
        empty(tokens)
    } else if is_next(tokens, Kind::Word(Keyword::Alloc)) {
        all_allocated(tokens)
    } else if is_next(tokens, Kind::Symbol(Symbol::OpenBrace)) {
        single(alloc, tokens, left - 1)
    } else if is_next(tokens, Kind::Word(Keyword::Old)) {
        old(alloc, tokens, left - 1)
    } else {
        let rest = expect(tokens, Kind::Symbol(Symbol::OpenParenthesis))?;
        parenthesized(alloc, rest, left - 1)
    }
}

#[cycle(expression)]
fn single<'a>(alloc: Global, tokens: &'a [Token<'a>], left: u32) -> Read<'a, Expr>
    ensures { Gives (λ x. (expression_of x.0, x.1.now)) result (single_at (expression_at left) tokens.now) }
{
    let rest = expect(tokens, Kind::Symbol(Symbol::OpenBrace))?;
    let (member, rest) = closed(alloc, rest, Kind::Symbol(Symbol::CloseBrace), left)?;
    Ok((Expr::Single(Boxed::new(alloc, member)?), rest))
}

#[cycle(expression)]
fn old<'a>(alloc: Global, tokens: &'a [Token<'a>], left: u32) -> Read<'a, Expr>
    ensures { Gives (λ x. (expression_of x.0, x.1.now)) result (old_at (expression_at left) tokens.now) }
{
    let rest = expect(tokens, Kind::Word(Keyword::Old))?;
    let rest = expect(rest, Kind::Symbol(Symbol::OpenParenthesis))?;
    let (value, rest) = closed(alloc, rest, Kind::Symbol(Symbol::CloseParenthesis), left)?;
    Ok((Expr::Old(Boxed::new(alloc, value)?), rest))
}

/// An expression with what closes it.
#[cycle(expression)]
fn closed<'a>(alloc: Global, tokens: &'a [Token<'a>], close: Kind, left: u32) -> Read<'a, Expr>
    ensures { Gives (λ x. (expression_of x.0, x.1.now)) result (before close (expression_at left) tokens.now) }
{
    let (operand, rest) = expression(alloc, tokens, left)?;
    let rest = expect(rest, close)?;
    Ok((operand, rest))
}

/// What stands behind an opening parenthesis.
#[cycle(expression)]
fn parenthesized<'a>(alloc: Global, tokens: &'a [Token<'a>], left: u32) -> Read<'a, Expr>
    ensures { Gives (λ x. (expression_of x.0, x.1.now)) result (parenthesized_at (expression_at left) tokens.now) }
{
    let (whole, rest) = if is_factor(tokens) {
        product(alloc, tokens, left)?
    } else {
        operated(alloc, tokens, left)?
    };
    let rest = expect(rest, Kind::Symbol(Symbol::CloseParenthesis))?;
    Ok((whole, rest))
}

#[cycle(expression)]
fn product<'a>(alloc: Global, tokens: &'a [Token<'a>], left: u32) -> Read<'a, Expr>
    ensures { Gives (λ x. (expression_of x.0, x.1.now)) result (product_at (expression_at left) tokens.now) }
{
    let (factor, rest) = literal(tokens)?;
    let rest = expect(rest, Kind::Symbol(Symbol::Star))?;
    let (operand, rest) = expression(alloc, rest, left)?;
    Ok((Expr::Mul(factor, Boxed::new(alloc, operand)?), rest))
}

#[cycle(expression)]
fn operated<'a>(alloc: Global, tokens: &'a [Token<'a>], left: u32) -> Read<'a, Expr>
    ensures { Gives (λ x. (expression_of x.0, x.1.now)) result (operated_at (expression_at left) tokens.now) }
{
    let (first, rest) = expression(alloc, tokens, left)?;
    if begins_selector(rest) {
        let (chosen, rest) = read_selector(rest)?;
        let (name, rest) = name_of(alloc, rest)?;
        Ok((selected(alloc, chosen, first, name)?, rest))
    } else {
        let (chosen, rest) = read_operator(rest)?;
        let (second, rest) = expression(alloc, rest, left)?;
        Ok((combined(alloc, chosen, first, second)?, rest))
    }
}
