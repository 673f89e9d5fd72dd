//! Reads commands.

ghost use Rattle.std.specs.Prelude.{◌≡◌, length, map, if◌then◌else◌};
ghost use Rattle.rel_lang.specs.Syntax.{Expression, At, If, While};
ghost use Rattle.rel_lang.specs.Refusal.{limits};
ghost use Rattle.rel_lang.specs.View.{expression_of, formula_of, form_of, command_of, block_of};
ghost use Rattle.rel_lexer.specs.declared.Kind.TheVariants as kind;
ghost use Rattle.rel_lexer.specs.declared.keywords.Keyword.TheVariants as word;
ghost use Rattle.rel_lexer.specs.declared.symbols.Symbol.TheVariants as symbol;
ghost use Rattle.rel_parse.specs.Gives.{Gives};
ghost use Rattle.rel_parse.specs.declared.fault.Fault.TheVariants as faults;
ghost use Rattle.rel_parse.specs.Expressions.{expression_at};
ghost use Rattle.rel_parse.specs.Formulas.{formula_at};
ghost use Rattle.rel_parse.specs.Commands.{is_field_next, field_at, stored_at, call_at, value_at, named_at, atom_at, branches_at, loop_at, form_at, begins_atom, begins_command, command_at, ended_command_at, commands_at, block_at};

use crate::expr::expression;
use crate::fault::Fault;
use crate::formula;
use crate::several::{Element, MOST, listed};
use crate::token::{Read, expect, is_name_next, is_next, is_second, name_of, place};
use rel_lang::command::{Command, Form};
use rel_lang::expr::Expr;
use rel_lang::formula::Formula;
use rel_lexer::{Keyword, Kind, Symbol, Token};
use rel_list::{Boxed, List, Name};
use std::alloc::Global;

/// The refusal of the first token where a tree that it may begin is too deep.
pub fn too_deep(tokens: &[Token<'_>], begins: bool) -> Fault
    ensures { result ≡ (if begins then faults.TooDeep (length tokens.now) else faults.Unexpected (length tokens.now)) }
{
    if begins {
        Fault::TooDeep(tokens.len())
    } else {
        Fault::Unexpected(tokens.len())
    }
}

fn is_field_next(tokens: &[Token<'_>]) -> bool
    ensures { result ≡ is_field_next tokens.now }
{
    is_name_next(tokens) && is_second(tokens, Kind::Symbol(Symbol::Dot))
}

pub fn begins_atom(tokens: &[Token<'_>]) -> bool
    ensures { result ≡ begins_atom tokens.now }
{
    is_name_next(tokens) || is_next(tokens, Kind::Word(Keyword::Skip))
}

pub fn begins_command(tokens: &[Token<'_>]) -> bool
    ensures { result ≡ begins_command tokens.now }
{
    is_name_next(tokens)
        || is_next(tokens, Kind::Word(Keyword::Skip))
        || is_next(tokens, Kind::Word(Keyword::If))
        || is_next(tokens, Kind::Word(Keyword::While))
}

/// A reference and its field.
fn field<'a>(alloc: Global, tokens: &'a [Token<'a>]) -> Read<'a, (Name, Name)>
    ensures { Gives (λ x. ((x.0.0, x.0.1), x.1.now)) result (field_at tokens.now) }
{
    let (reference, rest) = name_of(alloc, tokens)?;
    let rest = expect(rest, Kind::Symbol(Symbol::Dot))?;
    let (field, rest) = name_of(alloc, rest)?;
    Ok(((reference, field), rest))
}

/// What stands behind `y` and a dot.
fn stored<'a>(alloc: Global, tokens: &'a [Token<'a>], left: u32) -> Read<'a, (Name, Expr)>
    ensures { Gives (λ x. ((x.0.0, expression_of x.0.1), x.1.now)) result
        (stored_at (expression_at left) tokens.now) }
{
    let (field, rest) = name_of(alloc, tokens)?;
    let rest = expect(rest, Kind::Symbol(Symbol::ColonEqual))?;
    let (value, rest) = expression(alloc, rest, left)?;
    Ok(((field, value), rest))
}

/// An argument of a call whose expressions are at most so deep.
#[derive(Drop)]
struct Argument {
    left: u32,
}

impl Element for Argument {
    type Item = Expr;

    ghost Tree = { Expression };

    ghost view = { expression_of };

    ghost reader = { λ a. expression_at a.left };

    fn read<'a>(&self, alloc: Global, tokens: &'a [Token<'a>]) -> Read<'a, Expr> {
        expression(alloc, tokens, self.left)
    }
}

/// What stands behind the word `call`.
fn call<'a>(alloc: Global, tokens: &'a [Token<'a>], left: u32) -> Read<'a, (Name, List<Expr>)>
    ensures { Gives (λ x. ((x.0.0, map expression_of x.0.1), x.1.now)) result
        (call_at limits.most (expression_at left) tokens.now) }
{
    let (procedure, rest) = name_of(alloc, tokens)?;
    let rest = expect(rest, Kind::Symbol(Symbol::OpenParenthesis))?;
    let close = Kind::Symbol(Symbol::CloseParenthesis);
    let (arguments, rest) = listed(alloc, rest, close, &Argument { left })?;
    let rest = expect(rest, close)?;
    Ok(((procedure, arguments), rest))
}

/// A form that begins `x :=`, from what stands behind it.
fn valued<'a>(alloc: Global, variable: Name, tokens: &'a [Token<'a>], left: u32) -> Read<'a, Form>
    ensures { Gives (λ x. (form_of x.0, x.1.now)) result
        (value_at limits.most (expression_at left) variable tokens.now) }
{
    if is_next(tokens, Kind::Word(Keyword::New)) {
        let rest = expect(tokens, Kind::Word(Keyword::New))?;
        let (class, rest) = name_of(alloc, rest)?;
        Ok((Form::New(variable, class), rest))
    } else if is_next(tokens, Kind::Word(Keyword::Call)) {
        let rest = expect(tokens, Kind::Word(Keyword::Call))?;
        let ((procedure, arguments), rest) = call(alloc, rest, left)?;
        Ok((Form::Call(variable, procedure, arguments), rest))
    } else if is_field_next(tokens) {
        let ((reference, field), rest) = field(alloc, tokens)?;
        Ok((Form::Load(variable, reference, field), rest))
    } else {
        let (value, rest) = expression(alloc, tokens, left)?;
        Ok((Form::Assign(variable, value), rest))
    }
}

/// A form that begins with a name, from what stands behind the name.
fn named<'a>(alloc: Global, name: Name, tokens: &'a [Token<'a>], left: u32) -> Read<'a, Form>
    ensures { Gives (λ x. (form_of x.0, x.1.now)) result
        (named_at limits.most (expression_at left) name tokens.now) }
{
    if is_next(tokens, Kind::Symbol(Symbol::Dot)) {
        let rest = expect(tokens, Kind::Symbol(Symbol::Dot))?;
        let ((field, value), rest) = stored(alloc, rest, left)?;
        Ok((Form::Store(name, field, value), rest))
    } else {
        let rest = expect(tokens, Kind::Symbol(Symbol::ColonEqual))?;
        valued(alloc, name, rest, left)
    }
}

/// What a command does that holds no blocks.
pub fn atom<'a>(alloc: Global, tokens: &'a [Token<'a>], left: u32) -> Read<'a, Form>
    ensures { Gives (λ x. (form_of x.0, x.1.now)) result
        (atom_at limits.most (expression_at left) tokens.now) }
{
    if is_next(tokens, Kind::Word(Keyword::Skip)) {
        let rest = expect(tokens, Kind::Word(Keyword::Skip))?;
        Ok((Form::Skip, rest))
    } else {
        let (name, rest) = name_of(alloc, tokens)?;
        named(alloc, name, rest, left)
    }
}

fn branched(test: Formula, first: List<Command>, second: List<Command>) -> Form
    ensures { form_of result ≡ If (formula_of test) (block_of first) (block_of second) }
{
    Form::If(test, first, second)
}

fn looped(test: Formula, invariant: Formula, body: List<Command>) -> Form
    ensures { form_of result ≡ While (formula_of test) (formula_of invariant) (block_of body) }
{
    Form::While(test, invariant, body)
}

pub fn placed(at: u32, form: Form) -> Command
    ensures { command_of result ≡ At at (form_of form) }
{
    Command { at, form }
}

/// What a command does whose parts have so much depth left.
#[cycle(command)]
fn form<'a>(alloc: Global, tokens: &'a [Token<'a>], left: u32) -> Read<'a, Form>
    ensures { Gives (λ x. (form_of x.0, x.1.now)) result
        (form_at limits.most (expression_at left) (formula_at left) (block_at limits.most left) tokens.now) }
{
    if is_next(tokens, Kind::Word(Keyword::If)) {
        let rest = expect(tokens, Kind::Word(Keyword::If))?;
        let ((test, branches), rest) = branches(alloc, rest, left)?;
        Ok((branched(test.into_inner(), branches.0, branches.1), rest))
    } else if is_next(tokens, Kind::Word(Keyword::While)) {
        let rest = expect(tokens, Kind::Word(Keyword::While))?;
        let ((test, invariant, body), rest) = loop_of(alloc, rest, left)?;
        Ok((
            looped(test.into_inner(), invariant.into_inner(), body),
            rest,
        ))
    } else {
        atom(alloc, tokens, left)
    }
}

/// What stands behind the word `if`.
#[cycle(command)]
fn branches<'a>(
    alloc: Global,
    tokens: &'a [Token<'a>],
    left: u32,
) -> Read<'a, (Boxed<Formula>, (List<Command>, List<Command>))>
    ensures { Gives (λ x. ((formula_of x.0.0, (block_of x.0.1.0, block_of x.0.1.1)), x.1.now)) result
        (branches_at (formula_at left) (block_at limits.most left) tokens.now) }
{
    let (test, rest) = formula::part(alloc, tokens, left)?;
    let (first, rest) = block(alloc, rest, left)?;
    let rest = expect(rest, Kind::Word(Keyword::Else))?;
    let (second, rest) = block(alloc, rest, left)?;
    Ok(((test, (first, second)), rest))
}

/// What stands behind the word `while`.
#[cycle(command)]
fn loop_of<'a>(
    alloc: Global,
    tokens: &'a [Token<'a>],
    left: u32,
) -> Read<'a, (Boxed<Formula>, Boxed<Formula>, List<Command>)>
    ensures { Gives (λ x. ((formula_of x.0.0, (formula_of x.0.1, block_of x.0.2)), x.1.now)) result
        (loop_at (formula_at left) (block_at limits.most left) tokens.now) }
{
    let (test, rest) = formula::part(alloc, tokens, left)?;
    let rest = expect(rest, Kind::Word(Keyword::Inv))?;
    let (invariant, rest) = formula::part(alloc, rest, left)?;
    let (body, rest) = block(alloc, rest, left)?;
    Ok(((test, invariant, body), rest))
}

/// A command of at most so much depth, without its semicolon.
#[cycle(command)]
#[tactic(auto, using(crate::proofs::Blocks::command_at_more))]
pub fn command<'a>(alloc: Global, tokens: &'a [Token<'a>], left: u32) -> Read<'a, Command>
    ensures { Gives (λ x. (command_of x.0, x.1.now)) result
        (command_at limits.most left tokens.now) }
{
    if left == 0 {
        return Err(too_deep(tokens, begins_command(tokens)));
    }
    let at = place(tokens);
    let (form, rest) = form(alloc, tokens, left - 1)?;
    Ok((placed(at, form), rest))
}

#[cycle(command)]
fn ended_command<'a>(alloc: Global, tokens: &'a [Token<'a>], left: u32) -> Read<'a, Command>
    ensures { Gives (λ x. (command_of x.0, x.1.now)) result
        (ended_command_at limits.most left tokens.now) }
{
    let (command, rest) = command(alloc, tokens, left)?;
    let rest = expect(rest, Kind::Symbol(Symbol::Semicolon))?;
    Ok((command, rest))
}

/// As many commands as there are, each with its semicolon.
#[cycle(command)]
pub fn commands<'a>(alloc: Global, tokens: &'a [Token<'a>], left: u32) -> Read<'a, List<Command>>
    ensures { Gives (λ x. (block_of x.0, x.1.now)) result
        (commands_at limits.most left tokens.now) }
{
    let mut read = (List::new(alloc), tokens);
    for _ in 0..MOST {
        if !begins_command(read.1) {
            return Ok(read);
        }
        let (command, rest) = ended_command(alloc, read.1, left)?;
        read.0.push(command)?;
        read.1 = rest;
    }
    if begins_command(read.1) {
        Err(Fault::TooMany(read.1.len()))
    } else {
        Ok(read)
    }
}

/// Commands between braces.
#[cycle(command)]
pub fn block<'a>(alloc: Global, tokens: &'a [Token<'a>], left: u32) -> Read<'a, List<Command>>
    ensures { Gives (λ x. (block_of x.0, x.1.now)) result
        (block_at limits.most left tokens.now) }
{
    let rest = expect(tokens, Kind::Symbol(Symbol::OpenBrace))?;
    let (commands, rest) = commands(alloc, rest, left)?;
    let rest = expect(rest, Kind::Symbol(Symbol::CloseBrace))?;
    Ok((commands, rest))
}
