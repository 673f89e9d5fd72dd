//! Reads biprograms.

ghost use Rattle.std.specs.Prelude.{◌≡◌};
ghost use Rattle.rel_lang.specs.Refusal.{limits};
ghost use Rattle.rel_lang.specs.Syntax.{BiAt, BiIf, BiWhile, Split, Link, Note};
ghost use Rattle.rel_lexer.specs.declared.Kind.TheVariants as kind;
ghost use Rattle.rel_lexer.specs.declared.keywords.Keyword.TheVariants as word;
ghost use Rattle.rel_lang.specs.View.{formula_of, rel_of, command_of, block_of, loop_of, biform_of, bicommand_of, biblock_of};
ghost use Rattle.rel_parse.specs.Gives.{Gives};
ghost use Rattle.rel_parse.specs.Reading.{name_at, made, both, after};
ghost use Rattle.rel_parse.specs.Formulas.{formula_at};
ghost use Rattle.rel_parse.specs.Relations.{rel_at};
ghost use Rattle.rel_parse.specs.Commands.{block_at, branches_at};
ghost use Rattle.rel_parse.specs.Biprograms.{sides_at, atom_command_at, is_call, used_at, sync_at, plain_at, loop_from, biloop_at, biform_at, begins_bicommand, bicommand_at, ended_bicommand_at, bicommands_at, biblock_at};

use crate::command::{atom, begins_atom, block, too_deep};
use crate::fault::Fault;
use crate::relation::rel;
use crate::several::MOST;
use crate::token::{Read, expect, is_next, name_of, place};
use crate::{command, formula, relation};
use rel_lang::biprogram::{BiCommand, BiForm, BiLoop};
use rel_lang::command::{Command, Form};
use rel_lang::formula::Formula;
use rel_lang::relation::RelFormula;
use rel_lexer::{Keyword, Kind, Symbol, Token};
use rel_list::{Boxed, List, Name};
use std::alloc::Global;

/// Two names with a bar between them.
pub fn names<'a>(alloc: Global, tokens: &'a [Token<'a>]) -> Read<'a, (Name, Name)>
    ensures { Gives (λ x. ((x.0.0, x.0.1), x.1.now)) result (sides_at name_at name_at tokens.now) }
{
    let (left, rest) = name_of(alloc, tokens)?;
    let rest = expect(rest, Kind::Symbol(Symbol::Bar))?;
    let (right, rest) = name_of(alloc, rest)?;
    Ok(((left, right), rest))
}

/// Two formulas with a bar between them.
fn formulas<'a>(
    alloc: Global,
    tokens: &'a [Token<'a>],
    left: u32,
) -> Read<'a, (Boxed<Formula>, Boxed<Formula>)>
    ensures { Gives (λ x. ((formula_of x.0.0, formula_of x.0.1), x.1.now)) result
        (sides_at (formula_at left) (formula_at left) tokens.now) }
{
    let (one, rest) = formula::part(alloc, tokens, left)?;
    let rest = expect(rest, Kind::Symbol(Symbol::Bar))?;
    let (other, rest) = formula::part(alloc, rest, left)?;
    Ok(((one, other), rest))
}

/// Two relation formulas with a bar between them.
fn rels<'a>(
    alloc: Global,
    tokens: &'a [Token<'a>],
    left: u32,
) -> Read<'a, (Boxed<RelFormula>, Boxed<RelFormula>)>
    ensures { Gives (λ x. ((rel_of x.0.0, rel_of x.0.1), x.1.now)) result
        (sides_at (rel_at left) (rel_at left) tokens.now) }
{
    let (one, rest) = relation::part(alloc, tokens, left)?;
    let rest = expect(rest, Kind::Symbol(Symbol::Bar))?;
    let (other, rest) = relation::part(alloc, rest, left)?;
    Ok(((one, other), rest))
}

/// An atom or a call of at most so much depth.
#[tactic(auto, using(crate::proofs::Biblocks::atom_command_more))]
fn atom_command<'a>(alloc: Global, tokens: &'a [Token<'a>], left: u32) -> Read<'a, Command>
    ensures { Gives (λ x. (command_of x.0, x.1.now)) result
        (atom_command_at limits.most left tokens.now) }
{
    if left == 0 {
        return Err(too_deep(tokens, begins_atom(tokens)));
    }
    let at = place(tokens);
    let (form, rest) = atom(alloc, tokens, left - 1)?;
    Ok((command::placed(at, form), rest))
}

fn is_call(command: &Command) -> bool
    ensures { result ≡ is_call (command_of command.now) }
{
    matches!(command.form, Form::Call(_, _, _))
}

/// What stands behind the atom under the word `sync`: a call has a judgement.
fn used<'a>(alloc: Global, command: Command, tokens: &'a [Token<'a>]) -> Read<'a, BiForm>
    ensures { Gives (λ x. (biform_of x.0, x.1.now)) result
        (used_at (command_of command) tokens.now) }
{
    if is_call(&command) {
        let rest = expect(tokens, Kind::Word(Keyword::Using))?;
        let (judgement, rest) = name_of(alloc, rest)?;
        Ok((BiForm::SyncCall(command, judgement), rest))
    } else {
        Ok((BiForm::Sync(command), tokens))
    }
}

/// What stands behind the word `sync`.
fn synced<'a>(alloc: Global, tokens: &'a [Token<'a>], left: u32) -> Read<'a, BiForm>
    ensures { Gives (λ x. (biform_of x.0, x.1.now)) result (sync_at limits.most left tokens.now) }
{
    let (command, rest) = atom_command(alloc, tokens, left)?;
    used(alloc, command, rest)
}

/// One block for each side.
fn blocks<'a>(
    alloc: Global,
    tokens: &'a [Token<'a>],
    left: u32,
) -> Read<'a, (List<Command>, List<Command>)>
    ensures { Gives (λ x. ((block_of x.0.0, block_of x.0.1), x.1.now)) result
        (both (block_at limits.most left) (block_at limits.most left) tokens.now) }
{
    let (one, rest) = block(alloc, tokens, left)?;
    let (other, rest) = block(alloc, rest, left)?;
    Ok(((one, other), rest))
}

fn split<'a>(alloc: Global, tokens: &'a [Token<'a>], left: u32) -> Read<'a, BiForm>
    ensures { Gives (λ x. (biform_of x.0, x.1.now)) result
        (made (λ p. Split p.0 p.1) (after (kind.Word word.Split) (both (block_at limits.most left) (block_at limits.most left))) tokens.now) }
{
    let rest = expect(tokens, Kind::Word(Keyword::Split))?;
    let (blocks, rest) = blocks(alloc, rest, left)?;
    Ok((BiForm::Split(blocks.0, blocks.1), rest))
}

fn link<'a>(alloc: Global, tokens: &'a [Token<'a>]) -> Read<'a, BiForm>
    ensures { Gives (λ x. (biform_of x.0, x.1.now)) result
        (made (λ p. Link p.0 p.1) (after (kind.Word word.Link) (sides_at name_at name_at)) tokens.now) }
{
    let rest = expect(tokens, Kind::Word(Keyword::Link))?;
    let (names, rest) = names(alloc, rest)?;
    Ok((BiForm::Link(names.0, names.1), rest))
}

fn note<'a>(alloc: Global, tokens: &'a [Token<'a>], left: u32) -> Read<'a, BiForm>
    ensures { Gives (λ x. (biform_of x.0, x.1.now)) result
        (made Note (after (kind.Word word.Note) (rel_at left)) tokens.now) }
{
    let rest = expect(tokens, Kind::Word(Keyword::Note))?;
    let (fact, rest) = rel(alloc, rest, left)?;
    Ok((BiForm::Note(fact), rest))
}

/// What a bicommand does that holds no bicommands.
fn plain<'a>(alloc: Global, tokens: &'a [Token<'a>], left: u32) -> Read<'a, BiForm>
    ensures { Gives (λ x. (biform_of x.0, x.1.now)) result (plain_at limits.most left tokens.now) }
{
    if is_next(tokens, Kind::Word(Keyword::Split)) {
        split(alloc, tokens, left)
    } else if is_next(tokens, Kind::Word(Keyword::Sync)) {
        let rest = expect(tokens, Kind::Word(Keyword::Sync))?;
        synced(alloc, rest, left)
    } else if is_next(tokens, Kind::Word(Keyword::Link)) {
        link(alloc, tokens)
    } else {
        note(alloc, tokens, left)
    }
}

fn joined(
    tests: (Boxed<Formula>, Boxed<Formula>),
    invs: (Boxed<Formula>, Boxed<Formula>),
    rel: Boxed<RelFormula>,
    guards: (Boxed<RelFormula>, Boxed<RelFormula>),
) -> BiLoop
    ensures { loop_of result ≡ loop_from ((formula_of tests.0, formula_of tests.1), ((formula_of invs.0, formula_of invs.1), (rel_of rel, (rel_of guards.0, rel_of guards.1)))) }
{
    BiLoop {
        tests: (tests.0.into_inner(), tests.1.into_inner()),
        invs: (invs.0.into_inner(), invs.1.into_inner()),
        rel: rel.into_inner(),
        guards: (guards.0.into_inner(), guards.1.into_inner()),
    }
}

/// What stands behind the word `while`, up to the body.
fn head<'a>(alloc: Global, tokens: &'a [Token<'a>], left: u32) -> Read<'a, BiLoop>
    ensures { Gives (λ x. (loop_of x.0, x.1.now)) result
        (biloop_at (formula_at left) (rel_at left) tokens.now) }
{
    let (tests, rest) = formulas(alloc, tokens, left)?;
    let rest = expect(rest, Kind::Word(Keyword::Inv))?;
    let (invs, rest) = formulas(alloc, rest, left)?;
    let rest = expect(rest, Kind::Word(Keyword::Rel))?;
    let (rel, rest) = relation::part(alloc, rest, left)?;
    let rest = expect(rest, Kind::Word(Keyword::Align))?;
    let (guards, rest) = rels(alloc, rest, left)?;
    Ok((joined(tests, invs, rel, guards), rest))
}

fn branched(
    left: Formula,
    right: Formula,
    first: List<BiCommand>,
    second: List<BiCommand>,
) -> BiForm
    ensures { biform_of result ≡ BiIf (formula_of left) (formula_of right) (biblock_of first) (biblock_of second) }
{
    BiForm::If(left, right, first, second)
}

fn looped(head: BiLoop, body: List<BiCommand>) -> BiForm
    ensures { biform_of result ≡ BiWhile (loop_of head) (biblock_of body) }
{
    BiForm::While(head, body)
}

fn placed(at: u32, form: BiForm) -> BiCommand
    ensures { bicommand_of result ≡ BiAt at (biform_of form) }
{
    BiCommand { at, form }
}

/// What a bicommand does whose parts have so much depth left.
#[cycle(bicommand)]
fn biform<'a>(alloc: Global, tokens: &'a [Token<'a>], left: u32) -> Read<'a, BiForm>
    ensures { Gives (λ x. (biform_of x.0, x.1.now)) result
        (biform_at limits.most left (biblock_at limits.most left) tokens.now) }
{
    if is_next(tokens, Kind::Word(Keyword::If)) {
        let rest = expect(tokens, Kind::Word(Keyword::If))?;
        let ((tests, branches), rest) = bibranches(alloc, rest, left)?;
        Ok((
            branched(
                tests.0.into_inner(),
                tests.1.into_inner(),
                branches.0,
                branches.1,
            ),
            rest,
        ))
    } else if is_next(tokens, Kind::Word(Keyword::While)) {
        let rest = expect(tokens, Kind::Word(Keyword::While))?;
        let (head, rest) = head(alloc, rest, left)?;
        let (body, rest) = biblock(alloc, rest, left)?;
        Ok((looped(head, body), rest))
    } else {
        plain(alloc, tokens, left)
    }
}

/// What stands behind the word `if`.
#[cycle(bicommand)]
fn bibranches<'a>(
    alloc: Global,
    tokens: &'a [Token<'a>],
    left: u32,
) -> Read<
    'a,
    (
        (Boxed<Formula>, Boxed<Formula>),
        (List<BiCommand>, List<BiCommand>),
    ),
>
    ensures { Gives (λ x. (((formula_of x.0.0.0, formula_of x.0.0.1), (biblock_of x.0.1.0, biblock_of x.0.1.1)), x.1.now)) result
        (branches_at (sides_at (formula_at left) (formula_at left)) (biblock_at limits.most left) tokens.now) }
{
    let (tests, rest) = formulas(alloc, tokens, left)?;
    let (first, rest) = biblock(alloc, rest, left)?;
    let rest = expect(rest, Kind::Word(Keyword::Else))?;
    let (second, rest) = biblock(alloc, rest, left)?;
    Ok(((tests, (first, second)), rest))
}

pub fn begins_bicommand(tokens: &[Token<'_>]) -> bool
    ensures { result ≡ begins_bicommand tokens.now }
{
    is_next(tokens, Kind::Word(Keyword::Split))
        || is_next(tokens, Kind::Word(Keyword::Sync))
        || is_next(tokens, Kind::Word(Keyword::Link))
        || is_next(tokens, Kind::Word(Keyword::Note))
        || is_next(tokens, Kind::Word(Keyword::If))
        || is_next(tokens, Kind::Word(Keyword::While))
}

/// A bicommand of at most so much depth, without its semicolon.
#[cycle(bicommand)]
#[tactic(auto, using(crate::proofs::Biblocks::bicommand_at_more))]
pub fn bicommand<'a>(alloc: Global, tokens: &'a [Token<'a>], left: u32) -> Read<'a, BiCommand>
    ensures { Gives (λ x. (bicommand_of x.0, x.1.now)) result
        (bicommand_at limits.most left tokens.now) }
{
    if left == 0 {
        return Err(too_deep(tokens, begins_bicommand(tokens)));
    }
    let at = place(tokens);
    let (form, rest) = biform(alloc, tokens, left - 1)?;
    Ok((placed(at, form), rest))
}

#[cycle(bicommand)]
fn ended_bicommand<'a>(alloc: Global, tokens: &'a [Token<'a>], left: u32) -> Read<'a, BiCommand>
    ensures { Gives (λ x. (bicommand_of x.0, x.1.now)) result
        (ended_bicommand_at limits.most left tokens.now) }
{
    let (command, rest) = bicommand(alloc, tokens, left)?;
    let rest = expect(rest, Kind::Symbol(Symbol::Semicolon))?;
    Ok((command, rest))
}

/// As many bicommands as there are, each with its semicolon.
#[cycle(bicommand)]
fn bicommands<'a>(alloc: Global, tokens: &'a [Token<'a>], left: u32) -> Read<'a, List<BiCommand>>
    ensures { Gives (λ x. (biblock_of x.0, x.1.now)) result
        (bicommands_at limits.most left tokens.now) }
{
    let mut read = (List::new(alloc), tokens);
    for _ in 0..MOST {
        if !begins_bicommand(read.1) {
            return Ok(read);
        }
        let (command, rest) = ended_bicommand(alloc, read.1, left)?;
        read.0.push(command)?;
        read.1 = rest;
    }
    if begins_bicommand(read.1) {
        Err(Fault::TooMany(read.1.len()))
    } else {
        Ok(read)
    }
}

/// Bicommands between braces.
#[cycle(bicommand)]
pub fn biblock<'a>(alloc: Global, tokens: &'a [Token<'a>], left: u32) -> Read<'a, List<BiCommand>>
    ensures { Gives (λ x. (biblock_of x.0, x.1.now)) result
        (biblock_at limits.most left tokens.now) }
{
    let rest = expect(tokens, Kind::Symbol(Symbol::OpenBrace))?;
    let (commands, rest) = bicommands(alloc, rest, left)?;
    let rest = expect(rest, Kind::Symbol(Symbol::CloseBrace))?;
    Ok((commands, rest))
}
