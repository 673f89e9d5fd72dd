//! Reads weavings and alignments.

ghost use Rattle.std.specs.Prelude.{◌≡◌, ℕ, map};
ghost use Rattle.rel_lang.specs.Refusal.{limits};
ghost use Rattle.rel_lang.specs.Syntax as syntax;
ghost use Rattle.rel_lang.specs.View.{rel_of, act_of, weave_step_of, align_of};
ghost use Rattle.rel_lexer.specs.declared.Kind.TheVariants as kind;
ghost use Rattle.rel_lexer.specs.declared.keywords.Keyword.TheVariants as word;
ghost use Rattle.rel_lexer.specs.declared.symbols.Symbol.TheVariants as symbol;
ghost use Rattle.rel_parse.specs.Gives.{Gives};
ghost use Rattle.rel_parse.specs.Reading.{is_next, is_number_next, name_at, counted_as, count_at, made, after};
ghost use Rattle.rel_parse.specs.Relations.{rel_at};
ghost use Rattle.rel_parse.specs.Biprograms.{sides_at, biblock_at};
ghost use Rattle.rel_decls.specs.Alignments.{seq_act_at, while_act_at, named_act_at, word_act_at, is_named_act_next, act_at, numbers_at, step_at, ended_step_at, steps_at, align_at};

use crate::DEEPEST;
use rel_lang::biprogram::{Act, Align, WeaveStep};
use rel_lang::relation::RelFormula;
use rel_lexer::{Keyword, Kind, Symbol, Token};
use rel_list::{Boxed, List};
use rel_parse::biprogram::{biblock, names};
use rel_parse::relation::{part, rel};
use rel_parse::several::{Element, Repeated, many, more};
use rel_parse::token::{Read, expect, is_next, is_number_next, literal, name_of, place};
use std::alloc::Global;

/// A number as it counts: one above the greatest `u32` counts as that.
fn counted(number: i128) -> u32
    ensures { result ≡ counted_as number }
{
    if number < 0 {
        0
    } else if number < 4_294_967_296 {
        number as u32
    } else {
        u32::MAX
    }
}

/// A number, as it counts.
fn count<'a>(tokens: &'a [Token<'a>]) -> Read<'a, u32>
    ensures { Gives (λ x. (x.0, x.1.now)) result (count_at tokens.now) }
{
    let (number, rest) = literal(tokens)?;
    Ok((counted(number), rest))
}

/// A formula behind a bar.
fn behind_bar<'a>(alloc: Global, tokens: &'a [Token<'a>]) -> Read<'a, Boxed<RelFormula>>
    ensures { Gives (λ x. (rel_of x.0, x.1.now)) result
        (after (kind.Symbol symbol.Bar) (rel_at limits.deepest) tokens.now) }
{
    let rest = expect(tokens, Kind::Symbol(Symbol::Bar))?;
    part(alloc, rest, DEEPEST)
}

fn looped(invariant: RelFormula, left: RelFormula, right: RelFormula) -> Act
    ensures { act_of result ≡ syntax.ActWhile (rel_of invariant) (rel_of left) (rel_of right) }
{
    Act::While(invariant, left, right)
}

fn while_act<'a>(alloc: Global, tokens: &'a [Token<'a>]) -> Read<'a, Act>
    ensures { Gives (λ x. (act_of x.0, x.1.now)) result (while_act_at limits tokens.now) }
{
    let rest = expect(tokens, Kind::Word(Keyword::While))?;
    let (invariant, rest) = part(alloc, rest, DEEPEST)?;
    let (left, rest) = behind_bar(alloc, rest)?;
    let (right, rest) = behind_bar(alloc, rest)?;
    let act = looped(
        invariant.into_inner(),
        left.into_inner(),
        right.into_inner(),
    );
    Ok((act, rest))
}

/// What a step with numbers does.
fn seq_act<'a>(tokens: &'a [Token<'a>]) -> Read<'a, Act>
    ensures { Gives (λ x. (act_of x.0, x.1.now)) result (seq_act_at tokens.now) }
{
    let rest = expect(tokens, Kind::Word(Keyword::Seq))?;
    let (left, rest) = count(rest)?;
    let (right, rest) = count(rest)?;
    Ok((Act::Seq(left, right), rest))
}

fn call_act<'a>(alloc: Global, tokens: &'a [Token<'a>]) -> Read<'a, Act>
    ensures { Gives (λ x. (act_of x.0, x.1.now)) result
        (made syntax.ActCall (after (kind.Word word.Call) name_at) tokens.now) }
{
    let rest = expect(tokens, Kind::Word(Keyword::Call))?;
    let (name, rest) = name_of(alloc, rest)?;
    Ok((Act::Call(name), rest))
}

fn link_act<'a>(alloc: Global, tokens: &'a [Token<'a>]) -> Read<'a, Act>
    ensures { Gives (λ x. (act_of x.0, x.1.now)) result
        (made (λ p. syntax.ActLink p.0 p.1) (after (kind.Word word.Link) (sides_at name_at name_at)) tokens.now) }
{
    let rest = expect(tokens, Kind::Word(Keyword::Link))?;
    let (names, rest) = names(alloc, rest)?;
    Ok((Act::Link(names.0, names.1), rest))
}

fn note_act<'a>(alloc: Global, tokens: &'a [Token<'a>]) -> Read<'a, Act>
    ensures { Gives (λ x. (act_of x.0, x.1.now)) result
        (made syntax.ActNote (after (kind.Word word.Note) (rel_at limits.deepest)) tokens.now) }
{
    let rest = expect(tokens, Kind::Word(Keyword::Note))?;
    let (formula, rest) = rel(alloc, rest, DEEPEST)?;
    Ok((Act::Note(formula), rest))
}

#[tactic(auto, unfolding(crate::specs::Alignments::named_act_at))]
fn named_act<'a>(alloc: Global, tokens: &'a [Token<'a>]) -> Read<'a, Act>
    ensures { Gives (λ x. (act_of x.0, x.1.now)) result (named_act_at limits tokens.now) }
{
    if is_next(tokens, Kind::Word(Keyword::Call)) {
        call_act(alloc, tokens)
    } else if is_next(tokens, Kind::Word(Keyword::Link)) {
        link_act(alloc, tokens)
    } else {
        note_act(alloc, tokens)
    }
}

/// What a step of one word does.
#[tactic(auto, unfolding(crate::specs::Alignments::word_act_at))]
fn word_act<'a>(tokens: &'a [Token<'a>]) -> Read<'a, Act>
    ensures { Gives (λ x. (act_of x.0, x.1.now)) result (word_act_at tokens.now) }
{
    if is_next(tokens, Kind::Word(Keyword::Sync)) {
        let rest = expect(tokens, Kind::Word(Keyword::Sync))?;
        return Ok((Act::Sync, rest));
    }
    if is_next(tokens, Kind::Word(Keyword::If)) {
        let rest = expect(tokens, Kind::Word(Keyword::If))?;
        return Ok((Act::If, rest));
    }
    let rest = expect(tokens, Kind::Word(Keyword::Drop))?;
    Ok((Act::Drop, rest))
}

/// A step with a name or a formula begins.
fn is_named_act_next(tokens: &[Token<'_>]) -> bool
    ensures { result ≡ is_named_act_next tokens.now }
{
    is_next(tokens, Kind::Word(Keyword::Call))
        || is_next(tokens, Kind::Word(Keyword::Link))
        || is_next(tokens, Kind::Word(Keyword::Note))
}

#[tactic(auto, unfolding(crate::specs::Alignments::act_at))]
fn act<'a>(alloc: Global, tokens: &'a [Token<'a>]) -> Read<'a, Act>
    ensures { Gives (λ x. (act_of x.0, x.1.now)) result (act_at limits tokens.now) }
{
    if is_next(tokens, Kind::Word(Keyword::Seq)) {
        return seq_act(tokens);
    }
    if is_next(tokens, Kind::Word(Keyword::While)) {
        return while_act(alloc, tokens);
    }
    if is_named_act_next(tokens) {
        return named_act(alloc, tokens);
    }
    word_act(tokens)
}

#[derive(Drop)]
struct EachCount;

impl Element for EachCount {
    type Item = u32;

    ghost Tree = { ℕ };

    ghost view = { λ n. n };

    ghost reader = { λ _. count_at };

    fn read<'a>(&self, _alloc: Global, tokens: &'a [Token<'a>]) -> Read<'a, u32> {
        count(tokens)
    }
}

impl Repeated for EachCount {
    ghost begins = { λ _. is_number_next };

    fn begins(&self, tokens: &[Token<'_>]) -> bool {
        is_number_next(tokens)
    }
}

/// The numbers of a place.
#[tactic(auto, unfolding(crate::specs::Alignments::numbers_at))]
fn numbers<'a>(alloc: Global, tokens: &'a [Token<'a>]) -> Read<'a, List<u32>>
    ensures { Gives (λ x. (x.0, x.1.now)) result (numbers_at limits tokens.now) }
{
    let (first, rest) = count(tokens)?;
    let mut numbers = List::new(alloc);
    numbers.push(first)?;
    more(alloc, numbers, rest, &EachCount)
}

#[tactic(auto, unfolding(crate::specs::Alignments::step_at))]
fn step<'a>(alloc: Global, tokens: &'a [Token<'a>]) -> Read<'a, WeaveStep>
    ensures { Gives (λ x. (weave_step_of x.0, x.1.now)) result (step_at limits tokens.now) }
{
    let at = place(tokens);
    let rest = expect(tokens, Kind::Word(Keyword::At))?;
    let (place, rest) = numbers(alloc, rest)?;
    let (act, rest) = act(alloc, rest)?;
    Ok((WeaveStep { at, place, act }, rest))
}

fn ended_step<'a>(alloc: Global, tokens: &'a [Token<'a>]) -> Read<'a, WeaveStep>
    ensures { Gives (λ x. (weave_step_of x.0, x.1.now)) result (ended_step_at limits tokens.now) }
{
    let (step, rest) = step(alloc, tokens)?;
    let rest = expect(rest, Kind::Symbol(Symbol::Semicolon))?;
    Ok((step, rest))
}

#[derive(Drop)]
struct EachStep;

impl Element for EachStep {
    type Item = WeaveStep;

    ghost Tree = { syntax.WeaveStep };

    ghost view = { weave_step_of };

    ghost reader = { λ _. ended_step_at limits };

    fn read<'a>(&self, alloc: Global, tokens: &'a [Token<'a>]) -> Read<'a, WeaveStep> {
        ended_step(alloc, tokens)
    }
}

impl Repeated for EachStep {
    ghost begins = { λ _. is_next (kind.Word word.At) };

    fn begins(&self, tokens: &[Token<'_>]) -> bool {
        is_next(tokens, Kind::Word(Keyword::At))
    }
}

/// The steps between braces.
#[tactic(auto, unfolding(crate::specs::Alignments::steps_at))]
fn steps<'a>(alloc: Global, tokens: &'a [Token<'a>]) -> Read<'a, List<WeaveStep>>
    ensures { Gives (λ x. (map weave_step_of x.0, x.1.now)) result (steps_at limits tokens.now) }
{
    let rest = expect(tokens, Kind::Symbol(Symbol::OpenBrace))?;
    let (steps, rest) = many(alloc, rest, &EachStep)?;
    let rest = expect(rest, Kind::Symbol(Symbol::CloseBrace))?;
    Ok((steps, rest))
}

fn given<'a>(alloc: Global, tokens: &'a [Token<'a>]) -> Read<'a, Align>
    ensures { Gives (λ x. (align_of x.0, x.1.now)) result
        (made syntax.Given (after (kind.Word word.Bi) (biblock_at limits.most limits.deepest)) tokens.now) }
{
    let rest = expect(tokens, Kind::Word(Keyword::Bi))?;
    let (block, rest) = biblock(alloc, rest, DEEPEST)?;
    Ok((Align::Given(block), rest))
}

fn woven<'a>(alloc: Global, tokens: &'a [Token<'a>]) -> Read<'a, Align>
    ensures { Gives (λ x. (align_of x.0, x.1.now)) result
        (made syntax.Woven (after (kind.Word word.Weave) (steps_at limits)) tokens.now) }
{
    let rest = expect(tokens, Kind::Word(Keyword::Weave))?;
    let (steps, rest) = steps(alloc, rest)?;
    Ok((Align::Woven(steps), rest))
}

#[tactic(auto, unfolding(crate::specs::Alignments::align_at))]
pub fn align<'a>(alloc: Global, tokens: &'a [Token<'a>]) -> Read<'a, Align>
    ensures { Gives (λ x. (align_of x.0, x.1.now)) result (align_at limits tokens.now) }
{
    if is_next(tokens, Kind::Word(Keyword::Bi)) {
        given(alloc, tokens)
    } else {
        woven(alloc, tokens)
    }
}
