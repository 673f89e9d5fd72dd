//! Reads repetitions.

ghost use Rattle.std.specs.Prelude.{◌≡◌, Bool, List as Listed, map};
ghost use Rattle.rel_lang.specs.Refusal.{limits};
ghost use Rattle.rel_lexer.specs.declared.Token.{Token as SpecToken};
ghost use Rattle.rel_parse.specs.Gives.{Gives};
ghost use Rattle.rel_lexer.specs.declared.Kind.TheVariants as kind;
ghost use Rattle.rel_lexer.specs.declared.symbols.Symbol.TheVariants as symbol;
ghost use Rattle.rel_parse.specs.Reading.{Reader, after, is_next, many_at, with_front, listed_at};

use crate::fault::Fault;
use crate::token::{Read, expect, is_next};
use rel_lexer::{Kind, Symbol, Token};
use rel_list::List;
use std::alloc::Global;

/// How many elements a repetition may have.
pub const MOST: usize = 16384;

/// How an element of a repetition is read.
pub trait Element {
    type Item: Drop;

    ghost Tree: { Type 0 };

    ghost view: { Self.Item → Tree };

    ghost reader: { Self → Reader Tree };

    fn read<'a>(&self, alloc: Global, tokens: &'a [Token<'a>]) -> Read<'a, Self::Item>
        ensures { Gives (λ x. (view x.0, x.1.now)) result (reader self.now tokens.now) };
}

/// An element that is told by its first token.
pub trait Repeated: Element {
    ghost begins: { Self → Listed SpecToken → Bool };

    fn begins(&self, tokens: &[Token<'_>]) -> bool
        ensures { result ≡ begins self.now tokens.now };
}

/// The elements behind those that were read before.
pub fn more<'a, E: Repeated>(
    alloc: Global,
    read: List<E::Item>,
    tokens: &'a [Token<'a>],
    element: &E,
) -> Read<'a, List<E::Item>>
    ensures { Gives (λ x. (map E.view x.0, x.1.now)) result
        (with_front (map E.view read) (many_at (E.begins element.now) (E.reader element.now) limits.most tokens.now)) }
{
    let mut read = (read, tokens);
    for _ in 0..MOST {
        if !element.begins(read.1) {
            return Ok(read);
        }
        let (next, rest) = element.read(alloc, read.1)?;
        read.0.push(next)?;
        read.1 = rest;
    }
    if element.begins(read.1) {
        Err(Fault::TooMany(read.1.len()))
    } else {
        Ok(read)
    }
}

/// The elements from here on, as many as follow one another.
pub fn many<'a, E: Repeated>(
    alloc: Global,
    tokens: &'a [Token<'a>],
    element: &E,
) -> Read<'a, List<E::Item>>
    ensures { Gives (λ x. (map E.view x.0, x.1.now)) result
        (many_at (E.begins element.now) (E.reader element.now) limits.most tokens.now) }
{
    more(alloc, List::new(alloc), tokens, element)
}

/// An element behind a comma.
#[derive(Drop)]
struct Behind<'e, E> {
    element: &'e E,
}

impl<E: Element> Element for Behind<'_, E> {
    type Item = E::Item;

    ghost Tree = { E.Tree };

    ghost view = { E.view };

    ghost reader = { λ b. after (kind.Symbol symbol.Comma) (E.reader b.element.now) };

    fn read<'a>(&self, alloc: Global, tokens: &'a [Token<'a>]) -> Read<'a, E::Item> {
        let rest = expect(tokens, Kind::Symbol(Symbol::Comma))?;
        self.element.read(alloc, rest)
    }
}

impl<E: Element> Repeated for Behind<'_, E> {
    ghost begins = { λ b. is_next (kind.Symbol symbol.Comma) };

    fn begins(&self, tokens: &[Token<'_>]) -> bool {
        is_next(tokens, Kind::Symbol(Symbol::Comma))
    }
}

/// The elements with commas between them, or none before the closing symbol.
#[tactic(auto, unfolding(crate::specs::Reading::listed_at))]
pub fn listed<'a, E: Element>(
    alloc: Global,
    tokens: &'a [Token<'a>],
    close: Kind,
    element: &E,
) -> Read<'a, List<E::Item>>
    ensures { Gives (λ x. (map E.view x.0, x.1.now)) result
        (listed_at close (E.reader element.now) limits.most tokens.now) }
{
    let mut read = List::new(alloc);
    if is_next(tokens, close) {
        return Ok((read, tokens));
    }
    let (first, rest) = element.read(alloc, tokens)?;
    read.push(first)?;
    more(alloc, read, rest, &Behind { element })
}
