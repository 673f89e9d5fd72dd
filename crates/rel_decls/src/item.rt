//! Reads the items of a bundle.

ghost use Rattle.std.specs.Prelude.{◌≡◌, map};
ghost use Rattle.rel_lang.specs.Refusal.{limits};
ghost use Rattle.rel_lang.specs.Syntax as syntax;
ghost use Rattle.rel_lang.specs.View.{class_of, item_of, bundle_of};
ghost use Rattle.rel_parse.specs.Gives.{Gives};
ghost use Rattle.rel_parse.specs.Reading.{made};
ghost use Rattle.rel_decls.specs.Items.{class_at, interface_at, module_at, unit_at, client_at, judgement_at, pair_at, other_item_at, item_at, items_at, bundle_at, begins_item};

use crate::decl::fields;
use crate::interface::interface;
use crate::judge::{judgement, pair};
use crate::module::module;
use crate::unit::{client, unit};
use rel_lang::bundle::{Bundle, Class, Item};
use rel_lexer::{Keyword, Kind, Symbol, Token};
use rel_list::List;
use rel_parse::several::{Element, Repeated, many};
use rel_parse::token::{Read, expect, is_next, name_of, place, unexpected};
use std::alloc::Global;

#[tactic(auto, unfolding(crate::specs::Items::class_at))]
fn class_item<'a>(alloc: Global, tokens: &'a [Token<'a>]) -> Read<'a, Class>
    ensures { Gives (λ x. (class_of x.0, x.1.now)) result (class_at limits tokens.now) }
{
    let at = place(tokens);
    let rest = expect(tokens, Kind::Word(Keyword::Class))?;
    let (name, rest) = name_of(alloc, rest)?;
    let rest = expect(rest, Kind::Symbol(Symbol::OpenBrace))?;
    let (fields, rest) = fields(alloc, rest)?;
    let rest = expect(rest, Kind::Symbol(Symbol::CloseBrace))?;
    Ok((Class { at, name, fields }, rest))
}

fn of_class<'a>(alloc: Global, tokens: &'a [Token<'a>]) -> Read<'a, Item>
    ensures { Gives (λ x. (item_of x.0, x.1.now)) result
        (made syntax.OfClass (class_at limits) tokens.now) }
{
    let (class, rest) = class_item(alloc, tokens)?;
    Ok((Item::Class(class), rest))
}

fn of_interface<'a>(alloc: Global, tokens: &'a [Token<'a>]) -> Read<'a, Item>
    ensures { Gives (λ x. (item_of x.0, x.1.now)) result
        (made syntax.OfInterface (interface_at limits) tokens.now) }
{
    let (interface, rest) = interface(alloc, tokens)?;
    Ok((Item::Interface(interface), rest))
}

fn of_module<'a>(alloc: Global, tokens: &'a [Token<'a>]) -> Read<'a, Item>
    ensures { Gives (λ x. (item_of x.0, x.1.now)) result
        (made syntax.OfModule (module_at limits) tokens.now) }
{
    let (module, rest) = module(alloc, tokens)?;
    Ok((Item::Module(module), rest))
}

fn of_unit<'a>(alloc: Global, tokens: &'a [Token<'a>]) -> Read<'a, Item>
    ensures { Gives (λ x. (item_of x.0, x.1.now)) result
        (made syntax.OfUnit (unit_at limits) tokens.now) }
{
    let (unit, rest) = unit(alloc, tokens)?;
    Ok((Item::UnitItem(unit), rest))
}

fn of_client<'a>(alloc: Global, tokens: &'a [Token<'a>]) -> Read<'a, Item>
    ensures { Gives (λ x. (item_of x.0, x.1.now)) result
        (made syntax.OfClient (client_at limits) tokens.now) }
{
    let (client, rest) = client(alloc, tokens)?;
    Ok((Item::Client(client), rest))
}

fn of_judgement<'a>(alloc: Global, tokens: &'a [Token<'a>]) -> Read<'a, Item>
    ensures { Gives (λ x. (item_of x.0, x.1.now)) result
        (made syntax.OfJudgement (judgement_at limits) tokens.now) }
{
    let (judgement, rest) = judgement(alloc, tokens)?;
    Ok((Item::Judge(judgement), rest))
}

fn of_pair<'a>(alloc: Global, tokens: &'a [Token<'a>]) -> Read<'a, Item>
    ensures { Gives (λ x. (item_of x.0, x.1.now)) result
        (made syntax.OfPair (pair_at limits) tokens.now) }
{
    let (pair, rest) = pair(alloc, tokens)?;
    Ok((Item::Pair(pair), rest))
}

/// A client, a judgement or a pair.
#[tactic(auto, unfolding(crate::specs::Items::other_item_at))]
fn other_item<'a>(alloc: Global, tokens: &'a [Token<'a>]) -> Read<'a, Item>
    ensures { Gives (λ x. (item_of x.0, x.1.now)) result (other_item_at limits tokens.now) }
{
    if is_next(tokens, Kind::Word(Keyword::Client)) {
        of_client(alloc, tokens)
    } else if is_next(tokens, Kind::Word(Keyword::Judge)) {
        of_judgement(alloc, tokens)
    } else {
        of_pair(alloc, tokens)
    }
}

#[tactic(auto, unfolding(crate::specs::Items::item_at))]
fn item<'a>(alloc: Global, tokens: &'a [Token<'a>]) -> Read<'a, Item>
    ensures { Gives (λ x. (item_of x.0, x.1.now)) result (item_at limits tokens.now) }
{
    if is_next(tokens, Kind::Word(Keyword::Class)) {
        of_class(alloc, tokens)
    } else if is_next(tokens, Kind::Word(Keyword::Interface)) {
        of_interface(alloc, tokens)
    } else if is_next(tokens, Kind::Word(Keyword::Module)) {
        of_module(alloc, tokens)
    } else if is_next(tokens, Kind::Word(Keyword::Unit)) {
        of_unit(alloc, tokens)
    } else {
        other_item(alloc, tokens)
    }
}

fn begins_item(tokens: &[Token<'_>]) -> bool
    ensures { result ≡ begins_item tokens.now }
{
    is_next(tokens, Kind::Word(Keyword::Class))
        || is_next(tokens, Kind::Word(Keyword::Interface))
        || is_next(tokens, Kind::Word(Keyword::Module))
        || is_next(tokens, Kind::Word(Keyword::Unit))
        || is_next(tokens, Kind::Word(Keyword::Client))
        || is_next(tokens, Kind::Word(Keyword::Judge))
        || is_next(tokens, Kind::Word(Keyword::Pair))
}

#[derive(Drop)]
struct EachItem;

impl Element for EachItem {
    type Item = Item;

    ghost Tree = { syntax.Item };

    ghost view = { item_of };

    ghost reader = { λ _. item_at limits };

    fn read<'a>(&self, alloc: Global, tokens: &'a [Token<'a>]) -> Read<'a, Item> {
        item(alloc, tokens)
    }
}

impl Repeated for EachItem {
    ghost begins = { λ _. begins_item };

    fn begins(&self, tokens: &[Token<'_>]) -> bool {
        begins_item(tokens)
    }
}

#[tactic(auto, unfolding(crate::specs::Items::items_at))]
fn items<'a>(alloc: Global, tokens: &'a [Token<'a>]) -> Read<'a, List<Item>>
    ensures { Gives (λ x. (map item_of x.0, x.1.now)) result (items_at limits tokens.now) }
{
    many(alloc, tokens, &EachItem)
}

/// The bundle that all the tokens are.
#[tactic(auto, unfolding(crate::specs::Items::bundle_at))]
pub fn bundle<'a>(alloc: Global, tokens: &'a [Token<'a>]) -> Read<'a, Bundle>
    ensures { Gives (λ x. (bundle_of x.0, x.1.now)) result (bundle_at limits tokens.now) }
{
    let (items, rest) = items(alloc, tokens)?;
    match rest {
        [] => Ok((Bundle { items }, rest)),
        [_, ..] => Err(unexpected(rest)),
    }
}
