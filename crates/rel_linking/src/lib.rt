//! Which bundles can be judged so far, and the obligation whose validity makes such a bundle true.
#![tactic(auto)]

ghost use Rattle.std.specs.Prelude.{◌≡◌, IfOk};
ghost use Rattle.rel_lang.specs.Refusal.{Fits};
ghost use Rattle.rel_lang.specs.State.{tables_of};
ghost use Rattle.rel_lang.specs.Typed.{IsTyped};
ghost use Rattle.rel_lang.specs.View.{bundle_of};
ghost use Rattle.rel_encode.specs.Numbers.{numbers_of, numbered};
ghost use Rattle.rel_linking.specs.Obligation.{no_numbers};
ghost use Rattle.rel_linking.specs.Scope.{IsAnswer, IsAnswerFor};
ghost use Rattle.rel_linking.specs.Parts.{HasFew};

mod between;
mod bodies;
mod form;
mod stores;

use crate::between::between;
use crate::form::are_judged;
use rel_lang::bundle::{Item, Judgement, UnitItem};
use rel_lang::typed::Typed;
use rel_list::Memory;
use rel_logic::sequent::Sequent;
use std::alloc::Global;

/// The obligation of a typed bundle that can be judged so far, which consists of two units of one straight
/// procedure of ints each and a judgement about these two. Where it is valid, the bundle is true. `None` is
/// the answer for every other typed bundle.
#[tactic(auto, using(crate::proofs::Answers::answers))]
pub fn obligation(alloc: Global, t: &Typed) -> Result<Option<Sequent>, Memory>
    requires fits { Fits (bundle_of t.now.bundle) }
    requires typed { IsTyped (bundle_of t.now.bundle) }
    requires numbers { numbers_of t.now ≡ numbered (tables_of (bundle_of t.now.bundle)) }
    ensures { IfOk result (λ o. IsAnswer (bundle_of t.now.bundle) o) }
{
    let items = &t.bundle.items;
    if items.len() != 3 {
        return Ok(None);
    }
    match items.at(0) {
        Item::UnitItem(left) => match items.at(1) {
            Item::UnitItem(right) => match items.at(2) {
                Item::Judge(judgement) => of_three(alloc, t, left, right, judgement),
                _ => Ok(None),
            },
            _ => Ok(None),
        },
        _ => Ok(None),
    }
}

/// The obligation of these three items, which are those of the bundle.
fn of_three(
    alloc: Global,
    t: &Typed,
    left: &UnitItem,
    right: &UnitItem,
    judgement: &Judgement,
) -> Result<Option<Sequent>, Memory>
    requires numbers { numbers_of t.now ≡ no_numbers }
    requires left_few { HasFew left.now }
    requires right_few { HasFew right.now }
    ensures { IfOk result (λ o. IsAnswerFor left.now right.now judgement.now o) }
{
    if !are_judged(alloc, left, right, judgement)? {
        return Ok(None);
    }
    let left_proc = left.procs.at(0);
    let right_proc = right.procs.at(0);
    let left_block = &left_proc.body.commands;
    let right_block = &right_proc.body.commands;
    let needs = &judgement.needs.formula;
    let gives = &judgement.gives.formula;
    let sequent = between(
        alloc,
        t,
        &left.globals,
        &right.globals,
        left_block,
        right_block,
        needs,
        gives,
    )?;
    Ok(Some(sequent))
}
