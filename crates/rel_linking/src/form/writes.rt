//! What a procedure lists in `writes`.

ghost use Rattle.std.specs.Prelude.{◌≡◌, ◌↔◌, [], IsTrue, OnOk, IfOk, map};
ghost use Rattle.std.specs.List.{AllByRecursion};
ghost use Rattle.rel_lang.specs.View.{effect_of};
ghost use Rattle.rel_linking.specs.Parts.{IsOfGlobal, IsIndexed, Lists, with_listed};

use rel_flaws::index::Index;
use rel_lang::bundle::Effect;
use rel_list::{List, Memory, Name};
use std::alloc::Global;

/// The names of the listed globals.
#[tactic(auto, using(crate::proofs::FormsLists::indexing))]
pub fn listed<'a>(alloc: Global, writes: &'a List<Effect>) -> Result<Index<'a, ()>, Memory>
    ensures { IfOk result (λ names. Lists names (map effect_of writes.now)) }
{
    let mut names = Index::new(alloc);
    for i in 0..writes.len() {
        add_listed(&mut names, writes.at(i))?;
    }
    Ok(names)
}

fn add_listed<'a>(names: &mut Index<'a, ()>, effect: &'a Effect) -> Result<(), Memory>
    ensures { OnOk result (names.new ≡ with_listed names.old (effect_of effect.now)) }
{
    match effect {
        Effect::Var(x) => {
            names.insert(x.as_str(), ())?;
            Ok(())
        }
        Effect::At(_) => Ok(()),
    }
}

/// Whether the name is one of these.
pub fn is_listed(x: &Name, names: &Index<'_, ()>) -> bool
    ensures { IsTrue result ↔ IsIndexed x.now names.now }
{
    names.has(x.as_str())
}

/// Whether each effect is a global.
#[tactic(auto, using(crate::proofs::FormsLists::each))]
pub fn are_globals(writes: &List<Effect>) -> bool
    ensures { IsTrue result ↔ AllByRecursion IsOfGlobal writes.now }
{
    for i in 0..writes.len() {
        if !is_global(writes.at(i)) {
            return false;
        }
    }
    true
}

fn is_global(effect: &Effect) -> bool
    ensures { IsTrue result ↔ IsOfGlobal effect.now }
{
    matches!(effect, Effect::Var(_))
}
