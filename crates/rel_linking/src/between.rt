//! The sequent of a judgement about two straight procedures of ints.

ghost use Rattle.std.specs.Prelude.{◌≡◌, ◌+◌, ◌<◌, ◌^◌, [], ◌∷◌, ◌++◌, length, map, replicate, IfOk, OnOk};
ghost use Rattle.rel_lang.specs.View as trees;
ghost use Rattle.rel_lang.specs.View.{decl_of, block_of};
ghost use Rattle.rel_logic.specs.Syntax.{var, int_sort, rgn_sort, bij_sort};
ghost use Rattle.rel_logic.specs.View.{sort_of, fml_of, sequent_of};
ghost use Rattle.rel_encode.specs.Numbers.{numbers_of};
ghost use Rattle.rel_encode.specs.Relations.{inside, rel_of};
ghost use Rattle.rel_encode.specs.View.{store_of, pair_store_of, numbers_in};
ghost use Rattle.rel_linking.specs.Obligation.{no_numbers, with_result, walk, ended, left_alloc, right_alloc, bijection, at_call, at_end, left_walk, right_walk, obligation_between};

use crate::bodies::walk_block;
use crate::stores::{Layout, call_stores, start_stores, with_result};
use rel_encode::names::{Names, Variables};
use rel_encode::places::Places;
use rel_encode::relations::{inside, relation_outside};
use rel_encode::store::PairStore;
use rel_lang::bundle::Decl;
use rel_lang::command::Command;
use rel_lang::relation::RelFormula;
use rel_lang::typed::Typed;
use rel_list::{Boxed, List, Memory};
use rel_logic::fol::Fol;
use rel_logic::sequent::Sequent;
use rel_logic::term::{Sort, Term};
use std::alloc::Global;

/// Adds `count` integers.
fn push_ints(sorts: &mut List<Sort>, count: usize) -> Result<(), Memory>
    ensures { OnOk result (map sort_of sorts.new ≡ map sort_of sorts.old ++ replicate count int_sort) }
{
    for _i in 0..count {
        sorts.push(Sort::Int)?;
    }
    Ok(())
}

/// The sorts of the variables of an obligation, of which `fresh` stand for new values.
fn sorts(alloc: Global, left: usize, right: usize, fresh: usize) -> Result<List<Sort>, Memory>
    ensures { let on_left = replicate left int_sort ++ rgn_sort ∷ replicate right int_sort in
        let all = on_left ++ rgn_sort ∷ bij_sort ∷ replicate fresh int_sort in
        IfOk result (λ s. map sort_of s ≡ all) }
{
    let mut sorts = List::new(alloc);
    push_ints(&mut sorts, left)?;
    sorts.push(Sort::Rgn)?;
    push_ints(&mut sorts, right)?;
    sorts.push(Sort::Rgn)?;
    sorts.push(Sort::Bij)?;
    push_ints(&mut sorts, fresh)?;
    Ok(sorts)
}

/// Every pair of the bijection is of allocated references.
fn pairs_inside(alloc: Global, left: &List<Decl>, right: &List<Decl>) -> Result<Fol, Memory>
    requires left { length left.now < 2 ^ 30 }
    requires right { length right.now < 2 ^ 30 }
    ensures { let ls = map decl_of left.now in let rs = map decl_of right.now in
        IfOk result (λ f. fml_of f ≡ inside (var (bijection ls rs)) (var (left_alloc ls rs)) (var (right_alloc ls rs))) }
{
    let to = Layout::new(left, right);
    inside(
        alloc,
        &Term::Var(to.bijection),
        &Term::Var(to.left_alloc),
        &Term::Var(to.right_alloc),
    )
}

/// The precondition, where the procedures are called.
fn related_at_call(
    alloc: Global,
    names: &Names<'_>,
    left: &List<Decl>,
    right: &List<Decl>,
    needs: &RelFormula,
) -> Result<Fol, Memory>
    requires left { length left.now < 2 ^ 30 }
    requires right { length right.now < 2 ^ 30 }
    ensures { let ls = map decl_of left.now in let rs = map decl_of right.now in
        IfOk result (λ f. fml_of f ≡ rel_of (numbers_in names.now) ls rs (trees.rel_of needs.now) (at_call ls rs)) }
{
    let stores = call_stores(alloc, left, right)?;
    let left_places = Places::new(alloc, left)?;
    let right_places = Places::new(alloc, right)?;
    relation_outside(
        alloc,
        names,
        &left_places,
        &right_places,
        needs,
        stores.get(),
    )
}

/// The hypotheses about the start.
fn first_hyps(
    alloc: Global,
    names: &Names<'_>,
    left: &List<Decl>,
    right: &List<Decl>,
    needs: &RelFormula,
) -> Result<List<Fol>, Memory>
    requires left { length left.now < 2 ^ 30 }
    requires right { length right.now < 2 ^ 30 }
    ensures { let ls = map decl_of left.now in let rs = map decl_of right.now in
        let pairs = inside (var (bijection ls rs)) (var (left_alloc ls rs)) (var (right_alloc ls rs)) in
        let related = rel_of (numbers_in names.now) ls rs (trees.rel_of needs.now) (at_call ls rs) in
        IfOk result (λ h. map fml_of h ≡ pairs ∷ related ∷ []) }
{
    let mut hyps = List::new(alloc);
    hyps.push(pairs_inside(alloc, left, right)?)?;
    hyps.push(related_at_call(alloc, names, left, right, needs)?)?;
    Ok(hyps)
}

/// The stores where the bodies end, whose equations are added to the hypotheses.
fn end_stores(
    alloc: Global,
    names: &Names<'_>,
    left: &Variables<'_>,
    right: &Variables<'_>,
    left_block: &List<Command>,
    right_block: &List<Command>,
    first: u32,
    mut stores: PairStore,
    hyps: &mut List<Fol>,
) -> Result<Boxed<PairStore>, Memory>
    requires numbers { numbers_in names.now ≡ no_numbers }
    requires few { first + length left_block.now + length right_block.now < 2 ^ 32 }
    ensures stores { let l = walk (map decl_of left.now.items.now) (store_of stores.left) first (block_of left_block.now) in
        let r = walk (map decl_of right.now.items.now) (store_of stores.right) (first + length left_block.now) (block_of right_block.now) in
        IfOk result (λ st. pair_store_of st ≡ ended (pair_store_of stores) l r) }
    ensures hyps { let l = walk (map decl_of left.now.items.now) (store_of stores.left) first (block_of left_block.now) in
        let r = walk (map decl_of right.now.items.now) (store_of stores.right) (first + length left_block.now) (block_of right_block.now) in
        OnOk result (map fml_of hyps.new ≡ map fml_of hyps.old ++ l.hyps ++ r.hyps) }
{
    walk_block(
        alloc,
        names,
        left,
        &mut stores.left,
        first,
        left_block,
        hyps,
    )?;
    let later = first + left_block.len() as u32;
    walk_block(
        alloc,
        names,
        right,
        &mut stores.right,
        later,
        right_block,
        hyps,
    )?;
    Boxed::new(alloc, stores)
}

/// The postcondition where the bodies end, whose equations are added to the hypotheses.
fn related_at_end(
    alloc: Global,
    names: &Names<'_>,
    left: &List<Decl>,
    right: &List<Decl>,
    left_block: &List<Command>,
    right_block: &List<Command>,
    gives: &RelFormula,
    hyps: &mut List<Fol>,
) -> Result<Fol, Memory>
    requires numbers { numbers_in names.now ≡ no_numbers }
    requires left { length left.now < 2 ^ 30 }
    requires right { length right.now < 2 ^ 30 }
    requires left_commands { length left_block.now < 2 ^ 30 }
    requires right_commands { length right_block.now < 2 ^ 30 }
    ensures goal { let ls = map decl_of left.now in let rs = map decl_of right.now in
        let stores = at_end ls rs (block_of left_block.now) (block_of right_block.now) in
        IfOk result (λ f. fml_of f ≡ rel_of no_numbers (with_result ls) (with_result rs) (trees.rel_of gives.now) stores) }
    ensures hyps { let ls = map decl_of left.now in let rs = map decl_of right.now in
        let l = left_walk ls rs (block_of left_block.now) (block_of right_block.now) in
        let r = right_walk ls rs (block_of left_block.now) (block_of right_block.now) in
        OnOk result (map fml_of hyps.new ≡ map fml_of hyps.old ++ l.hyps ++ r.hyps) }
{
    let left_scope = with_result(alloc, left)?;
    let right_scope = with_result(alloc, right)?;
    let left_places = Places::new(alloc, &left_scope)?;
    let right_places = Places::new(alloc, &right_scope)?;
    let first = Layout::new(left, right).first_fresh;
    let stores = start_stores(alloc, left, right)?;
    let ended = end_stores(
        alloc,
        names,
        &left_places,
        &right_places,
        left_block,
        right_block,
        first,
        stores,
        hyps,
    )?;
    relation_outside(
        alloc,
        names,
        &left_places,
        &right_places,
        gives,
        ended.get(),
    )
}

/// The sequent of a judgement about two procedures, of the globals, the bodies and the two formulas.
pub fn between(
    alloc: Global,
    typed: &Typed,
    left: &List<Decl>,
    right: &List<Decl>,
    left_block: &List<Command>,
    right_block: &List<Command>,
    needs: &RelFormula,
    gives: &RelFormula,
) -> Result<Sequent, Memory>
    requires numbers { numbers_of typed.now ≡ no_numbers }
    requires left { length left.now < 2 ^ 30 }
    requires right { length right.now < 2 ^ 30 }
    requires left_commands { length left_block.now < 2 ^ 30 }
    requires right_commands { length right_block.now < 2 ^ 30 }
    ensures { let all = obligation_between (map decl_of left.now) (map decl_of right.now) (block_of left_block.now) (block_of right_block.now) in
        IfOk result (λ q. sequent_of q ≡ all (trees.rel_of needs.now) (trees.rel_of gives.now)) }
{
    let fresh = left_block.len() + right_block.len();
    let sorts = sorts(alloc, left.len(), right.len(), fresh)?;
    let names = Names::new(alloc, typed)?;
    let mut hyps = first_hyps(alloc, &names, left, right, needs)?;
    let goal = related_at_end(
        alloc,
        &names,
        left,
        right,
        left_block,
        right_block,
        gives,
        &mut hyps,
    )?;
    Ok(Sequent { sorts, hyps, goal })
}
