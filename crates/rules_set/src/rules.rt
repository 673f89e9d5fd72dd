//! The rules on references, classes and regions, on their arguments.
ghost use Rattle.std.specs.Prelude.{◌≡◌, ◌<◌, ◌^◌, [], IfOk, length, map};
ghost use Rattle.rel_logic.specs.Syntax.{member, no};
ghost use Rattle.rel_logic.specs.View.{sort_of, trm_of, fml_of};
ghost use Rattle.rules_table.specs.View.{addition_of, outcome_of};
ghost use Rattle.rules_set.specs.Table.{isnt_null, nonnull_row, is_empty, inempty_row, insingle_row, ninsingle_row, inunion_row, ninunion_row, inmeet_row, ninmeet_row, inminus_row, ninminus_row, infilter_row, ninfilter_row, gives, given_by, inimage_row, ninimage_row, has_alone, has_not, ext_row};

use rel_list::{Boxed, Memory, both};
use rel_logic::fol::Fol;
use rel_logic::sequent::Node;
use rel_logic::term::{Sort, Term};
use rules_table::arguments::has_sort;
use rules_table::terms::{equal, of_class, selected};
use rules_table::theory::{
    Added, Answer, adding, closing, one_child, three_children, two_children,
};
use std::alloc::Global;

/// The formula's negation.
fn denied(alloc: Global, f: Fol) -> Result<Fol, Memory>
    ensures { IfOk result (λ g. fml_of g ≡ no (fml_of f)) }
{
    Ok(Fol::Not(Boxed::new(alloc, f)?))
}

fn isnt_null(alloc: Global, a: &Term) -> Result<Fol, Memory>
    ensures { IfOk result (λ f. fml_of f ≡ isnt_null (trm_of a.now)) }
{
    denied(alloc, equal(a, &Term::Null)?)
}

fn is_in(a: &Term, g: &Term) -> Result<Fol, Memory>
    ensures { IfOk result (λ f. fml_of f ≡ member (trm_of a.now) (trm_of g.now)) }
{
    let (a, g) = both(a.copy(), g.copy())?;
    Ok(Fol::Member(a, g))
}

fn isnt_in(alloc: Global, a: &Term, g: &Term) -> Result<Fol, Memory>
    ensures { IfOk result (λ f. fml_of f ≡ no (member (trm_of a.now) (trm_of g.now))) }
{
    denied(alloc, is_in(a, g)?)
}

/// What is in a region, of a class or a partner isn't null.
pub fn not_null(alloc: Global, f: &Fol) -> Result<Answer, Memory>
    ensures { IfOk result (λ o. outcome_of o ≡ nonnull_row (fml_of f.now)) }
{
    match f {
        Fol::Member(a, _) => adding(alloc, 27, isnt_null(alloc, a)?),
        Fol::Is(_, a) => adding(alloc, 27, isnt_null(alloc, a)?),
        Fol::Paired(_, a, b) => one_child(
            alloc,
            27,
            Added::nothing(alloc)
                .with(isnt_null(alloc, a)?)?
                .with(isnt_null(alloc, b)?)?,
        ),
        _ => Ok(Answer::Bad),
    }
}

pub fn is_empty(g: &Term) -> bool
    ensures { result ≡ is_empty (trm_of g.now) }
{
    matches!(g, Term::Empty)
}

/// Nothing is in the empty region.
pub fn in_empty(alloc: Global, g: &Term) -> Answer
    ensures { outcome_of result ≡ inempty_row (trm_of g.now) }
{
    if is_empty(g) {
        closing(alloc, 29)
    } else {
        Answer::Bad
    }
}

/// What is in the region of one reference is that reference, and isn't null.
pub fn in_single(alloc: Global, a: &Term, g: &Term) -> Result<Answer, Memory>
    ensures { IfOk result (λ o. outcome_of o ≡ insingle_row (trm_of a.now) (trm_of g.now)) }
{
    match g {
        Term::One(b) => one_child(
            alloc,
            30,
            Added::nothing(alloc)
                .with(equal(a, b.get())?)?
                .with(isnt_null(alloc, a)?)?,
        ),
        _ => Ok(Answer::Bad),
    }
}

/// What isn't in the region of one reference is another one, or null.
pub fn not_in_single(alloc: Global, a: &Term, g: &Term) -> Result<Answer, Memory>
    ensures { IfOk result (λ o. outcome_of o ≡ ninsingle_row (trm_of a.now) (trm_of g.now)) }
{
    match g {
        Term::One(b) => two_children(
            alloc,
            31,
            Added::nothing(alloc).with(denied(alloc, equal(a, b.get())?)?)?,
            Added::nothing(alloc).with(equal(a, &Term::Null)?)?,
        ),
        _ => Ok(Answer::Bad),
    }
}

/// What is in a union is in either part.
pub fn in_union(alloc: Global, a: &Term, g: &Term) -> Result<Answer, Memory>
    ensures { IfOk result (λ o. outcome_of o ≡ inunion_row (trm_of a.now) (trm_of g.now)) }
{
    match g {
        Term::Cup(g, h) => two_children(
            alloc,
            32,
            Added::nothing(alloc).with(is_in(a, g.get())?)?,
            Added::nothing(alloc).with(is_in(a, h.get())?)?,
        ),
        _ => Ok(Answer::Bad),
    }
}

/// What isn't in a union is in neither part.
pub fn not_in_union(alloc: Global, a: &Term, g: &Term) -> Result<Answer, Memory>
    ensures { IfOk result (λ o. outcome_of o ≡ ninunion_row (trm_of a.now) (trm_of g.now)) }
{
    match g {
        Term::Cup(g, h) => one_child(
            alloc,
            33,
            Added::nothing(alloc)
                .with(isnt_in(alloc, a, g.get())?)?
                .with(isnt_in(alloc, a, h.get())?)?,
        ),
        _ => Ok(Answer::Bad),
    }
}

/// What two regions have in common is in both.
pub fn in_meet(alloc: Global, a: &Term, g: &Term) -> Result<Answer, Memory>
    ensures { IfOk result (λ o. outcome_of o ≡ inmeet_row (trm_of a.now) (trm_of g.now)) }
{
    match g {
        Term::Cap(g, h) => one_child(
            alloc,
            34,
            Added::nothing(alloc)
                .with(is_in(a, g.get())?)?
                .with(is_in(a, h.get())?)?,
        ),
        _ => Ok(Answer::Bad),
    }
}

/// What two regions don't have in common isn't in one of them.
pub fn not_in_meet(alloc: Global, a: &Term, g: &Term) -> Result<Answer, Memory>
    ensures { IfOk result (λ o. outcome_of o ≡ ninmeet_row (trm_of a.now) (trm_of g.now)) }
{
    match g {
        Term::Cap(g, h) => two_children(
            alloc,
            35,
            Added::nothing(alloc).with(isnt_in(alloc, a, g.get())?)?,
            Added::nothing(alloc).with(isnt_in(alloc, a, h.get())?)?,
        ),
        _ => Ok(Answer::Bad),
    }
}

/// What is in a difference is in the first region alone.
pub fn in_minus(alloc: Global, a: &Term, g: &Term) -> Result<Answer, Memory>
    ensures { IfOk result (λ o. outcome_of o ≡ inminus_row (trm_of a.now) (trm_of g.now)) }
{
    match g {
        Term::Less(g, h) => one_child(
            alloc,
            36,
            Added::nothing(alloc)
                .with(is_in(a, g.get())?)?
                .with(isnt_in(alloc, a, h.get())?)?,
        ),
        _ => Ok(Answer::Bad),
    }
}

/// What isn't in a difference isn't in the first region, or is in the second.
pub fn not_in_minus(alloc: Global, a: &Term, g: &Term) -> Result<Answer, Memory>
    ensures { IfOk result (λ o. outcome_of o ≡ ninminus_row (trm_of a.now) (trm_of g.now)) }
{
    match g {
        Term::Less(g, h) => two_children(
            alloc,
            37,
            Added::nothing(alloc).with(isnt_in(alloc, a, g.get())?)?,
            Added::nothing(alloc).with(is_in(a, h.get())?)?,
        ),
        _ => Ok(Answer::Bad),
    }
}

/// A region's members of a class are in it, and of the class.
pub fn in_filter(alloc: Global, a: &Term, g: &Term) -> Result<Answer, Memory>
    ensures { IfOk result (λ o. outcome_of o ≡ infilter_row (trm_of a.now) (trm_of g.now)) }
{
    match g {
        Term::Of(c, g) => one_child(
            alloc,
            38,
            Added::nothing(alloc)
                .with(is_in(a, g.get())?)?
                .with(of_class(*c, a)?)?,
        ),
        _ => Ok(Answer::Bad),
    }
}

/// What isn't among a region's members of a class isn't in it, or not of the class.
pub fn not_in_filter(alloc: Global, a: &Term, g: &Term) -> Result<Answer, Memory>
    ensures { IfOk result (λ o. outcome_of o ≡ ninfilter_row (trm_of a.now) (trm_of g.now)) }
{
    match g {
        Term::Of(c, g) => two_children(
            alloc,
            39,
            Added::nothing(alloc).with(isnt_in(alloc, a, g.get())?)?,
            Added::nothing(alloc).with(denied(alloc, of_class(*c, a)?)?)?,
        ),
        _ => Ok(Answer::Bad),
    }
}

/// The map gives `a` at `o`, or, where it gives regions, one that has `a`.
fn gives(alloc: Global, regions: bool, m: &Term, o: &Term, a: &Term) -> Result<Fol, Memory>
    ensures { IfOk result (λ f. fml_of f ≡ gives regions (trm_of m.now) (trm_of o.now) (trm_of a.now)) }
{
    let (given, a) = both(selected(alloc, m.copy()?, o), a.copy())?;
    if regions {
        Ok(Fol::Member(a, given))
    } else {
        Ok(Fol::Eq(given, a))
    }
}

/// The number of the variable after the node's.
fn fresh(node: &Node) -> u32
    requires { length node.now.sorts < 2 ^ 31 }
    ensures { result ≡ length node.now.sorts }
{
    node.sorts.len() as u32
}

/// A fresh reference is in the region, and the map gives `a` there.
fn given_by(
    alloc: Global,
    fresh: u32,
    regions: bool,
    m: &Term,
    g: &Term,
    a: &Term,
) -> Result<Added, Memory>
    ensures { IfOk result (λ c. addition_of c ≡ given_by fresh regions (trm_of m.now) (trm_of g.now) (trm_of a.now)) }
{
    let o = Term::Var(fresh);
    let source = Added::variable(alloc, Sort::Ref)?;
    source
        .with(is_in(&o, g)?)?
        .with(gives(alloc, regions, m, &o, a)?)
}

/// What is in an image is given by some member of the region.
pub fn in_image(alloc: Global, node: &Node, a: &Term, g: &Term) -> Result<Answer, Memory>
    requires { length node.now.sorts < 2 ^ 31 }
    ensures { IfOk result (λ o. outcome_of o ≡ inimage_row (map sort_of node.now.sorts) (trm_of a.now) (trm_of g.now)) }
{
    match g {
        Term::Img(m, g) => {
            let regions = has_sort(node, Sort::MapG, m.get());
            let child = given_by(alloc, fresh(node), regions, m.get(), g.get(), a)?;
            one_child(alloc, 40, child)
        }
        _ => Ok(Answer::Bad),
    }
}

/// What isn't in an image isn't given by `t`, unless that isn't in the region or it is null.
pub fn not_in_image(
    alloc: Global,
    node: &Node,
    t: &Term,
    a: &Term,
    g: &Term,
) -> Result<Answer, Memory>
    ensures { IfOk result (λ o. outcome_of o ≡ ninimage_row (map sort_of node.now.sorts) (trm_of t.now) (trm_of a.now) (trm_of g.now)) }
{
    match g {
        Term::Img(m, g) => {
            if !has_sort(node, Sort::Ref, t) {
                return Ok(Answer::Bad);
            }
            let regions = has_sort(node, Sort::MapG, m.get());
            let given = gives(alloc, regions, m.get(), t, a)?;
            let second = Added::nothing(alloc).with(denied(alloc, given)?)?;
            let first = Added::nothing(alloc).with(isnt_in(alloc, t, g.get())?)?;
            let third = Added::nothing(alloc).with(equal(a, &Term::Null)?)?;
            three_children(alloc, 41, first, second, third)
        }
        _ => Ok(Answer::Bad),
    }
}

/// A fresh reference is in the first region and not in the second.
fn has_alone(alloc: Global, fresh: u32, g: &Term, h: &Term) -> Result<Added, Memory>
    ensures { IfOk result (λ a. addition_of a ≡ has_alone fresh (trm_of g.now) (trm_of h.now)) }
{
    let o = Term::Var(fresh);
    let child = Added::variable(alloc, Sort::Ref)?;
    child.with(is_in(&o, g)?)?.with(isnt_in(alloc, &o, h)?)
}

/// A fresh reference is in the second region and not in the first.
fn has_not(alloc: Global, fresh: u32, g: &Term, h: &Term) -> Result<Added, Memory>
    ensures { IfOk result (λ a. addition_of a ≡ has_not fresh (trm_of g.now) (trm_of h.now)) }
{
    let o = Term::Var(fresh);
    let child = Added::variable(alloc, Sort::Ref)?;
    child.with(isnt_in(alloc, &o, g)?)?.with(is_in(&o, h)?)
}

/// Of two regions that differ, one has a member that the other doesn't have.
pub fn extensionality(alloc: Global, node: &Node, f: &Fol) -> Result<Answer, Memory>
    requires { length node.now.sorts < 2 ^ 31 }
    ensures { IfOk result (λ o. outcome_of o ≡ ext_row (map sort_of node.now.sorts) (fml_of f.now)) }
{
    match f {
        Fol::Not(e) => match e.get() {
            Fol::Eq(g, h) => {
                if !has_sort(node, Sort::Rgn, g) {
                    return Ok(Answer::Bad);
                }
                let fresh = fresh(node);
                let first = has_alone(alloc, fresh, g, h)?;
                two_children(alloc, 42, first, has_not(alloc, fresh, g, h)?)
            }
            _ => Ok(Answer::Bad),
        },
        _ => Ok(Answer::Bad),
    }
}
