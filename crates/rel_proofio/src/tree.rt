//! Reads terms and formulas.

ghost use Rattle.std.specs.Prelude.{◌≡◌, None, Some, map, option_map, IfOk, IfErr};
ghost use Rattle.serde_json.specs.View.{view};
ghost use Rattle.rel_logic.specs.View.{sort_of, trm_of, fml_of};
ghost use Rattle.rel_proofio.specs.Parts.{number_of, integer_of, one, two, three};
ghost use Rattle.rel_proofio.specs.Trees.{term_with, term_in, srt_in, fml_with, fml_in};

use crate::fault::Unread;
use crate::parts::{headed, integer, number, one_integer, one_number};
use crate::words::{FolHead, TermHead, sort_named};
use rel_list::Boxed;
use rel_logic::fol::Fol;
use rel_logic::term::{Sort, Term};
use serde_json::Value;
use std::alloc::Global;

/// A term of so many nested arrays at most.
#[cycle(term)]
pub fn term(alloc: Global, value: &Value, depth: u32) -> Result<Term, Unread>
    ensures ok { IfOk result (λ t. term_in depth (view value.now) ≡ Some (trm_of t)) }
    ensures malformed { IfErr result (λ e. e ≡ Unread.Malformed → term_in depth (view value.now) ≡ None) }
{
    if depth == 0 {
        return Err(Unread::Malformed);
    }
    let Some((word, arguments)) = headed(value) else {
        return Err(Unread::Malformed);
    };
    match TermHead::of_word(word) {
        Some(head) => term_with(alloc, head, arguments, depth - 1),
        None => Err(Unread::Malformed),
    }
}

#[cycle(term)]
fn term_with(alloc: Global, head: TermHead, arguments: &[Value], depth: u32) -> Result<Term, Unread>
    ensures ok { IfOk result (λ t. term_with (term_in depth) head (map view arguments.now) ≡ Some (trm_of t)) }
    ensures malformed { IfErr result (λ e. e ≡ Unread.Malformed
        → term_with (term_in depth) head (map view arguments.now) ≡ None) }
{
    match head {
        TermHead::Var => Ok(Term::Var(one_number(arguments).ok_or(Unread::Malformed)?)),
        TermHead::Bound => Ok(Term::Bound(one_number(arguments).ok_or(Unread::Malformed)?)),
        TermHead::Int => Ok(Term::Int(one_integer(arguments).ok_or(Unread::Malformed)?)),
        TermHead::Add => {
            let (a, b) = two_terms(alloc, arguments, depth)?;
            Ok(Term::Add(a, b))
        }
        TermHead::Sub => {
            let (a, b) = two_terms(alloc, arguments, depth)?;
            Ok(Term::Sub(a, b))
        }
        TermHead::Mul => {
            let (factor, a) = multiple(alloc, arguments, depth)?;
            Ok(Term::Mul(factor, a))
        }
        TermHead::Null if arguments.is_empty() => Ok(Term::Null),
        TermHead::Sel => {
            let (m, a) = two_terms(alloc, arguments, depth)?;
            Ok(Term::Sel(m, a))
        }
        TermHead::Sto => {
            let (m, (a, b)) = three_terms(alloc, arguments, depth)?;
            Ok(Term::Sto(m, a, b))
        }
        TermHead::Empty if arguments.is_empty() => Ok(Term::Empty),
        TermHead::Null | TermHead::Empty => Err(Unread::Malformed),
        TermHead::One => Ok(Term::One(one_term(alloc, arguments, depth)?)),
        TermHead::Cup => {
            let (g, h) = two_terms(alloc, arguments, depth)?;
            Ok(Term::Cup(g, h))
        }
        TermHead::Cap => {
            let (g, h) = two_terms(alloc, arguments, depth)?;
            Ok(Term::Cap(g, h))
        }
        TermHead::Less => {
            let (g, h) = two_terms(alloc, arguments, depth)?;
            Ok(Term::Less(g, h))
        }
        TermHead::Img => {
            let (m, g) = two_terms(alloc, arguments, depth)?;
            Ok(Term::Img(m, g))
        }
        TermHead::Of => {
            let (class, g) = class_and_term(alloc, arguments, depth)?;
            Ok(Term::Of(class, g))
        }
        TermHead::Link => {
            let (p, (a, b)) = three_terms(alloc, arguments, depth)?;
            Ok(Term::Link(p, a, b))
        }
    }
}

#[cycle(term)]
fn boxed_term(alloc: Global, value: &Value, depth: u32) -> Result<Boxed<Term>, Unread>
    ensures ok { IfOk result (λ t. term_in depth (view value.now) ≡ Some (trm_of t)) }
    ensures malformed { IfErr result (λ e. e ≡ Unread.Malformed → term_in depth (view value.now) ≡ None) }
{
    let term = term(alloc, value, depth)?;
    Ok(Boxed::new(alloc, term)?)
}

#[cycle(term)]
fn one_term(alloc: Global, values: &[Value], depth: u32) -> Result<Boxed<Term>, Unread>
    ensures ok { IfOk result (λ t. one (term_in depth) (map view values.now) ≡ Some (trm_of t)) }
    ensures malformed { IfErr result (λ e. e ≡ Unread.Malformed → one (term_in depth) (map view values.now) ≡ None) }
{
    let [value] = values else {
        return Err(Unread::Malformed);
    };
    boxed_term(alloc, value, depth)
}

#[cycle(term)]
fn two_terms(
    alloc: Global,
    values: &[Value],
    depth: u32,
) -> Result<(Boxed<Term>, Boxed<Term>), Unread>
    ensures ok { IfOk result (λ p. two (term_in depth) (term_in depth) (map view values.now)
        ≡ Some (trm_of p.0, trm_of p.1)) }
    ensures malformed { IfErr result (λ e. e ≡ Unread.Malformed
        → two (term_in depth) (term_in depth) (map view values.now) ≡ None) }
{
    let [a, b] = values else {
        return Err(Unread::Malformed);
    };
    let a = boxed_term(alloc, a, depth)?;
    let b = boxed_term(alloc, b, depth)?;
    Ok((a, b))
}

#[cycle(term)]
fn three_terms(
    alloc: Global,
    values: &[Value],
    depth: u32,
) -> Result<(Boxed<Term>, (Boxed<Term>, Boxed<Term>)), Unread>
    ensures ok { IfOk result (λ p. three (term_in depth) (term_in depth) (term_in depth) (map view values.now)
        ≡ Some (trm_of p.0, (trm_of p.1.0, trm_of p.1.1))) }
    ensures malformed { IfErr result (λ e. e ≡ Unread.Malformed
        → three (term_in depth) (term_in depth) (term_in depth) (map view values.now) ≡ None) }
{
    let [a, rest @ ..] = values else {
        return Err(Unread::Malformed);
    };
    let a = boxed_term(alloc, a, depth)?;
    let rest = two_terms(alloc, rest, depth)?;
    Ok((a, rest))
}

/// An integer and a term.
#[cycle(term)]
fn multiple(alloc: Global, values: &[Value], depth: u32) -> Result<(i128, Boxed<Term>), Unread>
    ensures ok { IfOk result (λ p. two integer_of (term_in depth) (map view values.now) ≡ Some (p.0, trm_of p.1)) }
    ensures malformed { IfErr result (λ e. e ≡ Unread.Malformed
        → two integer_of (term_in depth) (map view values.now) ≡ None) }
{
    let [factor, a] = values else {
        return Err(Unread::Malformed);
    };
    let factor = integer(factor).ok_or(Unread::Malformed)?;
    let a = boxed_term(alloc, a, depth)?;
    Ok((factor, a))
}

#[cycle(term)]
fn class_and_term(alloc: Global, values: &[Value], depth: u32) -> Result<(u32, Boxed<Term>), Unread>
    ensures ok { IfOk result (λ p. two number_of (term_in depth) (map view values.now) ≡ Some (p.0, trm_of p.1)) }
    ensures malformed { IfErr result (λ e. e ≡ Unread.Malformed
        → two number_of (term_in depth) (map view values.now) ≡ None) }
{
    let [class, a] = values else {
        return Err(Unread::Malformed);
    };
    let class = number(class).ok_or(Unread::Malformed)?;
    let a = boxed_term(alloc, a, depth)?;
    Ok((class, a))
}

/// The sort that a string names.
fn sort(value: &Value) -> Option<Sort>
    ensures { option_map sort_of result ≡ srt_in (view value.now) }
{
    match value.as_str() {
        Some(word) => sort_named(word),
        None => None,
    }
}

/// A formula of so many nested arrays at most, those of its terms included.
#[cycle(formula)]
pub fn formula(alloc: Global, value: &Value, depth: u32) -> Result<Fol, Unread>
    ensures ok { IfOk result (λ f. fml_in depth (view value.now) ≡ Some (fml_of f)) }
    ensures malformed { IfErr result (λ e. e ≡ Unread.Malformed → fml_in depth (view value.now) ≡ None) }
{
    if depth == 0 {
        return Err(Unread::Malformed);
    }
    let Some((word, arguments)) = headed(value) else {
        return Err(Unread::Malformed);
    };
    match FolHead::of_word(word) {
        Some(head) => formula_with(alloc, head, arguments, depth - 1),
        None => Err(Unread::Malformed),
    }
}

#[cycle(formula)]
fn formula_with(
    alloc: Global,
    head: FolHead,
    arguments: &[Value],
    depth: u32,
) -> Result<Fol, Unread>
    ensures ok { IfOk result (λ f. fml_with (term_in depth) (fml_in depth) head (map view arguments.now) ≡ Some (fml_of f)) }
    ensures malformed { IfErr result (λ e. e ≡ Unread.Malformed
        → fml_with (term_in depth) (fml_in depth) head (map view arguments.now) ≡ None) }
{
    match head {
        FolHead::True if arguments.is_empty() => Ok(Fol::True),
        FolHead::False if arguments.is_empty() => Ok(Fol::False),
        FolHead::True | FolHead::False => Err(Unread::Malformed),
        FolHead::Eq => {
            let (a, b) = two_terms(alloc, arguments, depth)?;
            Ok(Fol::Eq(a.into_inner(), b.into_inner()))
        }
        FolHead::Lt => {
            let (a, b) = two_terms(alloc, arguments, depth)?;
            Ok(Fol::Lt(a.into_inner(), b.into_inner()))
        }
        FolHead::Le => {
            let (a, b) = two_terms(alloc, arguments, depth)?;
            Ok(Fol::Le(a.into_inner(), b.into_inner()))
        }
        FolHead::Member => {
            let (a, g) = two_terms(alloc, arguments, depth)?;
            Ok(Fol::Member(a.into_inner(), g.into_inner()))
        }
        FolHead::Is => {
            let (class, a) = class_and_term(alloc, arguments, depth)?;
            Ok(Fol::Is(class, a.into_inner()))
        }
        FolHead::Paired => {
            let (p, (a, b)) = three_terms(alloc, arguments, depth)?;
            Ok(Fol::Paired(p.into_inner(), a.into_inner(), b.into_inner()))
        }
        FolHead::Ext => {
            let (p, q) = two_terms(alloc, arguments, depth)?;
            Ok(Fol::Ext(p.into_inner(), q.into_inner()))
        }
        FolHead::Not => Ok(Fol::Not(one_formula(alloc, arguments, depth)?)),
        FolHead::And => {
            let (f, g) = two_formulas(alloc, arguments, depth)?;
            Ok(Fol::And(f, g))
        }
        FolHead::Or => {
            let (f, g) = two_formulas(alloc, arguments, depth)?;
            Ok(Fol::Or(f, g))
        }
        FolHead::Imp => {
            let (f, g) = two_formulas(alloc, arguments, depth)?;
            Ok(Fol::Imp(f, g))
        }
        FolHead::Every => {
            let (sort, f) = sort_and_formula(alloc, arguments, depth)?;
            Ok(Fol::Every(sort, f))
        }
        FolHead::Exists => {
            let (sort, f) = sort_and_formula(alloc, arguments, depth)?;
            Ok(Fol::Exists(sort, f))
        }
    }
}

#[cycle(formula)]
fn boxed_formula(alloc: Global, value: &Value, depth: u32) -> Result<Boxed<Fol>, Unread>
    ensures ok { IfOk result (λ f. fml_in depth (view value.now) ≡ Some (fml_of f)) }
    ensures malformed { IfErr result (λ e. e ≡ Unread.Malformed → fml_in depth (view value.now) ≡ None) }
{
    let formula = formula(alloc, value, depth)?;
    Ok(Boxed::new(alloc, formula)?)
}

#[cycle(formula)]
fn one_formula(alloc: Global, values: &[Value], depth: u32) -> Result<Boxed<Fol>, Unread>
    ensures ok { IfOk result (λ f. one (fml_in depth) (map view values.now) ≡ Some (fml_of f)) }
    ensures malformed { IfErr result (λ e. e ≡ Unread.Malformed → one (fml_in depth) (map view values.now) ≡ None) }
{
    let [value] = values else {
        return Err(Unread::Malformed);
    };
    boxed_formula(alloc, value, depth)
}

#[cycle(formula)]
fn two_formulas(
    alloc: Global,
    values: &[Value],
    depth: u32,
) -> Result<(Boxed<Fol>, Boxed<Fol>), Unread>
    ensures ok { IfOk result (λ p. two (fml_in depth) (fml_in depth) (map view values.now)
        ≡ Some (fml_of p.0, fml_of p.1)) }
    ensures malformed { IfErr result (λ e. e ≡ Unread.Malformed
        → two (fml_in depth) (fml_in depth) (map view values.now) ≡ None) }
{
    let [f, g] = values else {
        return Err(Unread::Malformed);
    };
    let f = boxed_formula(alloc, f, depth)?;
    let g = boxed_formula(alloc, g, depth)?;
    Ok((f, g))
}

#[cycle(formula)]
fn sort_and_formula(
    alloc: Global,
    values: &[Value],
    depth: u32,
) -> Result<(Sort, Boxed<Fol>), Unread>
    ensures ok { IfOk result (λ p. two srt_in (fml_in depth) (map view values.now) ≡ Some (sort_of p.0, fml_of p.1)) }
    ensures malformed { IfErr result (λ e. e ≡ Unread.Malformed
        → two srt_in (fml_in depth) (map view values.now) ≡ None) }
{
    let [sort_word, f] = values else {
        return Err(Unread::Malformed);
    };
    let sort = sort(sort_word).ok_or(Unread::Malformed)?;
    let f = boxed_formula(alloc, f, depth)?;
    Ok((sort, f))
}
