//! Linear forms of terms and formulas.
ghost use Rattle.std.specs.Prelude.{◌≡◌, ◌+ℤ◌, ◌-ℤ◌, pos, FitsSigned, IfOk, MatchOption};
ghost use Rattle.std.specs.Int.{w128};
ghost use Rattle.rel_logic.specs.View.{trm_of};
ghost use Rattle.rules_int.specs.Linear.{number_form, atom_form};
ghost use Rattle.rules_int.specs.Forms.{parts_at, join_constants, CanJoinConstants, CanJoinEach, JoinsEach, IsLike};
ghost use Rattle.rules_int.specs.Made.{FitsIfAny, FitsNumbers, IsJoinOf};

use crate::join::{Join, join_all, joined as joined_numbers};
use crate::numbers::Numbers;
use crate::parts::Parts;
use rel_list::Memory;
use rel_logic::term::Term;
use std::alloc::Global;

/// A constant and numbers of atoms.
#[derive(Drop)]
pub struct Form<N> {
    pub constant: i128,
    pub numbers: N,
}

/// `a - c + 1`, also where `a - c` alone does not fit.
fn next_number(a: i128, c: i128) -> Option<i128>
    ensures { let next = (a -ℤ c) +ℤ pos 1 in
        MatchOption result (¬ (FitsSigned w128 next)) (λ z. (z ≡ next) × FitsSigned w128 next) }
{
    match a.checked_add(1) {
        Some(more) => more.checked_sub(c),
        None => a.checked_sub(c.checked_sub(1)?),
    }
}

/// Both constants joined, if that fits.
fn joined_constants(how: Join, a: i128, c: i128) -> Option<i128>
    ensures { MatchOption result (¬ (CanJoinConstants how a c)) (λ z. (z ≡ join_constants how a c) × CanJoinConstants how a c) }
{
    match how {
        Join::MinusPlusOne => next_number(a, c),
        _ => joined_numbers(how, a, c),
    }
}

/// Both forms joined, if all their numbers fit.
fn joined_forms<'a, N: Numbers<'a> + Drop>(
    mut a: Form<N>,
    how: Join,
    c: &Form<Parts<'a>>,
) -> Result<Option<Form<N>>, Memory>
    requires { FitsNumbers (N.at a.numbers) }
    ensures { let before = N.at a.numbers in
        let other = parts_at c.now.numbers in
        IfOk result (λ r. MatchOption r
        (¬ (CanJoinConstants how a.constant c.now.constant × CanJoinEach how before other))
        (λ f. (f.constant ≡ join_constants how a.constant c.now.constant) × CanJoinConstants how a.constant c.now.constant × JoinsEach how before other (N.at f.numbers))) }
{
    let Some(constant) = joined_constants(how, a.constant, c.constant) else {
        return Ok(None);
    };
    if !join_all(&mut a.numbers, how, &c.numbers)? {
        return Ok(None);
    }
    let numbers = a.numbers;
    Ok(Some(Form { constant, numbers }))
}

/// Both forms joined, where there are both and all numbers fit.
#[tactic(auto, using(crate::proofs::Joins::joining))]
pub fn joined<'a, N: Numbers<'a> + Drop>(
    a: Option<Form<N>>,
    how: Join,
    c: Option<Form<Parts<'a>>>,
) -> Result<Option<Form<N>>, Memory>
    requires { FitsIfAny N.at a }
    ensures { IfOk result (IsJoinOf N.at parts_at how a c.entry) }
{
    match (a, c) {
        (Some(a), Some(c)) => joined_forms(a, how, &c),
        _ => Ok(None),
    }
}

pub fn number_form<'a>(alloc: Global, number: i128) -> Form<Parts<'a>>
    ensures { IsLike result.constant (parts_at result.numbers) (number_form number) }
{
    Form {
        constant: number,
        numbers: Parts::new(alloc),
    }
}

pub fn atom_form<'a>(alloc: Global, atom: &'a Term) -> Result<Form<Parts<'a>>, Memory>
    ensures { IfOk result (λ f. IsLike f.constant (parts_at f.numbers) (atom_form (trm_of atom.now))) }
{
    let mut numbers = Parts::new(alloc);
    numbers.put(atom, 1)?;
    Ok(Form {
        constant: 0,
        numbers,
    })
}
