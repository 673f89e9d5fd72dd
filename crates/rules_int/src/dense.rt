//! Numbers for many atoms.
ghost use Rattle.std.specs.Prelude.{◌≡◌, ◌↔◌, ◌==◌, ◌<◌, ◌≤◌, ◌^◌, ◌*ℤ◌, ℕ, pos, get_or, length, IsTrue, OnOk, if◌then◌else◌};
ghost use Rattle.rel_logic.specs.Syntax.{Trm, var};
ghost use Rattle.rules_int.specs.Entries.{number_in};
ghost use Rattle.rules_int.specs.Forms.{parts_at, AreMultiples};

use crate::numbers::{Numbers, are_multiples_at, is_multiple};
use crate::parts::Parts;
use rel_list::Memory;
use rel_logic::term::Term;
use std::alloc::Global;

/// The numbers of variables, each at its place, and those of other atoms.
#[derive(Drop)]
pub struct Dense<'a> {
    pub variables: Vec<i128>,
    pub others: Parts<'a>,
    ghost few: { length variables.items ≤ 2 ^ 32 },
}

impl<'a> Dense<'a> {
    pub fn new(alloc: Global) -> Dense<'a>
        ensures { (x : Trm) → number_in result.variables.items (parts_at result.others) x ≡ pos 0 }
    {
        Dense {
            variables: Vec::new(alloc),
            others: Parts::new(alloc),
        }
    }
}

/// The number at a place, or 0 past the end.
fn number_from(numbers: &Vec<i128>, n: u32) -> i128
    ensures { result ≡ get_or numbers.now.items n (pos 0) }
{
    match numbers.get(n as usize) {
        Some(number) => *number,
        None => 0,
    }
}

/// Zeros at the end, up to the length.
fn reach(numbers: &mut Vec<i128>, count: usize) -> Result<(), Memory>
    requires { (count ≤ 2 ^ 32) × (length numbers.old.items ≤ 2 ^ 32) }
    ensures few { length numbers.new.items ≤ 2 ^ 32 }
    ensures long { OnOk result (count ≤ length numbers.new.items) }
    ensures same { OnOk result ((i : ℕ) → get_or numbers.new.items i (pos 0) ≡ get_or numbers.old.items i (pos 0)) }
{
    if numbers.len() < count {
        numbers.resize(count, 0)?;
    }
    Ok(())
}

/// Puts a number at a place.
fn put_into(numbers: &mut Vec<i128>, n: u32, number: i128) -> Result<(), Memory>
    requires { length numbers.old.items ≤ 2 ^ 32 }
    ensures few { length numbers.new.items ≤ 2 ^ 32 }
    ensures put { OnOk result ((i : ℕ) → get_or numbers.new.items i (pos 0) ≡ (if i == n then number else get_or numbers.old.items i (pos 0))) }
{
    let n = n as usize;
    reach(numbers, n + 1)?;
    numbers[n] = number;
    Ok(())
}

impl<'a> Numbers<'a> for Dense<'a> {
    ghost at = { λ d. number_in d.variables.items (parts_at d.others) };

    fn number(&self, atom: &Term) -> i128 {
        match atom {
            Term::Var(n) => number_from(&self.variables, *n),
            _ => self.others.number(atom),
        }
    }

    fn put(&mut self, atom: &'a Term, number: i128) -> Result<(), Memory> {
        match atom {
            Term::Var(n) => put_into(&mut self.variables, *n, number),
            _ => self.others.put(atom, number),
        }
    }
}

fn variable_in(parts: &Parts<'_>, n: u32) -> i128
    ensures { result ≡ parts_at parts.now (var n) }
{
    parts.number(&Term::Var(n))
}

impl<'a> Dense<'a> {
    /// Whether each variable's number is `k` times the other.
    fn variables_are_multiples(&self, k: i128, other: &Parts<'a>) -> bool
        ensures { IsTrue result ↔ ((n : ℕ) → n < length self.now.variables.items →
            get_or self.now.variables.items n (pos 0) ≡ k *ℤ parts_at other.now (var n)) }
    {
        for n in 0..self.variables.len() {
            if !is_multiple(self.variables[n], k, variable_in(other, n as u32)) {
                return false;
            }
        }
        true
    }

    /// Whether each number is `k` times the other.
    pub fn are_multiples(&self, k: i128, other: &Parts<'a>) -> bool
        ensures { IsTrue result ↔ AreMultiples k (number_in self.now.variables.items (parts_at self.now.others)) (parts_at other.now) }
    {
        let variables = self.variables_are_multiples(k, other);
        let others = are_multiples_at(&self.others, self, k, other);
        let rest = are_multiples_at(other, self, k, other);
        variables & others & rest
    }
}
