//! Numbers for atoms.
ghost use Rattle.std.specs.Prelude.{◌≡◌, ◌↔◌, ◌*ℤ◌, false, IsTrue, MatchOption, OnOk};
ghost use Rattle.rel_logic.specs.View.{trm_of};
ghost use Rattle.rules_int.specs.Entries.{Numbers as AtomNumbers, has_atom, IsPlace};
ghost use Rattle.rules_int.specs.Forms.{entries_of, parts_at, IsPut, AreMultiples, AreMultiplesAt};

use crate::parts::Parts;
use rel_list::Memory;
use rel_logic::term::Term;
use rules_table::arguments::same_terms;

/// Numbers for atoms. An atom that has none counts as 0.
pub trait Numbers<'a> {
    ghost at: { Self → AtomNumbers };

    fn number(&self, atom: &Term) -> i128
        ensures { result ≡ at self.now (trm_of atom.now) };

    fn put(&mut self, atom: &'a Term, number: i128) -> Result<(), Memory>
        ensures { OnOk result (IsPut (at self.old) (trm_of atom.now) number (at self.new)) };
}

/// Whether `a` is `k` times `c`.
pub fn is_multiple(a: i128, k: i128, c: i128) -> bool
    ensures { IsTrue result ↔ (a ≡ k *ℤ c) }
{
    match k.checked_mul(c) {
        Some(product) => a == product,
        None => false,
    }
}

/// Whether the numbers of these parts' atoms are `k` times the others.
pub fn are_multiples_at<'a, N: Numbers<'a>>(
    parts: &Parts<'a>,
    numbers: &N,
    k: i128,
    other: &Parts<'a>,
) -> bool
    ensures { IsTrue result ↔ AreMultiplesAt (entries_of parts.now) k (N.at numbers.now) (parts_at other.now) }
{
    for entry in parts.entries.iter() {
        let (atom, _) = *entry;
        if !is_multiple(numbers.number(atom), k, other.number(atom)) {
            return false;
        }
    }
    true
}

impl<'a> Parts<'a> {
    /// The place of the atom's entry.
    fn place(&self, atom: &Term) -> Option<usize>
        ensures { let entries = entries_of self.now in
            let a = trm_of atom.now in
            MatchOption result (has_atom entries a ≡ false) (IsPlace entries a) }
    {
        for i in 0..self.entries.len() {
            if same_terms(self.entries[i].0, atom) {
                return Some(i);
            }
        }
        None
    }
}

impl<'a> Numbers<'a> for Parts<'a> {
    ghost at = { parts_at };

    fn number(&self, atom: &Term) -> i128 {
        match self.place(atom) {
            Some(i) => self.entries[i].1,
            None => 0,
        }
    }

    fn put(&mut self, atom: &'a Term, number: i128) -> Result<(), Memory> {
        match self.place(atom) {
            Some(i) => self.entries[i] = (atom, number),
            None => self.entries.push((atom, number))?,
        }
        Ok(())
    }
}

impl<'a> Parts<'a> {
    /// Whether each number is `k` times the other.
    pub fn are_multiples(&self, k: i128, other: &Parts<'a>) -> bool
        ensures { IsTrue result ↔ AreMultiples k (parts_at self.now) (parts_at other.now) }
    {
        are_multiples_at(self, self, k, other) && are_multiples_at(other, self, k, other)
    }
}
