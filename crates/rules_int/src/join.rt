//! How forms are joined, number by number.
ghost use Rattle.std.specs.Prelude.{◌≡◌, IfOk, MatchOption, MatchBool};
ghost use Rattle.rel_logic.specs.Syntax.{Trm};
ghost use Rattle.rules_int.specs.Entries.{number_at};
ghost use Rattle.rules_int.specs.Forms.{entries_of, join, CanJoin, CanJoinEach, JoinsEach, Fits};

use crate::numbers::Numbers;
use crate::parts::Parts;
use rel_list::Memory;

/// How one form is joined to another. A multiple's products have to fit too.
#[derive(Clone, Copy)]
pub enum Join {
    Plus,
    Minus,
    MinusPlusOne,
    PlusTimes(i128),
}

/// Both numbers joined, if that fits.
pub fn joined(how: Join, a: i128, c: i128) -> Option<i128>
    ensures { MatchOption result (¬ (CanJoin how a c)) (λ z. (z ≡ join how a c) × CanJoin how a c) }
{
    match how {
        Join::Plus => a.checked_add(c),
        Join::Minus | Join::MinusPlusOne => a.checked_sub(c),
        Join::PlusTimes(k) => a.checked_add(k.checked_mul(c)?),
    }
}

/// Whether all numbers could be joined. If not, they are of no use.
pub fn join_all<'a, N: Numbers<'a>>(
    numbers: &mut N,
    how: Join,
    other: &Parts<'a>,
) -> Result<bool, Memory>
    requires { (x : Trm) → Fits (N.at numbers.old x) }
    ensures { let before = N.at numbers.old in
        let joined = number_at (entries_of other.now) in
        IfOk result (λ all. MatchBool all
        (JoinsEach how before joined (N.at numbers.new))
        (¬ (CanJoinEach how before joined))) }
{
    for entry in other.entries.iter() {
        let (atom, number) = *entry;
        match joined(how, numbers.number(atom), number) {
            Some(z) => numbers.put(atom, z)?,
            None => return Ok(false),
        }
    }
    Ok(true)
}
