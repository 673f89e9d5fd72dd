//! Comparisons of forms.
ghost use Rattle.std.specs.Prelude.{◌≡◌, ◌&&◌, ◌≤ℤ◌, pos, int_lt, IsTrue};
ghost use Rattle.std.specs.Ordering.{int_eq};
ghost use Rattle.rules_int.specs.Linear.{Linear, has_no_atoms, are_multiples};
ghost use Rattle.rules_int.specs.Table.{is_rounded};
ghost use Rattle.rules_int.specs.Forms.{parts_at, IsLike};
ghost use Rattle.rules_int.specs.Made.{dense_at};

use crate::dense::Dense;
use crate::forms::Form;
use crate::parts::Parts;
use std::alloc::Global;

/// Whether the sum is a constant above 0.
pub fn is_above_zero(alloc: Global, sum: &Form<Dense<'_>>) -> bool
    ensures { (s : Linear) → IsLike sum.now.constant (dense_at sum.now.numbers) s → result ≡ int_lt (pos 0) s.constant && has_no_atoms s }
{
    sum.constant > 0 && sum.numbers.are_multiples(1, &Parts::new(alloc))
}

/// `d / g`, rounded up.
fn ceiling(d: i128, g: i128) -> i128
    requires { pos 1 ≤ℤ g }
    ensures { IsTrue (is_rounded result d g) }
{
    let quotient = d / g;
    if d % g > 0 { quotient + 1 } else { quotient }
}

fn is_rounded(c: i128, d: i128, g: i128) -> bool
    requires { pos 1 ≤ℤ g }
    ensures { result ≡ is_rounded c d g }
{
    c == ceiling(d, g)
}

/// Whether the form is the sum divided by `g`, its constant rounded up.
pub fn is_quotient(g: i128, sum: &Form<Dense<'_>>, form: &Form<Parts<'_>>) -> bool
    requires { pos 1 ≤ℤ g }
    ensures { (s f : Linear) → IsLike sum.now.constant (dense_at sum.now.numbers) s → IsLike form.now.constant (parts_at form.now.numbers) f
        → result ≡ are_multiples g s.parts f.parts && is_rounded f.constant s.constant g }
{
    sum.numbers.are_multiples(g, &form.numbers) && is_rounded(form.constant, sum.constant, g)
}

/// Whether the two forms are equal.
pub fn are_alike(a: &Form<Parts<'_>>, b: &Form<Parts<'_>>) -> bool
    ensures { (f g : Linear) → IsLike a.now.constant (parts_at a.now.numbers) f → IsLike b.now.constant (parts_at b.now.numbers) g
        → result ≡ int_eq f.constant g.constant && are_multiples (pos 1) f.parts g.parts }
{
    a.constant == b.constant && a.numbers.are_multiples(1, &b.numbers)
}
