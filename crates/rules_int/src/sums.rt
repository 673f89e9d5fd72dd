//! Sums of the forms of formulas.
ghost use Rattle.std.specs.Prelude.{◌≤◌, pos, Some, IfOk, length, zip, slice_get, option_and_then};
ghost use Rattle.rel_logic.specs.View.{node_of};
ghost use Rattle.rules_int.specs.Linear.{Linear, number_form, plus, joined as joined_linear, bounded_form};
ghost use Rattle.rules_int.specs.Table.{product, sum_of};
ghost use Rattle.rules_int.specs.Forms.{parts_at, IsLike};
ghost use Rattle.rules_int.specs.Made.{IsFormOf, FitsNumbers, dense_at};

use crate::dense::Dense;
use crate::forms::{Form, joined};
use crate::join::Join;
use crate::parts::Parts;
use crate::terms::bounded_form;
use rel_list::Memory;
use rel_logic::sequent::Node;
use rules_table::arguments::formula_at;
use std::alloc::Global;

/// The form of the node's formula number `i`, if it may be taken `k` times.
fn form_at<'a>(
    alloc: Global,
    node: &'a Node,
    i: u32,
    k: i128,
) -> Result<Option<Form<Parts<'a>>>, Memory>
    ensures { let n = node_of node.now in
        IfOk result (IsFormOf parts_at (option_and_then (bounded_form n.sorts k) (slice_get n.forms i))) }
{
    match formula_at(node, i) {
        Some(f) => bounded_form(alloc, node, k, f),
        None => Ok(None),
    }
}

/// The sum with that of one more formula.
fn next_sum<'a>(
    alloc: Global,
    node: &'a Node,
    sum: Form<Dense<'a>>,
    i: u32,
    k: i128,
) -> Result<Option<Form<Dense<'a>>>, Memory>
    requires { FitsNumbers (dense_at sum.numbers) }
    ensures { IfOk result (λ r. (g : Linear) → IsLike sum.entry.constant (dense_at sum.entry.numbers) g →
        IsFormOf dense_at (joined_linear plus (Some g) (product (node_of node.now) (i, k))) r) }
{
    let form = form_at(alloc, node, i, k)?;
    joined(Some(sum), Join::PlusTimes(k), form)
}

/// The sum of no formulas.
fn nothing<'a>(alloc: Global) -> Form<Dense<'a>>
    ensures { IsLike result.constant (dense_at result.numbers) (number_form (pos 0)) }
{
    Form {
        constant: 0,
        numbers: Dense::new(alloc),
    }
}

/// The sum of the forms of the node's formulas with these numbers, each taken as often as its multiplier says, if all
/// numbers in the forms, the products and the sums so far fit.
pub fn sum_of<'a>(
    alloc: Global,
    node: &'a Node,
    nums: &[u32],
    ints: &[i128],
) -> Result<Option<Form<Dense<'a>>>, Memory>
    requires { length nums.now ≤ length ints.now }
    ensures { IfOk result (IsFormOf dense_at (sum_of (node_of node.now) (zip nums.now ints.now))) }
{
    let mut sum = nothing(alloc);
    for j in 0..nums.len() {
        match next_sum(alloc, node, sum, nums[j], ints[j])? {
            None => return Ok(None),
            Some(next) => sum = next,
        }
    }
    Ok(Some(sum))
}
