//! The lines of a bundle whose derivations are all accepted.

ghost use Rattle.std.specs.Prelude.{◌≡◌, ◌<◌, ◌^◌, ◌++◌, ◌∷◌, [], length, map, IfOk};
ghost use Rattle.rel_lang.specs.View.{item_of};
ghost use Rattle.rel_report.specs.Lines as definition;

use crate::items::words;
use crate::text::bytes_of;
use rel_lang::bundle::Item;
use rel_list::{List, Memory};
use std::alloc::Global;

/// The item has so many obligations.
fn item_line(alloc: Global, item: &Item, count: u32) -> Result<List<u8>, Memory>
    ensures { IfOk result (λ text. text ≡ definition.item_line (item_of item.now) count) }
{
    let words = words(alloc, item)?;
    let words = words.as_str();
    let text = format!(in alloc; "{words}: {count} obligations\n")?;
    Ok(bytes_of(text))
}

/// The line of each item, with its count.
#[tactic(auto, using(crate::proofs::Counted::lines_all))]
fn item_lines(
    alloc: Global,
    items: &List<Item>,
    counts: &List<u32>,
) -> Result<List<List<u8>>, Memory>
    requires { length counts.now ≡ length items.now }
    ensures { IfOk result (λ ls. ls ≡ definition.item_lines (map item_of items.now) counts.now) }
{
    let mut lines = List::new(alloc);
    for (number, item) in items.as_slice().iter().enumerate() {
        lines.push(item_line(alloc, item, *counts.at(number))?)?;
    }
    Ok(lines)
}

/// The sum of the counts.
#[tactic(auto, using(crate::proofs::Counted::sum_all))]
fn sum_of(counts: &List<u32>) -> u64
    requires { length counts.now < 2 ^ 31 }
    ensures { result ≡ definition.sum_of counts.now }
{
    let mut sum = 0;
    for count in counts.as_slice() {
        sum += u64::from(*count);
    }
    sum
}

/// So many items and obligations in all.
fn yes_line(alloc: Global, items: usize, obligations: u64) -> Result<List<u8>, Memory>
    ensures { IfOk result (λ text. text ≡ definition.yes_line items obligations) }
{
    let text = format!(in alloc; "yes: {items} items, {obligations} obligations\n")?;
    Ok(bytes_of(text))
}

/// Each item's line and the last.
pub(crate) fn accepted(
    alloc: Global,
    items: &List<Item>,
    counts: &List<u32>,
) -> Result<List<List<u8>>, Memory>
    requires each { length counts.now ≡ length items.now }
    requires few { length items.now < 2 ^ 31 }
    ensures { IfOk result (λ ls. ls ≡ definition.item_lines (map item_of items.now) counts.now
        ++ definition.yes_line (length items.now) (definition.sum_of counts.now) ∷ []) }
{
    let mut lines = item_lines(alloc, items, counts)?;
    lines.push(yes_line(alloc, items.len(), sum_of(counts))?)?;
    Ok(lines)
}
