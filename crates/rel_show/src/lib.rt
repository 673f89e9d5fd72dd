//! Prints bundles.
#![tactic(auto)]

ghost use Rattle.std.specs.Prelude.{◌≡◌, IfOk};
ghost use Rattle.rel_lang.specs.Text.{shown};
ghost use Rattle.rel_lang.specs.View.{bundle_of};

mod biprogram;
mod command;
mod expr;
mod formula;
mod item;
pub mod laws;
mod relation;
mod several;
mod text;

pub use crate::item::show_line;
use rel_lang::bundle::Bundle;
use rel_list::Memory;
use std::alloc::Global;

/// The text of the bundle: each item's tokens with a space between them, and a line feed behind each item.
pub fn show(alloc: Global, b: &Bundle) -> Result<Vec<u8>, Memory>
    ensures { IfOk result (λ text. text.items ≡ shown (bundle_of b.now).items) }
{
    let mut out = Vec::new(alloc);
    for item in b.items.as_slice() {
        show_line(&mut out, item)?;
    }
    Ok(out)
}
