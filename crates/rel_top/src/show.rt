//! Prints a bundle.

ghost use Rattle.std.specs.Prelude.{◌≡◌, ◌≢◌, ◌^◌, ◌≤◌, map, length, IfOk};
ghost use Rattle.rel_lang.specs.Text.{show_item, spaced};
ghost use Rattle.rel_lang.specs.View.{item_of, bundle_of};
ghost use Rattle.rel_top.specs.Ending.{ReadFailed, answer};
ghost use Rattle.rel_top.specs.Judged.{IsPrintAnswer, IsShowAnswer, answer_of};
ghost use Rattle.rel_top.specs.Report.{line};
ghost use Rattle.rel_top.specs.Verdict.{printed};

use crate::check::{Answer, BUNDLE_LIMIT, content_of, faulty, too_large, unreadable};
use crate::status::Status;
use rel_decls::parse_bundle;
use rel_io::{FileFault, Files};
use rel_lang::bundle::{Bundle, Item};
use rel_list::{List, Memory};
use rel_show::show_line;
use std::alloc::Global;

/// The bundle under the name.
pub fn show<F: Files>(alloc: Global, bundle: &str, files: &mut F) -> Result<Answer, Memory>
    ensures answer { IfOk result (IsShowAnswer (F.told files.old)
        (ReadFailed (F.faults files.old) (F.faults files.new)
        (F.read_faults files.old) (F.read_faults files.new))
        bundle.now) }
    ensures contents_stay { F.told files.new ≡ F.told files.old }
    ensures quiet { IfOk result (λ a. a.status ≢ Status.FileFault → F.faults files.new ≡ F.faults files.old) }
{
    match content_of(alloc, bundle, BUNDLE_LIMIT, files) {
        Ok(text) => Ok(show_text(alloc, text.as_slice())?),
        Err(FileFault::Failed) => Ok(unreadable(alloc, bundle)?),
        Err(FileFault::TooLong) => Ok(too_large(alloc)?),
        Err(FileFault::Memory) => Err(Memory),
    }
}

fn show_text(alloc: Global, text: &[u8]) -> Result<Answer, Memory>
    requires { length text.now ≤ 2 ^ 22 }
    ensures { IfOk result (IsPrintAnswer text.now) }
{
    match parse_bundle(alloc, text) {
        Ok(bundle) => Ok(show_bundle(alloc, &bundle)?),
        Err(fault) => Ok(faulty(alloc, fault)?),
    }
}

fn show_bundle(alloc: Global, bundle: &Bundle) -> Result<Answer, Memory>
    ensures { IfOk result (λ a. a ≡ answer_of (answer (printed (bundle_of bundle.now)))) }
{
    let lines = lines_of(alloc, &bundle.items)?;
    Ok(Answer {
        status: Status::Yes,
        lines,
    })
}

#[tactic(auto, using(crate::proofs::Verdicts::lines_all))]
fn lines_of(alloc: Global, items: &List<Item>) -> Result<List<List<u8>>, Memory>
    ensures { IfOk result (λ lines. lines ≡ map (λ i. line (spaced (show_item (item_of i)))) items.now) }
{
    let mut lines = List::new(alloc);
    for item in items.as_slice() {
        lines.push(line_of(alloc, item)?)?;
    }
    Ok(lines)
}

/// The tokens of the item, with a space between them, and the end of the line.
fn line_of(alloc: Global, item: &Item) -> Result<List<u8>, Memory>
    ensures { IfOk result (λ text. text ≡ line (spaced (show_item (item_of item.now)))) }
{
    let mut text = Vec::new(alloc);
    show_line(&mut text, item)?;
    Ok(List { items: text })
}
