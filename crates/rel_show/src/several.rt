//! Repetitions.

ghost use Rattle.std.specs.Prelude.{◌≡◌, ◌++◌, List as Listed, map, OnOk};
ghost use Rattle.rel_lang.specs.Text.{Mark, repeated, behind, ended, listed};
ghost use Rattle.rel_show.specs.Written.{written};

use crate::text::show_word;
use rel_list::{List, Memory};

/// How an element of a repetition is shown.
pub(crate) trait Element {
    type Item;

    ghost Tree: { Type 0 };

    ghost view: { Self.Item → Tree };

    ghost marks: { Self → Tree → Listed Mark };

    fn show(&self, out: &mut Vec<u8>, item: &Self::Item) -> Result<(), Memory>
        ensures { OnOk result (out.new.items ≡ out.old.items ++ written (marks self.now (view item.now))) };
}

/// An element behind a word.
#[derive(Drop)]
pub(crate) struct Behind<'e, E> {
    pub word: &'e str,
    pub element: &'e E,
}

impl<E: Element> Element for Behind<'_, E> {
    type Item = E::Item;

    ghost Tree = { E.Tree };

    ghost view = { E.view };

    ghost marks = { λ b. behind b.word.now (E.marks b.element.now) };

    #[tactic(auto, using(crate::proofs::Writing::writing))]
    fn show(&self, out: &mut Vec<u8>, item: &E::Item) -> Result<(), Memory> {
        show_word(out, self.word)?;
        self.element.show(out, item)
    }
}

/// An element with a word behind it.
#[derive(Drop)]
pub(crate) struct Ended<'e, E> {
    pub element: &'e E,
    pub word: &'e str,
}

impl<E: Element> Element for Ended<'_, E> {
    type Item = E::Item;

    ghost Tree = { E.Tree };

    ghost view = { E.view };

    ghost marks = { λ e. ended e.word.now (E.marks e.element.now) };

    #[tactic(auto, using(crate::proofs::Writing::writing))]
    fn show(&self, out: &mut Vec<u8>, item: &E::Item) -> Result<(), Memory> {
        self.element.show(out, item)?;
        show_word(out, self.word)
    }
}

/// The elements, one behind the other.
fn show_run<E: Element>(out: &mut Vec<u8>, element: &E, items: &[E::Item]) -> Result<(), Memory>
    ensures { OnOk result (out.new.items ≡ out.old.items
        ++ written (repeated (E.marks element.now) 1 (map E.view items.now))) }
{
    for item in items {
        element.show(out, item)?;
    }
    Ok(())
}

/// The elements, one behind the other.
pub(crate) fn show_each<E: Element>(
    out: &mut Vec<u8>,
    element: &E,
    items: &List<E::Item>,
) -> Result<(), Memory>
    ensures { OnOk result (out.new.items ≡ out.old.items
        ++ written (repeated (E.marks element.now) 1 (map E.view items.now))) }
{
    show_run(out, element, items.as_slice())
}

/// The elements with commas between them.
fn show_apart<E: Element>(out: &mut Vec<u8>, element: &E, items: &[E::Item]) -> Result<(), Memory>
    ensures { OnOk result (out.new.items ≡ out.old.items
        ++ written (listed (E.marks element.now) (map E.view items.now))) }
{
    match items {
        [] => Ok(()),
        [first, rest @ ..] => {
            element.show(out, first)?;
            show_run(out, &Behind { word: ",", element }, rest)
        }
    }
}

/// The elements with commas between them.
pub(crate) fn show_listed<E: Element>(
    out: &mut Vec<u8>,
    element: &E,
    items: &List<E::Item>,
) -> Result<(), Memory>
    ensures { OnOk result (out.new.items ≡ out.old.items
        ++ written (listed (E.marks element.now) (map E.view items.now))) }
{
    show_apart(out, element, items.as_slice())
}
