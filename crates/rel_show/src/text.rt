//! Words, names and numbers, each with a space behind it.

ghost use Rattle.std.specs.Prelude.{◌≡◌, ℕ, [], ◌∷◌, ◌++◌, List as Listed, OnOk};
ghost use Rattle.rel_lang.specs.Text.{word, named, literally, counted};
ghost use Rattle.rel_show.specs.Written.{written};

use itoa::Buffer;
use rel_list::{Memory, Name};

pub(crate) fn show_word(out: &mut Vec<u8>, text: &str) -> Result<(), Memory>
    ensures { OnOk result (out.new.items ≡ out.old.items ++ written (word text.now ∷ [])) }
{
    out.extend_from_slice(text.as_bytes())?;
    out.push(b' ')?;
    Ok(())
}

pub(crate) fn show_name(out: &mut Vec<u8>, name: &Name) -> Result<(), Memory>
    ensures { OnOk result (out.new.items ≡ out.old.items ++ written (named name.now ∷ [])) }
{
    show_word(out, name.as_str())
}

/// A word and the name behind it.
#[tactic(auto, using(crate::proofs::Writing::writing))]
pub(crate) fn show_title(out: &mut Vec<u8>, text: &str, name: &Name) -> Result<(), Memory>
    ensures { OnOk result (out.new.items ≡ out.old.items ++ written (word text.now ∷ named name.now ∷ [])) }
{
    show_word(out, text)?;
    show_name(out, name)
}

pub(crate) fn show_literal(out: &mut Vec<u8>, n: i128) -> Result<(), Memory>
    ensures { OnOk result (out.new.items ≡ out.old.items ++ written (literally n ∷ [])) }
{
    let mut digits = Buffer::new();
    show_word(out, digits.format(n))
}

pub(crate) fn show_count(out: &mut Vec<u8>, n: u32) -> Result<(), Memory>
    ensures { OnOk result (out.new.items ≡ out.old.items ++ written (counted n ∷ [])) }
{
    let mut digits = Buffer::new();
    show_word(out, digits.format(n))
}

/// Puts a line feed in the place of the last byte.
pub(crate) fn end_line(out: &mut Vec<u8>) -> Result<(), Memory>
    ensures { OnOk result ((xs : Listed ℕ) (x : ℕ) → out.old.items ≡ xs ++ x ∷ [] → out.new.items ≡ xs ++ 10 ∷ []) }
{
    out.pop();
    out.push(b'\n')?;
    Ok(())
}
