//! A text as bytes.

ghost use Rattle.std.specs.Prelude.{◌≡◌, string_bytes};

use rel_list::List;

pub(crate) fn bytes_of(text: String) -> List<u8>
    ensures { result ≡ string_bytes text }
{
    List {
        items: text.into_bytes(),
    }
}
