//! Parts of JSON values: elements, numbers and integers.

ghost use Rattle.std.specs.Prelude.{◌≡◌, map, slice_index, option_map};
ghost use Rattle.serde_json.specs.View.{view};
ghost use Rattle.rel_proofio.specs.Parts.{elements_of, number_of, written_integer, integer_of, one, headed};

use serde_json::Value;

/// The elements of an array.
#[tactic(auto, using(crate::proofs::Integers::listed_items))]
pub fn elements(value: &Value) -> Option<&[Value]>
    ensures { option_map (λ vs. map view vs.now) result ≡ elements_of (view value.now) }
{
    match value.as_array() {
        Some(items) => Some(items.as_slice()),
        None => None,
    }
}

/// A JSON integer of 32 bits.
pub fn number(value: &Value) -> Option<u32>
    ensures { result ≡ number_of (view value.now) }
{
    match value.as_u64() {
        Some(number) => u32::try_from(number).ok(),
        None => None,
    }
}

/// The byte at a place, or 0 past the end.
fn byte_at(bytes: &[u8], place: usize) -> u8
    ensures { result ≡ slice_index bytes.now place }
{
    match bytes.get(place) {
        Some(byte) => *byte,
        None => 0,
    }
}

/// `0`, or digits of which the first isn't `0`, behind a `-` or not.
fn written_integer(text: &str) -> Option<i128>
    ensures { result ≡ written_integer text.now }
{
    let bytes = text.as_bytes();
    let first = byte_at(bytes, 0);
    if first == b'-' {
        if byte_at(bytes, 1) < b'1' {
            return None;
        }
        return text.parse::<i128>().ok();
    }
    if first >= b'1' {
        return text.parse::<i128>().ok();
    }
    if first == b'0' && bytes.len() == 1 {
        Some(0)
    } else {
        None
    }
}

/// The integer in a string.
#[tactic(auto, unfolding(crate::specs::Parts::integer_of))]
pub fn integer(value: &Value) -> Option<i128>
    ensures { result ≡ integer_of (view value.now) }
{
    match value.as_str() {
        Some(text) => written_integer(text),
        None => None,
    }
}

pub fn one_number(values: &[Value]) -> Option<u32>
    ensures { result ≡ one number_of (map view values.now) }
{
    let [value] = values else {
        return None;
    };
    number(value)
}

pub fn one_integer(values: &[Value]) -> Option<i128>
    ensures { result ≡ one integer_of (map view values.now) }
{
    let [value] = values else {
        return None;
    };
    integer(value)
}

/// The word that an array begins with, and the other elements.
pub fn headed(value: &Value) -> Option<(&str, &[Value])>
    ensures { option_map (λ p. (p.0.now, map view p.1.now)) result ≡ headed (view value.now) }
{
    match elements(value)? {
        [word, rest @ ..] => match word.as_str() {
            Some(word) => Some((word, rest)),
            None => None,
        },
        [] => None,
    }
}
