//! How many nodes a value has.
ghost use Rattle.std.specs.Prelude.{◌≡◌, ◌+◌, ◌-◌, ◌^◌, min, sum, map};
ghost use Rattle.rust_value.specs.Nodes.{nodes_of, part_nodes, content_nodes, shown_nodes};
ghost use Rattle.std.specs.Prelude.{option_map};

use crate::value::{Part, Val};
use rv_io::{Boxed, Text};

/// How many nodes the value has: one for each `Val` in it, and one more for each byte of a `Str`'s text and of `Bytes`.
/// Saturates at 2^64 - 1. Takes no memory.
#[cycle(counting)]
pub fn nodes(val: &Val) -> u64
    ensures { result ≡ min (nodes_of val.now) (2 ^ 64 - 1) }
{
    match val {
        Val::Fields(parts) | Val::Variant(_, parts) => nodes_of_parts(parts.as_slice()),
        Val::Seq(_, shown) => nodes_of_values(shown.as_slice()),
        Val::Pointer(_, _, content) | Val::Slice(_, _, _, content) => nodes_with_content(content),
        Val::Str(_, _, _, text) => nodes_with_text(text),
        Val::Bytes(bytes) => u64::saturating_add(bytes.as_bytes().len() as u64, 1),
        _ => 1,
    }
}

/// One, and the nodes of the parts.
#[cycle(counting)]
fn nodes_of_parts(parts: &[Part]) -> u64
    ensures { result ≡ min (1 + sum (map part_nodes parts.now)) (2 ^ 64 - 1) }
{
    let mut total: u64 = 1;
    for part in parts {
        total = total.saturating_add(nodes(&part.val));
    }
    total
}

/// One, and the nodes of the values.
#[cycle(counting)]
fn nodes_of_values(values: &[Val]) -> u64
    ensures { result ≡ min (1 + sum (map nodes_of values.now)) (2 ^ 64 - 1) }
{
    let mut total: u64 = 1;
    for value in values {
        total = total.saturating_add(nodes(value));
    }
    total
}

/// One, and the nodes of the content.
#[cycle(counting)]
fn nodes_with_content(content: &Option<Boxed<Val>>) -> u64
    ensures { result ≡ min (1 + content_nodes (option_map nodes_of content.now)) (2 ^ 64 - 1) }
{
    match content {
        None => 1,
        Some(to) => nodes(to.get()).saturating_add(1),
    }
}

/// One, and one for each byte of the text.
fn nodes_with_text(text: &Option<Text>) -> u64
    ensures { result ≡ min (1 + shown_nodes text.now) (2 ^ 64 - 1) }
{
    match text {
        None => 1,
        Some(text) => u64::saturating_add(text.as_bytes().len() as u64, 1),
    }
}
