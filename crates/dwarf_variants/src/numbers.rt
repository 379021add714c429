//! The numbers that variants list, and those that they leave (DWARF 5, 5.7.10, DW_AT_discr_value).
ghost use Rattle.std.specs.Prelude.{◌≡◌, ◌<◌, ◌^◌, ◌*◌, IfSome, option_map};
ghost use Rattle.dwarf_abbrev.specs.Values.{Val, val_of};
ghost use Rattle.dwarf_entries.specs.Discriminants.{is_signed, listed_number};
ghost use Rattle.dwarf_entries.specs.Enums.{listed_numbers, number_in};
ghost use Rattle.dwarf_variants.specs.Ends.{DoFit, ends_of, ends_seen, leave_none, span_by, with_next};
ghost use Rattle.layout_set.specs.Primitives.{prim_bytes};

use crate::kinds::variants_in;
use dwarf_abbrev::Attr;
use dwarf_dies::Die;
use dwarf_entries::{at, default_first, default_last, leaves_none, listed_number};
use layout_set::{Primitive, Selector};

/// The first and the last number that the variants of a part list.
#[derive(Clone, Copy, Debug, PartialEq, Eq)]
pub struct Listed {
    pub first: u128,
    pub last: u128,
}

/// The number that a variant lists for a tag of this type; None where it lists none, and where that is a
/// block of another size. Takes no memory.
pub fn number_in(prim: Primitive, variant: &Die<'_>) -> Option<u128>
    ensures number { result ≡ number_in prim variant.now.die }
    ensures fits { IfSome result (λ n. n < 2 ^ (8 * prim_bytes 8 prim)) }
{
    let attribute = variant.attribute(at::DISCR_VALUE)?;
    number_of(prim, attribute.form, attribute.value)
}

/// The first and the last number that the variants of a part list for a tag of this type; None where they
/// list none. Takes no memory.
pub fn listed_in(prim: Primitive, part: &Die<'_>) -> Option<Listed>
    ensures ends { option_map ends_seen result ≡ ends_of (listed_numbers part.now.info prim part.now.die) }
    ensures fits { IfSome result (DoFit prim) }
{
    let mut listed: Option<Listed> = None;
    for variant in variants_in(part) {
        if let Some(number) = number_in(prim, &variant) {
            listed = with_next(listed, number);
        }
    }
    listed
}

/// The number that a value lists for a tag of this type; `code` is that of its form.
fn number_of(prim: Primitive, code: u64, value: Attr<'_>) -> Option<u128>
    ensures number { result ≡ listed_number (prim_bytes 8 prim) (is_signed prim) code (val_of value.entry) }
    ensures fits { IfSome result (λ n. n < 2 ^ (8 * prim_bytes 8 prim)) }
{
    match value {
        Attr::Block(block) => block_number(prim, code, block),
        other => listed_number(prim, code, other),
    }
}

/// The same of a block.
fn block_number(prim: Primitive, code: u64, block: &[u8]) -> Option<u128>
    ensures number { result ≡ listed_number (prim_bytes 8 prim) (is_signed prim) code (Val.Block block.now) }
    ensures fits { IfSome result (λ n. n < 2 ^ (8 * prim_bytes 8 prim)) }
{
    listed_number(prim, code, Attr::Block(block))
}

/// What the listed numbers are with the next one after them.
fn with_next(listed: Option<Listed>, number: u128) -> Option<Listed>
    ensures { option_map ends_seen result ≡ with_next (option_map ends_seen listed) number }
{
    let first = match listed {
        Some(before) => before.first,
        None => number,
    };
    Some(Listed {
        first,
        last: number,
    })
}

/// The numbers that the listed ones leave for the default variant: those after the last up to the one
/// before the first. Takes no memory.
pub fn default_span(prim: Primitive, listed: Option<Listed>) -> Selector
    requires { IfSome listed (DoFit prim) }
    ensures { result ≡ span_by (prim_bytes 8 prim) (option_map ends_seen listed) }
{
    match listed {
        None => Selector::Span(0, 0),
        Some(ends) => Selector::Span(
            default_first(prim, ends.last),
            default_last(prim, ends.first),
        ),
    }
}

/// Whether the listed numbers leave none for the default variant. Takes no memory.
pub fn leave_none(prim: Primitive, listed: Option<Listed>) -> bool
    requires { IfSome listed (DoFit prim) }
    ensures { result ≡ leave_none (prim_bytes 8 prim) (option_map ends_seen listed) }
{
    match listed {
        None => false,
        Some(ends) => leaves_none(prim, ends.first, ends.last),
    }
}
