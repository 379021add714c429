//! Which variant of an enum a number chooses.
ghost use Rattle.std.specs.Prelude.{◌≡◌, ◌-◌, ◌^◌, min, option_map, position};
ghost use Rattle.layout_values.specs.Choice.{holds, chosen, is_chosen_by};

use layout_set::{Selector, Variant};
use rv_io::List;

/// Whether the selector holds of the number.
fn holds(sel: Selector, number: u128) -> bool
    ensures { result ≡ holds sel number }
{
    match sel {
        Selector::Exact(n) => number == n,
        Selector::Span(lo, hi) if lo <= hi => lo <= number && number <= hi,
        Selector::Span(lo, hi) => lo <= number || number <= hi,
        Selector::Only => true,
    }
}

/// The first variant whose selector holds.
pub(crate) fn chosen(variants: &[Variant], number: u128) -> Option<&Variant>
    ensures { option_map (λ w. w.now) result ≡ chosen variants.now number }
{
    variants.iter().find(|variant| holds(variant.sel, number))
}

/// The place of the first variant whose selector holds.
fn place_of(variants: &[Variant], number: u128) -> Option<usize>
    ensures { result ≡ position (is_chosen_by number) variants.now }
{
    variants
        .iter()
        .position(|variant| holds(variant.sel, number))
}

/// The place of the first variant whose selector holds of the number; None exactly where none does. A place past
/// 2^32 - 1 stands at it. Takes no memory.
pub fn select(variants: &List<Variant>, number: u128) -> Option<u32>
    ensures { result ≡ option_map (λ i. min i (2 ^ 32 - 1)) (position (is_chosen_by number) variants.now) }
{
    match place_of(variants.as_slice(), number) {
        None => None,
        Some(place) => Some(place.min(u32::MAX as usize) as u32),
    }
}
