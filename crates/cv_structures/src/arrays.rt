//! LF_ARRAYs.
ghost use Rattle.std.specs.Prelude.{◌≡◌, ◌<◌, ◌^◌, int_lt, pos, true};
ghost use Rattle.cv_type_defs.specs.Arrays.{array_def, array_rule, array_size_rule, count_by_size};

use crate::fields::or_unit;
use crate::sizes::Sizes;
use cv_fields::{lower, rule, rule_if};
use layout_set::TypeDef;

/// How many elements of this size there are in so many bytes; none where elements have no size.
fn count_by_size(element: u32, size: i128) -> u64
    requires { count_by_size element size < 2 ^ 64 }
    ensures { result ≡ count_by_size element size }
{
    if size < 0 || element == 0 {
        return 0;
    }
    (size / i128::from(element)) as u64
}

/// The type that the LF_ARRAY at a place is, which has this type of elements and this size. Takes no
/// memory.
pub fn array_def(sizes: &Sizes<'_>, place: usize, elem: u32, size: i128) -> TypeDef
    // The sizes of records fit 64 bits.
    requires { int_lt size (pos (2 ^ 64)) ≡ true }
    ensures { result ≡ array_def sizes.now place elem size }
{
    let info = sizes.info();
    TypeDef::Array {
        elem: or_unit(info.type_of(info.links().target(place, elem))),
        count: count_by_size(sizes.below(place, elem), size),
    }
}

/// The rule that the size of an array breaks: it is negative, or no multiple of that of its element.
fn array_size_rule(element: u32, size: i128) -> Option<u8>
    ensures { result ≡ array_size_rule element size }
{
    if size < 0 {
        return Some(rule::NO_FIT);
    }
    rule_if(
        element != 0 && size % i128::from(element) != 0,
        rule::ARRAY_SHAPE,
    )
}

/// The lowest of the rules that such an LF_ARRAY breaks: its size, or its elements have no type. Takes no
/// memory.
pub fn array_rule(sizes: &Sizes<'_>, place: usize, elem: u32, size: i128) -> Option<u8>
    ensures { result ≡ array_rule sizes.now place elem size }
{
    let info = sizes.info();
    let ty = info.type_rule(info.links().target(place, elem));
    lower(array_size_rule(sizes.below(place, elem), size), ty)
}
