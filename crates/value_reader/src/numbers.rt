//! Values of numbers, by the primitive types that they have.
ghost use Rattle.std.specs.Prelude.{◌≡◌, ℕ, ◌^◌, ◌<◌, ◌&&◌, [], option_map, IfOk};
ghost use Rattle.image_view.specs.Places.{part_of};
ghost use Rattle.rust_value.specs.declared.value.Val.{Val};
ghost use Rattle.rust_value.specs.declared.value.Val.TheVariants.{Dyn, Variant};
ghost use Rattle.layout_set.specs.declared.primitive.Primitive.TheVariants.{Bool as BoolPrim, Char as CharPrim};
ghost use Rattle.layout_set.specs.declared.set.TypeRef.{TypeRef};
ghost use Rattle.layout_set.specs.Primitives.{prim_bytes};
ghost use Rattle.layout_values.specs.Scalars.{prim_value};
ghost use Rattle.layout_values.specs.Pointers.{may_point};
ghost use Rattle.layout_values.specs.Contexts.{Items, Context, number_at, case_of};
ghost use Rattle.layout_values.specs.Walk.{scalar_at, allowed, go_dyn, function_value, case_value};
ghost use Rattle.value_reader.specs.declared.checked.Checked.{Checked};
ghost use Rattle.value_reader.specs.declared.checked.Checked.TheVariants.{Valid};
ghost use Rattle.value_reader.specs.Reads.{reading};

use crate::checked::Checked;
use crate::held::{Held, Parts};
use crate::parts::{number_at, word_at};
use crate::pointers::may_point;
use bumpalo::Bump;
use image_view::Image;
use layout_set::{Case, Primitive, prim_size};
use names::{PtrKind, Word};
use rv_io::{List, Memory};

/// The value of a number of a primitive type.
fn prim_value<'b>(prim: Primitive, number: u128) -> Option<Held<'b>>
    requires { number < 256 ^ prim_bytes 8 prim }
    ensures { result ≡ prim_value 8 prim number }
{
    match prim {
        Primitive::Unit => Some(Held::unit()),
        Primitive::Bool => truth_value(number),
        Primitive::Char => char_value(number),
        Primitive::I8 => Some(Held::signed(i128::from((number as u8).cast_signed()))),
        Primitive::I16 => Some(Held::signed(i128::from((number as u16).cast_signed()))),
        Primitive::I32 => Some(Held::signed(i128::from((number as u32).cast_signed()))),
        Primitive::I64 | Primitive::Isize => {
            Some(Held::signed(i128::from((number as u64).cast_signed())))
        }
        Primitive::I128 => Some(Held::signed(number.cast_signed())),
        Primitive::U8
        | Primitive::U16
        | Primitive::U32
        | Primitive::U64
        | Primitive::U128
        | Primitive::Usize => Some(Held::unsigned(number)),
        Primitive::F32 => Some(Held::float32(number as u32)),
        Primitive::F64 => Some(Held::float64(number as u64)),
    }
}

/// A truth value is 0 or 1.
fn truth_value<'b>(number: u128) -> Option<Held<'b>>
    ensures { result ≡ prim_value 8 BoolPrim number }
{
    if number < 2 {
        Some(Held::boolean(number == 1))
    } else {
        None
    }
}

/// A character is a Unicode scalar value.
fn char_value<'b>(number: u128) -> Option<Held<'b>>
    requires { number < 2 ^ 32 }
    ensures { result ≡ prim_value 8 CharPrim number }
{
    match char::from_u32(number as u32) {
        Some(c) => Some(Held::character(c)),
        None => None,
    }
}

/// Reads a primitive.
pub(crate) fn read_prim<'b>(prim: Primitive, image: &Image<'_>) -> Checked<Held<'b>>
    ensures { result ≡ scalar_at reading (prim_value 8 prim)
        (number_at (part_of image.now) 0 (prim_bytes 8 prim)) }
{
    match number_at(image, 0, prim_size(8, prim)) {
        None => Checked::Missing,
        Some(number) => match prim_value(prim, number) {
            None => Checked::Invalid,
            Some(value) => Checked::Valid(value),
        },
    }
}

/// Reads a pointer to a function.
pub(crate) fn read_function<'b>(image: &Image<'_>) -> Checked<Held<'b>>
    ensures { result ≡ scalar_at reading function_value (number_at (part_of image.now) 0 8) }
{
    match word_at(image, 0) {
        None => Checked::Missing,
        Some(0) => Checked::Invalid,
        Some(at) => Checked::Valid(Held::function(at)),
    }
}

/// Reads a pointer to a trait object.
pub(crate) fn read_dyn<'b>(kind: PtrKind, image: &Image<'_>) -> Checked<Held<'b>>
    ensures { (c : Context) (go : ℕ → TypeRef → Items → Checked Val) → result ≡ go_dyn reading c go
        kind (number_at (part_of image.now) 0 8) (number_at (part_of image.now) 8 8) }
{
    match (word_at(image, 0), word_at(image, 8)) {
        (Some(at), Some(vtable)) => checked_dyn(kind, at, vtable),
        _ => Checked::Missing,
    }
}

/// Reads a pointer to a trait object with these numbers.
fn checked_dyn<'b>(kind: PtrKind, at: u64, vtable: u64) -> Checked<Held<'b>>
    ensures { result ≡ allowed reading (may_point kind at && may_point kind vtable)
        (Valid (Dyn kind at vtable)) }
{
    if may_point(kind, at) && may_point(kind, vtable) {
        Checked::Valid(Held::dynamic(kind, at, vtable))
    } else {
        Checked::Invalid
    }
}

/// The first case with the number.
fn case_of(cases: &[Case], number: u128) -> Option<&Case>
    ensures { option_map (λ x. x.now) result ≡ case_of cases.now number }
{
    cases.iter().find(|case| number == u128::from(case.number))
}

/// Reads an enum without fields.
pub(crate) fn read_case<'b>(
    bump: &'b Bump,
    tag: Primitive,
    cases: &List<Case>,
    image: &Image<'_>,
) -> Result<Checked<Held<'b>>, Memory>
    ensures { IfOk result (λ s. s ≡ scalar_at reading (case_value cases.now)
        (number_at (part_of image.now) 0 (prim_bytes 8 tag))) }
{
    match number_at(image, 0, prim_size(8, tag)) {
        None => Ok(Checked::Missing),
        Some(number) => match case_of(cases.as_slice(), number) {
            None => Ok(Checked::Invalid),
            Some(case) => Ok(Checked::Valid(fieldless(bump, &case.name)?)),
        },
    }
}

/// A variant of this name without fields.
fn fieldless<'b>(bump: &'b Bump, name: &Word) -> Result<Held<'b>, Memory>
    ensures { IfOk result (λ held. held ≡ Variant name.now []) }
{
    let parts = Parts::with_room(bump, 0)?;
    Held::variant(bump, name, parts)
}
