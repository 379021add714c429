//! What the walk looks up: types of the set, their sizes, and parts of the memory.
ghost use Rattle.std.specs.Prelude.{length, ◌≡◌, ◌+◌, ◌*◌, ◌^◌, ◌<◌, option_map, slice_get};
ghost use Rattle.snapshot_file.specs.Memory.{items_at};
ghost use Rattle.image_view.specs.Places.{part_of};
ghost use Rattle.layout_set.specs.HasSizes.{HasSizes};
ghost use Rattle.layout_set.specs.Law1.{IsWithin};
ghost use Rattle.layout_set.specs.Sizes.{size};

use image_view::Image;
use layout_set::{Set, TypeDef, TypeRef, size_of};
use snapshot_file::Mem;

/// The size of a type, which is 0 where the set has none.
pub(crate) fn size_in(set: &Set, ty: TypeRef) -> u32
    requires { HasSizes set.now }
    ensures value { result ≡ size 8 set.now.types ty }
    ensures small { result < 2 ^ 31 }
{
    match ty {
        TypeRef::User(i) if i as usize >= set.types.as_slice().len() => 0,
        _ => known_size(set, ty),
    }
}

/// The size of a type that the set has.
fn known_size(set: &Set, ty: TypeRef) -> u32
    requires sizes { HasSizes set.now }
    requires within { IsWithin (length set.now.types) ty }
    ensures value { result ≡ size 8 set.now.types ty }
    ensures small { result < 2 ^ 31 }
{
    size_of(set, ty)
}

/// The type at a place.
pub(crate) fn lookup(types: &[TypeDef], i: u32) -> Option<&TypeDef>
    ensures { option_map (λ def. def.now) result ≡ slice_get types.now i }
{
    types.get(i as usize)
}

/// How many items another element is after the first.
pub(crate) fn offset(i: u32, size: u32) -> u64
    ensures { result ≡ i * size }
{
    u64::from(i) * u64::from(size)
}

/// So many items from an offset after an address on.
pub(crate) fn far_image<'a>(mem: &'a Mem, at: u64, off: u64, len: u32) -> Image<'a>
    requires { len < 2 ^ 31 }
    ensures { part_of result ≡ items_at mem.now (at + off) len }
{
    match at.checked_add(off) {
        Some(from) => Image::of_mem(mem, from, len),
        // All items past the last address are missing.
        None => Image::of_mem(mem, u64::MAX, len + 1).part(1, len),
    }
}
