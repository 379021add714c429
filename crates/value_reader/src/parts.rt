//! Parts of images, and what stands in them, as far as it is there.
ghost use Rattle.std.specs.Prelude.{◌≡◌, ◌+◌, ◌*◌, ◌^◌, ◌≤◌, ◌<◌, IfSome, IfOk};
ghost use Rattle.rust_value.specs.Held.{led};
ghost use Rattle.snapshot_file.specs.Memory.{sub, bytes_of};
ghost use Rattle.image_view.specs.Places.{part_of};
ghost use Rattle.layout_values.specs.Contexts.{number_at, tag_number};

use bumpalo::Bump;
use bumpalo::collections::into_bump_slice;
use image_view::Image;
use layout_set::{Tag, prim_size};
use rv_io::Memory;

/// So many items from an offset on, as far as they are there.
#[tactic(auto, using(crate::proofs::Places::part_clamped))]
pub(crate) fn part_at<'a>(image: &Image<'a>, off: u64, len: u32) -> Image<'a>
    ensures { part_of result ≡ sub (part_of image.now) off len }
{
    let off = off.min(u64::from(image.len())) as u32;
    image.part(off, len.min(image.len() - off))
}

/// The little-endian number of so many items from an offset on.
pub(crate) fn number_at(image: &Image<'_>, off: u32, width: u32) -> Option<u128>
    requires { width ≤ 16 }
    ensures value { result ≡ number_at (part_of image.now) off width }
    ensures bound { IfSome result (λ n. n < 256 ^ width) }
{
    let part = part_at(image, u64::from(off), width);
    part.number(0, part.len())
}

/// The number of eight items from an offset on.
pub(crate) fn word_at(image: &Image<'_>, off: u32) -> Option<u64>
    ensures { result ≡ number_at (part_of image.now) off 8 }
{
    match number_at(image, off, 8) {
        None => None,
        Some(number) => Some(number as u64),
    }
}

/// The number of an enum's tag, or 0 where it has none.
pub(crate) fn tag_number(tag: &Option<Tag>, image: &Image<'_>) -> Option<u128>
    ensures { result ≡ tag_number 8 tag.now (part_of image.now) }
{
    match tag {
        None => Some(0),
        Some(tag) => number_at(image, tag.off, prim_size(8, tag.prim)),
    }
}

/// A copy of all bytes in the arena; None exactly where one is missing.
pub(crate) fn bytes_in<'b>(bump: &'b Bump, image: &Image<'_>) -> Result<Option<&'b [u8]>, Memory>
    ensures { IfOk result (λ bytes. led bytes ≡ bytes_of (part_of image.now)) }
{
    if let Some(bytes) = image.whole() {
        let copy = bump.try_alloc_slice_copy(bytes)?;
        return Ok(Some(copy));
    }
    let mut found = Vec::with_capacity(bump, image.len() as usize)?;
    for i in 0..image.len() {
        match image.number(i, 1) {
            None => return Ok(None),
            Some(byte) => found.push(byte as u8)?,
        }
    }
    Ok(Some(into_bump_slice(found)))
}
