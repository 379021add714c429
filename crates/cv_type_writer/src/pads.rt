//! Pads, which bring type records and members to a multiple of 4.
ghost use Rattle.std.specs.Prelude.{◌≡◌, ◌++◌, OnOk};
ghost use Rattle.cv_parts.specs.Puts.{pads, pad_size};

use rv_io::{Buf, Memory};

/// Appends the pad that brings so many bytes to a multiple of 4: each byte is f0 and the count of bytes from it on.
pub(crate) fn put_pads(out: &mut Buf, size: usize) -> Result<(), Memory>
    ensures { OnOk result (out.new ≡ out.old ++ pads (pad_size size)) }
{
    let count = (4 - size % 4) % 4;
    out.put(&[0xf3, 0xf2, 0xf1][3 - count..])
}
