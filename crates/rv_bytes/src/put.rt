//! Numbers of a fixed size are appended, the lowest byte first.
ghost use Rattle.std.specs.Prelude.{◌≡◌, ◌++◌, OnOk, OnErr};
ghost use Rattle.byteorder.specs.Endian.{little_bytes};

use rv_io::{Buf, Memory};

/// Appends a number of one byte. Out of memory, the buffer is as it was.
pub fn put_u8(out: &mut Buf, n: u8) -> Result<(), Memory>
    ensures appended { OnOk result (out.new ≡ out.old ++ little_bytes 1 n) }
    ensures same { OnErr result (out.new ≡ out.old) }
{
    out.put(&n.to_le_bytes())
}

/// Appends a number of two bytes, the lowest first. Out of memory, the buffer is as it was.
pub fn put_u16(out: &mut Buf, n: u16) -> Result<(), Memory>
    ensures appended { OnOk result (out.new ≡ out.old ++ little_bytes 2 n) }
    ensures same { OnErr result (out.new ≡ out.old) }
{
    out.put(&n.to_le_bytes())
}

/// Appends a number of four bytes, the lowest first. Out of memory, the buffer is as it was.
pub fn put_u32(out: &mut Buf, n: u32) -> Result<(), Memory>
    ensures appended { OnOk result (out.new ≡ out.old ++ little_bytes 4 n) }
    ensures same { OnErr result (out.new ≡ out.old) }
{
    out.put(&n.to_le_bytes())
}

/// Appends a number of eight bytes, the lowest first. Out of memory, the buffer is as it was.
pub fn put_u64(out: &mut Buf, n: u64) -> Result<(), Memory>
    ensures appended { OnOk result (out.new ≡ out.old ++ little_bytes 8 n) }
    ensures same { OnErr result (out.new ≡ out.old) }
{
    out.put(&n.to_le_bytes())
}

/// Appends a number of 16 bytes, the lowest first. Out of memory, the buffer is as it was.
pub fn put_u128(out: &mut Buf, n: u128) -> Result<(), Memory>
    ensures appended { OnOk result (out.new ≡ out.old ++ little_bytes 16 n) }
    ensures same { OnErr result (out.new ≡ out.old) }
{
    out.put(&n.to_le_bytes())
}
