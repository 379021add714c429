//! Numeric leaves of CodeView are appended in the first form that holds the number.
ghost use Rattle.std.specs.Prelude.{◌≡◌, ◌≤◌, ◌≤ℤ◌, ◌<ℤ◌, pos, negsuc, ◌^◌, ◌-◌, ◌++◌, Some, OnOk, OnErr};
ghost use Rattle.rv_bytes.specs.Leaves.{numeric, numeric_bytes, narrowest, word_of};
ghost use Rattle.byteorder.specs.Endian.{little_bytes};
ghost use Rattle.rv_bytes.specs.Writers.{SpellsEverywhere};

use crate::numeric::{
    LF_CHAR, LF_LONG, LF_QUADWORD, LF_SHORT, LF_ULONG, LF_UQUADWORD, LF_USHORT, Leaf,
};
use crate::put::put_u16;
use byteorder::{ByteOrder, LittleEndian};
use rv_io::{Buf, Memory};

/// Appends a numeric leaf of CodeView (LF_NUMERIC), in the first form that holds the number: the
/// kind alone below 0x8000, the narrowest of LF_CHAR, LF_SHORT, LF_LONG and LF_QUADWORD below 0,
/// and else of LF_USHORT, LF_ULONG and LF_UQUADWORD.
///
/// Out of memory, the buffer is as it was.
pub fn put_numeric(out: &mut Buf, n: i128) -> Result<(), Memory>
    requires low { negsuc (2 ^ 63 - 1) ≤ℤ n }
    requires high { n <ℤ pos (2 ^ 64) }

    // What is appended is the first form, and spells the number.
    ensures appended { OnOk result (out.new ≡ out.old ++ numeric_bytes n) }
    ensures spells { SpellsEverywhere numeric n (numeric_bytes n) }

    ensures same { OnErr result (out.new ≡ out.old) }
{
    if 0 <= n && n < 0x8000 {
        put_u16(out, n as u16)
    } else {
        put_leaf(out, narrowest(n), word_of(n))
    }
}

/// The narrowest leaf that holds the number.
fn narrowest(n: i128) -> Leaf
    requires low { negsuc (2 ^ 63 - 1) ≤ℤ n }
    requires high { n <ℤ pos (2 ^ 64) }
    ensures { narrowest n ≡ Some result }
{
    if n < -0x8000_0000 {
        LF_QUADWORD
    } else if n < -0x8000 {
        LF_LONG
    } else if n < -0x80 {
        LF_SHORT
    } else if n < 0 {
        LF_CHAR
    } else if n < 0x1_0000 {
        LF_USHORT
    } else if n < 0x1_0000_0000 {
        LF_ULONG
    } else {
        LF_UQUADWORD
    }
}

/// The number's two's complement in 64 bits.
fn word_of(n: i128) -> u64
    requires low { negsuc (2 ^ 63 - 1) ≤ℤ n }
    requires high { n <ℤ pos (2 ^ 64) }
    ensures { result ≡ word_of n }
{
    if n < 0 {
        (n + (1 << 64)) as u64
    } else {
        n as u64
    }
}

/// Appends a leaf's kind, and so many of the lowest bytes of the word. Out of memory, the
/// buffer is as it was.
fn put_leaf(out: &mut Buf, leaf: Leaf, word: u64) -> Result<(), Memory>
    requires { leaf.width ≤ 8 }
    ensures appended { OnOk result (out.new ≡ out.old ++ (little_bytes 2 leaf.kind ++ little_bytes leaf.width word)) }
    ensures same { OnErr result (out.new ≡ out.old) }
{
    let mut bytes = [0; 10];
    LittleEndian::write_u16(&mut bytes, leaf.kind);
    LittleEndian::write_u64(&mut bytes[2..], word);
    out.put(&bytes[..2 + usize::from(leaf.width)])
}
