//! Numbers in registers and in memory.
ghost use Rattle.std.specs.Prelude.{◌≡◌, ◌%◌, ◌^◌, ◌≤◌, length};
ghost use Rattle.std.specs.Option.{option_map};
ghost use Rattle.snapshot_file.specs.Memory.{items_at, number};
ghost use Rattle.expr_eval.specs.Results.{little_endian, register_plus, wrapped};

use snapshot_file::{Mem, Reg, Regs, Snapshot};

/// The little-endian number of the bytes, modulo 2^64.
pub(crate) fn little_endian(bytes: &[u8]) -> u64
    ensures wrapped { result ≡ little_endian bytes.now % 2 ^ 64 }
    ensures whole { length bytes.now ≤ 8 → result ≡ little_endian bytes.now }
{
    let mut number: u64 = 0;
    for i in (0..bytes.len()).rev() {
        number = number.wrapping_mul(256).wrapping_add(u64::from(bytes[i]));
    }
    number
}

/// The number in the register and `n`; None exactly where the register is missing.
pub(crate) fn register_plus(regs: &Regs, reg: Reg, n: i64) -> Option<u64>
    ensures { result ≡ register_plus 8 regs.now reg n }
{
    let Some(bytes) = regs.bytes(reg) else {
        return None;
    };
    Some(little_endian(bytes).wrapping_add(n.cast_unsigned()))
}

/// The number as one on the stack, which it is.
fn taken(number: u64) -> u64
    ensures { result ≡ wrapped 8 number }
{
    number
}

/// The frame's canonical address, if it is there.
pub(crate) fn cfa_of(snap: &Snapshot) -> Option<u64>
    ensures { result ≡ option_map (wrapped 8) snap.now.cfa }
{
    match snap.cfa {
        Some(cfa) => Some(taken(cfa)),
        None => None,
    }
}

/// The little-endian number of the `width` bytes from an address on, modulo 2^64; None exactly where one of them is missing.
pub(crate) fn read_number(mem: &Mem, at: u64, width: u8) -> Option<u64>
    ensures { result ≡ option_map (wrapped 8) (number (items_at mem.now at width)) }
{
    match mem.bytes(at, u64::from(width)) {
        Some(bytes) => Some(little_endian(bytes)),
        None => None,
    }
}
