//! LEB128 numbers are appended in their shortest form (DWARF 5, 7.6).
ghost use Rattle.std.specs.Prelude.{◌≡◌, ◌≤◌, ◌<◌, ◌+◌, ◌*◌, ◌^◌, ◌++◌, length, take, OnOk, OnErr};
ghost use Rattle.rv_bytes.specs.Numbers.{uleb, sleb};
ghost use Rattle.rv_bytes.specs.Writers.{AppendsShortest, groups_bytes, IsGroupCount, without_sign, in_groups};

use rv_io::{Buf, Memory};

/// Appends an unsigned LEB128 number in as few bytes as there can be (DWARF 5, 7.6).
///
/// Out of memory, the buffer is as it was.
pub fn put_uleb(out: &mut Buf, n: u64) -> Result<(), Memory>
    ensures appended { OnOk result (AppendsShortest uleb n out.old out.new) }
    ensures same { OnErr result (out.new ≡ out.old) }
{
    put_groups(out, u128::from(n), group_count(n) - 1)
}

/// Appends a signed LEB128 number in as few bytes as there can be (DWARF 5, 7.6).
///
/// Out of memory, the buffer is as it was.
pub fn put_sleb(out: &mut Buf, n: i64) -> Result<(), Memory>
    ensures appended { OnOk result (AppendsShortest sleb n out.old out.new) }
    ensures same { OnErr result (out.new ≡ out.old) }
{
    let bits = without_sign(n);
    let count = group_count(2 * bits);
    put_groups(out, in_groups(n, bits, count), count - 1)
}

/// The number, or -1 less the number where it is negative.
fn without_sign(n: i64) -> u64
    ensures value { result ≡ without_sign n }
    ensures fits { result < 2 ^ 63 }
{
    if n >= 0 { n as u64 } else { (-1 - n) as u64 }
}

/// The two's complement of the number in `count` groups of seven bits; `bits` are the number, or -1
/// less the number.
fn in_groups(n: i64, bits: u64, count: usize) -> u128
    requires bits { bits ≡ without_sign n }
    requires count { count ≤ 10 }
    requires fits { 2 * bits < 128 ^ count }
    ensures { result ≡ in_groups count n }
{
    if n < 0 {
        (1u128 << (7 * count)) - 1 - u128::from(bits)
    } else {
        u128::from(bits)
    }
}

/// How many groups of seven bits the number has, at least one.
fn group_count(n: u64) -> usize
    ensures { IsGroupCount n result }
{
    if n < 128 { 1 } else { 1 + group_count(n / 128) }
}

/// Appends `more` groups and one, the lowest first. Out of memory, the buffer is as it was.
fn put_groups(out: &mut Buf, n: u128, more: usize) -> Result<(), Memory>
    requires count { more < 10 }
    requires fits { n < 128 ^ (more + 1) }
    ensures appended { OnOk result (out.new ≡ out.old ++ groups_bytes more n) }
    ensures same { OnErr result (out.new ≡ out.old) }
{
    let mut bytes = [0; 10];
    fill(&mut bytes, n, more);
    out.put(&bytes[..more + 1])
}

/// Writes `more` groups and one over the front of the bytes, the lowest first.
fn fill(bytes: &mut [u8], n: u128, more: usize)
    requires room { more < length bytes.old }
    requires fits { n < 128 ^ (more + 1) }
    ensures { take (more + 1) bytes.new ≡ groups_bytes more n }
{
    if more == 0 {
        bytes[0] = n as u8;
    } else {
        bytes[0] = 128 + (n % 128) as u8;
        fill(&mut bytes[1..], n / 128, more - 1);
    }
}
