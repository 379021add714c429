//! Snapshot files, line by line.
ghost use Rattle.std.specs.Prelude.{◌≡◌, ◌<◌, ◌^◌, ◌*◌, true, IfOk};
ghost use Rattle.std.specs.Option.{option_copied, option_map};
ghost use Rattle.hex.specs.Hex.{decode_of};
ghost use Rattle.readers.specs.Lines.{only, two};
ghost use Rattle.snapshot_file.specs.Reading.{Gives, GivesBy, behind, pairs, finish, step, version_line, number_of_line, pc_line, cfa_line, value_of_line, fits, is_above, after_register, register_line, memory_line, segment_line, last_line, later_line, third_line, snapshot_of};
ghost use Rattle.snapshot_file.specs.Registers.{width_of};

use crate::fault::SnapErr;
use crate::mem::Mem;
use crate::registers::{Reg, reg_of};
use crate::regs::Regs;
use hex::FromHexError;
use readers::{
    cut_line, cut_word, is_hex_word, is_text, one_word, read_hex, read_wide_hex, two_words,
};
use std::alloc::Global;

/// The place where a paused program stands, its registers and its memory.
#[derive(Debug, Drop)]
pub struct Snapshot {
    pub pc: u64,
    pub cfa: Option<u64>,
    pub regs: Regs,
    pub mem: Mem,
}

/// Which line was the last.
#[derive(Clone, Copy, Debug, PartialEq, Eq)]
enum Stage {
    Nothing,
    Version,
    Pc,
    Cfa,
    Register(Reg),
    Memory,
}

/// What the lines so far say, and the number of the next.
#[derive(Debug, Drop)]
struct Reading {
    stage: Stage,
    line: u32,
    snapshot: Snapshot,
}

/// The word after the first, if there is just one.
fn only_word(rest: Option<&[u8]>) -> Option<&[u8]>
    ensures { option_copied result ≡ only (behind (option_copied rest.entry)) }
{
    match rest {
        Some(rest) => one_word(rest),
        None => None,
    }
}

/// The two words after the first, if there are just two.
fn both_words(rest: Option<&[u8]>) -> Option<(&[u8], &[u8])>
    ensures { option_map (λ p. (p.0.now, p.1.now)) result ≡ two (behind (option_copied rest.entry)) }
{
    match rest {
        Some(rest) => two_words(rest),
        None => None,
    }
}

fn read_version(reading: Reading, first: &[u8], rest: Option<&[u8]>) -> Result<Reading, SnapErr>
    ensures { Gives result (version_line reading first.now (behind (option_copied rest.entry))) }
{
    let line = reading.line;
    if first != b"rdbg-snapshot".as_slice() {
        return Err(SnapErr::BadLine { line, rule: 2 });
    }
    let Some(version) = only_word(rest) else {
        return Err(SnapErr::BadLine { line, rule: 3 });
    };
    if version != b"1".as_slice() {
        return Err(SnapErr::BadLine { line, rule: 4 });
    }
    Ok(Reading {
        stage: Stage::Version,
        line: line.saturating_add(1),
        ..reading
    })
}

/// The number after the first word.
fn read_number(line: u32, rest: Option<&[u8]>) -> Result<u64, SnapErr>
    ensures { Gives result (number_of_line line (behind (option_copied rest.entry))) }
{
    let Some(word) = only_word(rest) else {
        return Err(SnapErr::BadLine { line, rule: 3 });
    };
    let Some(n) = read_hex(word) else {
        return Err(SnapErr::BadLine { line, rule: 4 });
    };
    Ok(n)
}

fn read_pc(reading: Reading, first: &[u8], rest: Option<&[u8]>) -> Result<Reading, SnapErr>
    ensures { Gives result (pc_line reading first.now (behind (option_copied rest.entry))) }
{
    let line = reading.line;
    if first != b"pc".as_slice() {
        return Err(SnapErr::BadLine { line, rule: 2 });
    }
    let pc = read_number(line, rest)?;
    Ok(Reading {
        stage: Stage::Pc,
        line: line.saturating_add(1),
        snapshot: Snapshot {
            pc,
            ..reading.snapshot
        },
    })
}

fn read_cfa(reading: Reading, rest: Option<&[u8]>) -> Result<Reading, SnapErr>
    ensures { Gives result (cfa_line reading (behind (option_copied rest.entry))) }
{
    let line = reading.line;
    let cfa = read_number(line, rest)?;
    Ok(Reading {
        stage: Stage::Cfa,
        line: line.saturating_add(1),
        snapshot: Snapshot {
            cfa: Some(cfa),
            ..reading.snapshot
        },
    })
}

/// The register that the word names, and the number that fits it.
fn read_value(line: u32, name: &[u8], word: &[u8]) -> Result<(Reg, u128), SnapErr>
    ensures value { Gives result (value_of_line line name.now word.now) }
    ensures fits { IfOk result (λ v. v.1 < 2 ^ (8 * width_of v.0)) }
{
    let Some(reg) = reg_of(name) else {
        let rule = if is_hex_word(word) { 5 } else { 4 };
        return Err(SnapErr::BadLine { line, rule });
    };
    match read_wide_hex(word) {
        Some(n) if fits(reg, n) => Ok((reg, n)),
        _ => Err(SnapErr::BadLine { line, rule: 4 }),
    }
}

/// Whether the number is no wider than the register.
fn fits(reg: Reg, n: u128) -> bool
    ensures value { result ≡ fits reg n }
    ensures fits { result ≡ true → n < 2 ^ (8 * width_of reg) }
{
    reg.width() == 16 || n < 1 << 64
}

/// Whether the register stands above that of the line before.
fn is_above(stage: Stage, reg: Reg) -> bool
    ensures { result ≡ is_above stage reg }
{
    match stage {
        Stage::Register(last) => last.number() < reg.number(),
        _ => true,
    }
}

fn read_register(reading: Reading, rest: Option<&[u8]>) -> Result<Reading, SnapErr>
    ensures { Gives result (register_line reading (behind (option_copied rest.entry))) }
{
    let line = reading.line;
    let Some((name, word)) = both_words(rest) else {
        return Err(SnapErr::BadLine { line, rule: 3 });
    };
    let (reg, n) = read_value(line, name, word)?;
    if !is_above(reading.stage, reg) {
        return Err(SnapErr::BadLine { line, rule: 5 });
    }
    Ok(with_register(reading, reg, n))
}

fn with_register(reading: Reading, reg: Reg, n: u128) -> Reading
    requires { n < 2 ^ (8 * width_of reg) }
    ensures { result ≡ after_register reading reg n }
{
    let Snapshot {
        pc,
        cfa,
        mut regs,
        mem,
    } = reading.snapshot;
    regs.set(reg, n);
    Reading {
        stage: Stage::Register(reg),
        line: reading.line.saturating_add(1),
        snapshot: Snapshot { pc, cfa, regs, mem },
    }
}

fn read_memory(alloc: Global, reading: Reading, rest: Option<&[u8]>) -> Result<Reading, SnapErr>
    ensures { Gives result (memory_line reading (behind (option_copied rest.entry))) }
{
    let line = reading.line;
    let Some((at, digits)) = both_words(rest) else {
        return Err(SnapErr::BadLine { line, rule: 3 });
    };
    let Some(at) = read_hex(at) else {
        return Err(SnapErr::BadLine { line, rule: 4 });
    };
    let bytes = read_pairs(alloc, line, digits)?;
    add_segment(reading, at, bytes.as_slice())
}

/// The bytes of one or more pairs of digits.
fn read_pairs(alloc: Global, line: u32, digits: &[u8]) -> Result<Vec<u8>, SnapErr>
    ensures { GivesBy (λ v. v.items) result (pairs line (decode_of digits.now)) }
{
    match hex::decode(alloc, digits) {
        Ok(bytes) if !bytes.is_empty() => Ok(bytes),
        Err(FromHexError::OutOfMemory) => Err(SnapErr::Memory),
        _ => Err(SnapErr::BadLine { line, rule: 6 }),
    }
}

fn add_segment(reading: Reading, at: u64, bytes: &[u8]) -> Result<Reading, SnapErr>
    ensures { Gives result (segment_line reading at bytes.now) }
{
    let line = reading.line;
    if u128::from(at) + bytes.len() as u128 > 1 << 64 {
        return Err(SnapErr::BadLine { line, rule: 7 });
    }
    let Snapshot {
        pc,
        cfa,
        regs,
        mut mem,
    } = reading.snapshot;
    if u128::from(at) < mem.end() {
        return Err(SnapErr::Overlap { line });
    }
    mem.add(at, bytes)?;
    Ok(Reading {
        stage: Stage::Memory,
        line: line.saturating_add(1),
        snapshot: Snapshot { pc, cfa, regs, mem },
    })
}

/// A line that may be of memory.
fn read_last(
    alloc: Global,
    reading: Reading,
    first: &[u8],
    rest: Option<&[u8]>,
) -> Result<Reading, SnapErr>
    ensures { Gives result (last_line reading first.now (behind (option_copied rest.entry))) }
{
    if first == b"mem".as_slice() {
        read_memory(alloc, reading, rest)
    } else {
        Err(SnapErr::BadLine {
            line: reading.line,
            rule: 2,
        })
    }
}

/// A line that may be of a register or of memory.
fn read_later(
    alloc: Global,
    reading: Reading,
    first: &[u8],
    rest: Option<&[u8]>,
) -> Result<Reading, SnapErr>
    ensures { Gives result (later_line reading first.now (behind (option_copied rest.entry))) }
{
    if first == b"reg".as_slice() {
        read_register(reading, rest)
    } else {
        read_last(alloc, reading, first, rest)
    }
}

/// A line after that of `pc`.
fn read_third(
    alloc: Global,
    reading: Reading,
    first: &[u8],
    rest: Option<&[u8]>,
) -> Result<Reading, SnapErr>
    ensures { Gives result (third_line reading first.now (behind (option_copied rest.entry))) }
{
    if first == b"cfa".as_slice() {
        read_cfa(reading, rest)
    } else {
        read_later(alloc, reading, first, rest)
    }
}

#[tactic(auto, unfolding(crate::specs::Reading::step))]
fn read_line(alloc: Global, reading: Reading, line: &[u8]) -> Result<Reading, SnapErr>
    ensures { Gives result (step reading line.now) }
{
    if !is_text(line) {
        return Err(SnapErr::BadLine {
            line: reading.line,
            rule: 1,
        });
    }
    let (first, rest) = cut_word(line);
    match reading.stage {
        Stage::Nothing => read_version(reading, first, rest),
        Stage::Version => read_pc(reading, first, rest),
        Stage::Pc => read_third(alloc, reading, first, rest),
        Stage::Cfa => read_later(alloc, reading, first, rest),
        Stage::Register(_) => read_later(alloc, reading, first, rest),
        Stage::Memory => read_last(alloc, reading, first, rest),
    }
}

/// The end of the file, where `rest` is what follows the last LF.
fn finish(reading: Reading, rest: &[u8]) -> Result<Snapshot, SnapErr>
    ensures { Gives result (finish reading rest.now) }
{
    let line = reading.line;
    if !rest.is_empty() {
        return Err(SnapErr::BadLine { line, rule: 1 });
    }
    match reading.stage {
        Stage::Nothing => Err(SnapErr::BadLine { line, rule: 2 }),
        Stage::Version => Err(SnapErr::BadLine { line, rule: 2 }),
        _ => Ok(reading.snapshot),
    }
}

/// The snapshot that the file spells, or its first fault.
pub(crate) fn read_snapshot(alloc: Global, bytes: &[u8]) -> Result<Snapshot, SnapErr>
    ensures { Gives result (snapshot_of bytes.now) }
{
    let mut reading = Reading {
        stage: Stage::Nothing,
        line: 1,
        snapshot: Snapshot {
            pc: 0,
            cfa: None,
            regs: Regs::new(),
            mem: Mem::new(alloc),
        },
    };
    let mut rest = bytes;
    while let Some((line, more)) = cut_line(rest) {
        reading = read_line(alloc, reading, line)?;
        rest = more;
    }
    finish(reading, rest)
}
