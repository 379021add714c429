//! The items of functions' lines that are one word.
ghost use Rattle.std.specs.Prelude.{◌≡◌, ◌^◌, ◌≤◌, ◌<◌, pos, Some, None, MatchOption, IfOk, if◌then◌else◌};
ghost use Rattle.std.specs.Str.{bytes_eq};
ghost use Rattle.readers.specs.Lines.{CutAt, Lacks};
ghost use Rattle.layout_words.specs.PlaceSpellings.{frame_of, negative, signed_of, digits_of, digits_text, cut_at, zone_of, register_op, numbered_op, op_of};
ghost use Rattle.layout_words.specs.Steps.{Read, lent};

use crate::cursor::Stop;
use crate::kinds::NumberedOp;
use crate::numbers::{number_of, u8_of, u64_of};
use crate::place_words::{numbered_of, plain_of};
use expr_eval::Op;
use hex::FromHexError;
use layout_set::Zone;
use memchr::memchr;
use readers::read_hex;
use rv_io::{Memory, Text};
use snapshot_file::{Reg, reg_of};
use std::alloc::Global;

/// A register, or `none`.
pub fn frame_of(word: &[u8]) -> Option<Option<Reg>>
    ensures { result ≡ frame_of word.now }
{
    if word == b"none".as_slice() {
        return Some(None);
    }
    let reg = reg_of(word)?;
    Some(Some(reg))
}

/// The negative number of this magnitude, which is at most `most`.
fn negative(most: u128, n: u128) -> Option<i128>
    requires { most ≤ 2 ^ 63 }
    ensures { result ≡ negative most n }
{
    if 0 < n && n <= most {
        Some(-(n as i128))
    } else {
        None
    }
}

/// The number with a sign.
fn positive(n: u128) -> i128
    requires { n < 2 ^ 63 }
    ensures { result ≡ pos n }
{
    n as i128
}

/// The signed number of so many bits and a sign that the word spells.
#[tactic(auto, unfolding(crate::specs::PlaceSpellings::signed_of))]
fn signed_of(word: &[u8], bits: u32) -> Option<i128>
    requires { bits ≤ 63 }
    ensures { result ≡ signed_of bits word.now }
{
    match word.strip_prefix(b"-".as_slice()) {
        Some(digits) => {
            let n = number_of(digits, bits + 1)?;
            negative(1 << bits, n)
        }
        None => {
            let n = number_of(word, bits)?;
            Some(positive(n))
        }
    }
}

pub fn i32_of(word: &[u8]) -> Option<i32>
    ensures { result ≡ signed_of 31 word.now }
{
    let n = signed_of(word, 31)?;
    Some(n as i32)
}

pub fn i64_of(word: &[u8]) -> Option<i64>
    ensures { result ≡ signed_of 63 word.now }
{
    let n = signed_of(word, 63)?;
    Some(n as i64)
}

/// Bytes in pairs of lower-case digits, or `-` for none.
pub fn digits_text(alloc: Global, bytes: &[u8]) -> Result<Text, Memory>
    ensures { IfOk result (λ text. text ≡ digits_text bytes.now) }
{
    if bytes.is_empty() {
        return Text::from_bytes(alloc, b"-");
    }
    let digits = hex::encode(alloc, bytes)?;
    Text::from_bytes(alloc, digits.as_bytes())
}

/// The bytes, if the word is their text.
fn spelled_by(alloc: Global, word: &[u8], bytes: Text) -> Result<Text, Stop>
    ensures { Read (if bytes_eq word.now (digits_text bytes) then Some bytes else None) result }
{
    let text = digits_text(alloc, bytes.as_bytes())?;
    if word == text.as_bytes() {
        Ok(bytes)
    } else {
        Err(Stop::Unfit)
    }
}

/// The bytes with this text.
#[tactic(auto, unfolding(crate::specs::PlaceSpellings::digits_of))]
pub fn digits_of(alloc: Global, word: &[u8]) -> Result<Text, Stop>
    ensures { Read (digits_of word.now) result }
{
    if word == b"-".as_slice() {
        return Ok(Text::from_vec(Vec::new(alloc)));
    }
    match hex::decode(alloc, word) {
        Ok(bytes) => spelled_by(alloc, word, Text::from_vec(bytes)),
        Err(FromHexError::OutOfMemory) => Err(Stop::Memory),
        Err(_) => Err(Stop::Unfit),
    }
}

/// What stands before the first separator, and what follows it; None exactly where there is none.
fn parts_at(separator: u8, text: &[u8]) -> Option<(&[u8], &[u8])>
    ensures { MatchOption result (Lacks separator text.now) (λ p. CutAt separator text.now p.0.now p.1.now) }
{
    let at = memchr(separator, text)?;
    let (front, back) = text.split_at(at);
    Some((front, &back[1..]))
}

/// What stands before the first separator, and what follows it.
pub fn cut_at(separator: u8, text: &[u8]) -> (&[u8], Option<&[u8]>)
    ensures front { result.0.now ≡ (cut_at separator text.now).0 }
    ensures behind { lent result.1 ≡ (cut_at separator text.now).1 }
{
    match parts_at(separator, text) {
        Some((front, behind)) => (front, Some(behind)),
        None => (text, None),
    }
}

/// Two addresses with two dots between them.
#[tactic(auto, unfolding(crate::specs::PlaceSpellings::zone_of))]
pub fn zone_of(word: &[u8]) -> Option<Zone>
    ensures { result ≡ zone_of word.now }
{
    let (lo, behind) = cut_at(b'.', word);
    let lo = read_hex(lo)?;
    let hi = behind?.strip_prefix(b".".as_slice())?;
    let hi = read_hex(hi)?;
    Some(Zone { lo, hi })
}

/// The sum of a register and a number, by the register's name, a colon and the number.
fn register_op(text: &[u8]) -> Option<Op>
    ensures { result ≡ register_op (cut_at 58 text.now) }
{
    let (name, number) = cut_at(b':', text);
    let number = number?;
    let reg = reg_of(name)?;
    let n = i64_of(number)?;
    Some(Op::RegPlus(reg, n))
}

/// The operation of such a kind with this text behind the colon.
pub fn numbered_op(kind: NumberedOp, text: &[u8]) -> Option<Op>
    ensures { result ≡ numbered_op kind text.now }
{
    match kind {
        NumberedOp::Const => {
            let n = u64_of(text)?;
            Some(Op::Const(n))
        }
        NumberedOp::Deref => {
            let n = u8_of(text)?;
            Some(Op::Deref(n))
        }
        NumberedOp::Pick => {
            let n = u8_of(text)?;
            Some(Op::Pick(n))
        }
        NumberedOp::Plus => {
            let n = u64_of(text)?;
            Some(Op::PlusConst(n))
        }
        NumberedOp::Reg => register_op(text),
    }
}

/// An operation: its word, or a word, a colon and a number.
#[tactic(auto, unfolding(crate::specs::PlaceSpellings::op_of))]
pub(crate) fn op_of(word: &[u8]) -> Option<Op>
    ensures { result ≡ op_of word.now }
{
    let (name, number) = cut_at(b':', word);
    match number {
        None => plain_of(name),
        Some(text) => {
            let kind = numbered_of(name)?;
            numbered_op(kind, text)
        }
    }
}
