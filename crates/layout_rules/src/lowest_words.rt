//! Which rule the words of a line break at their places.
ghost use Rattle.std.specs.Prelude.{◌≡◌, ◌<◌, IfOk, IfSome, Some, length, drop, if◌then◌else◌};
ghost use Rattle.layout_rules.specs.LineRules.{unless, not_next, broken, lower, lowest_of, broken_sum, broken_number, broken_op, broken_zone, broken_operations};
ghost use Rattle.layout_words.specs.Forms.{cut, words};
ghost use Rattle.layout_words.specs.Kinds.{primitive_of};
ghost use Rattle.layout_words.specs.PlaceSpellings.{cut_at, digits_of};
ghost use Rattle.layout_words.specs.Spellings.{begins_with, number_of, word_of, name_of};
ghost use Rattle.layout_words.specs.Steps.{lent};

use layout_words::{
    NumberedOp, Slot, Stop, Words, address_of, cut_at, digits_of, frame_of, i32_of, i64_of,
    name_of, number_of, numbered_of, numbered_op, plain_of, pointer_of, primitive_of, u32_of,
    word_of, zone_of,
};
use readers::{cut_word, read_hex};
use rv_io::Memory;
use snapshot_file::reg_of;
use std::alloc::Global;

/// The first word, and what is left.
pub(crate) fn cut(line: &[u8]) -> (&[u8], Option<&[u8]>)
    ensures first { result.0.now ≡ (cut line.now).0 }
    ensures left { lent result.1 ≡ (cut line.now).1 }
    ensures less { IfSome result.1 (λ more. length more.now < length line.now) }
{
    cut_word(line)
}

/// The lower of two rules.
pub(crate) fn lower(a: Option<u8>, b: Option<u8>) -> Option<u8>
    ensures { result ≡ lower a b }
{
    match (a, b) {
        (None, b) => b,
        (Some(a), None) => Some(a),
        (Some(a), Some(b)) => Some(if a < b { a } else { b }),
    }
}

/// The rule that a word breaks at such a place, if it breaks one.
pub(crate) fn broken(
    alloc: Global,
    next: usize,
    place: Slot,
    text: &[u8],
) -> Result<Option<u8>, Memory>
    ensures { IfOk result (λ r. r ≡ broken next place text.now) }
{
    match place {
        Slot::Version => Ok(if text == b"1".as_slice() {
            None
        } else {
            Some(4)
        }),
        Slot::Next => Ok(not_next(next, u32_of(text))),
        Slot::Number(bits) => Ok(unless(4, number_of(text, bits.min(128)))),
        Slot::Address => Ok(unless(4, address_of(text))),
        Slot::Reference => Ok(broken_reference(text)),
        Slot::Pointer => Ok(unless(7, pointer_of(text))),
        Slot::Primitive => Ok(unless(7, primitive_of(text))),
        Slot::Kind => Ok(None),
        Slot::Word => broken_word(alloc, text),
        Slot::Name => broken_name(alloc, text),
        Slot::Frame => Ok(unless(7, frame_of(text))),
        Slot::Register => Ok(unless(7, reg_of(text))),
        Slot::Signed => Ok(unless(4, i32_of(text))),
        Slot::Hex => Ok(unless(4, read_hex(text))),
        Slot::Digits => broken_digits(alloc, text),
        Slot::Zones => Ok(broken_zones(text)),
        Slot::Operations => broken_operations(alloc, text),
    }
}

/// The rule, where there is no such item.
fn unless<T: Drop>(rule: u8, item: Option<T>) -> Option<u8>
    ensures { result ≡ unless rule item }
{
    match item {
        Some(_) => None,
        None => Some(rule),
    }
}

/// The rule that a number of a type breaks, where `next` is the number of the next one.
fn not_next(next: usize, number: Option<u32>) -> Option<u8>
    ensures { result ≡ not_next next number }
{
    match number {
        None => Some(4),
        Some(n) => { if n as usize == next { None } else { Some(5) } }
    }
}

fn broken_reference(text: &[u8]) -> Option<u8>
    ensures { result ≡ if begins_with 35 text.now then unless 4 (number_of 32 (drop 1 text.now)) else unless 7 (primitive_of text.now) }
{
    match text.strip_prefix(b"#".as_slice()) {
        Some(digits) => unless(4, u32_of(digits)),
        None => unless(7, primitive_of(text)),
    }
}

fn broken_word(alloc: Global, text: &[u8]) -> Result<Option<u8>, Memory>
    ensures { IfOk result (λ r. r ≡ unless 6 (word_of text.now)) }
{
    match word_of(alloc, text) {
        Ok(_) => Ok(None),
        Err(Stop::Unfit) => Ok(Some(6)),
        Err(Stop::Memory) => Err(Memory),
    }
}

fn broken_name(alloc: Global, text: &[u8]) -> Result<Option<u8>, Memory>
    ensures { IfOk result (λ r. r ≡ unless 6 (name_of text.now)) }
{
    match name_of(alloc, text) {
        Ok(_) => Ok(None),
        Err(Stop::Unfit) => Ok(Some(6)),
        Err(Stop::Memory) => Err(Memory),
    }
}

fn broken_digits(alloc: Global, text: &[u8]) -> Result<Option<u8>, Memory>
    ensures { IfOk result (λ r. r ≡ unless 7 (digits_of text.now)) }
{
    match digits_of(alloc, text) {
        Ok(_) => Ok(None),
        Err(Stop::Unfit) => Ok(Some(7)),
        Err(Stop::Memory) => Err(Memory),
    }
}

/// The lowest rule that one of the zones breaks, of which each is a word.
fn broken_zones(line: &[u8]) -> Option<u8>
    ensures { result ≡ lowest_of broken_zone (words line.now) }
{
    let mut lowest = None;
    let mut left = Some(line);
    while let Some(line) = left {
        let (word, more) = cut(line);
        lowest = lower(lowest, unless(4, zone_of(word)));
        left = more;
    }
    lowest
}

/// The lowest rule that operations break, of which each is a word: each alone, and all together.
fn broken_operations(alloc: Global, line: &[u8]) -> Result<Option<u8>, Memory>
    ensures { IfOk result (λ r. r ≡ broken_operations line.now) }
{
    let each = broken_each(line);
    match Words::new(line).operations(alloc) {
        Ok(_) => Ok(lower(each, None)),
        Err(Stop::Unfit) => Ok(lower(each, Some(7))),
        Err(Stop::Memory) => Err(Memory),
    }
}

/// The lowest rule that one of the operations breaks by itself.
fn broken_each(line: &[u8]) -> Option<u8>
    ensures { result ≡ lowest_of broken_op (words line.now) }
{
    let mut lowest = None;
    let mut left = Some(line);
    while let Some(line) = left {
        let (word, more) = cut(line);
        lowest = lower(lowest, broken_op(word));
        left = more;
    }
    lowest
}

/// The rule that an operation breaks by itself.
fn broken_op(text: &[u8]) -> Option<u8>
    ensures { result ≡ broken_op text.now }
{
    let (word, number) = cut_at(b':', text);
    match number {
        None => unless(7, plain_of(word)),
        Some(number) => match numbered_of(word) {
            None => Some(7),
            Some(kind) => broken_number(kind, number),
        },
    }
}

/// The rule that the number of an operation breaks.
fn broken_number(kind: NumberedOp, text: &[u8]) -> Option<u8>
    ensures { result ≡ broken_number text.now (Some kind) }
{
    match kind {
        NumberedOp::Reg => broken_sum(text),
        NumberedOp::Const | NumberedOp::Deref | NumberedOp::Pick | NumberedOp::Plus => {
            unless(4, numbered_op(kind, text))
        }
    }
}

/// The rule that the sum of a register and a number breaks: the register's name, a colon and the number.
fn broken_sum(text: &[u8]) -> Option<u8>
    ensures { result ≡ broken_sum (cut_at 58 text.now) }
{
    let (name, number) = cut_at(b':', text);
    match number {
        None => Some(7),
        Some(number) => lower(unless(7, reg_of(name)), unless(4, i64_of(number))),
    }
}
