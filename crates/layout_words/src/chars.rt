//! Names as the rest of a line.
ghost use Rattle.std.specs.Prelude.{◌≡◌, ◌++◌, OnOk, OnErr, IfOk, take, length, ◌∷◌, ◌<◌, ◌≤◌};
ghost use Rattle.std.specs.List.{flat_map, All};
ghost use Rattle.std.specs.Str.{bytes_eq};
ghost use Rattle.layout_words.specs.Spellings.{escape, raw_text, unescaped, byte_of, digit_value, raw_of, rust_name_of, name_of};
ghost use Rattle.layout_words.specs.Steps.{Read};

use crate::cursor::Stop;
use names::{Name, NameErr};
use rust_names::read_rust;
use rv_io::{Buf, Memory, Text};
use std::alloc::Global;

/// The name in Rust's spelling, or its raw text in quotes.
pub fn name_of(alloc: Global, text: &[u8]) -> Result<Name, Stop>
    ensures { Read (name_of text.now) result }
{
    if !text.is_empty() && text[0] == b'"' {
        let bytes = raw_of(alloc, text)?;
        return Ok(Name::Raw(bytes));
    }
    rust_name_of(alloc, text)
}

fn rust_name_of(alloc: Global, text: &[u8]) -> Result<Name, Stop>
    ensures { Read (rust_name_of text.now) result }
{
    match read_rust(alloc, text) {
        Ok(name) => Ok(name),
        Err(NameErr::BadName { .. }) => Err(Stop::Unfit),
        Err(NameErr::Memory) => Err(Stop::Memory),
    }
}

/// The bytes with this raw text.
fn raw_of(alloc: Global, text: &[u8]) -> Result<Text, Stop>
    ensures { Read (raw_of text.now) result }
{
    if text.len() < 2 {
        return Err(Stop::Unfit);
    }
    let mut bytes = Vec::new(alloc);
    unescape(&text[1..text.len() - 1], &mut bytes)?;
    if has_raw_text(alloc, &bytes, text)? {
        Ok(Text::from_vec(bytes))
    } else {
        Err(Stop::Unfit)
    }
}

/// Whether this is the raw text of the bytes.
fn has_raw_text(alloc: Global, bytes: &[u8], text: &[u8]) -> Result<bool, Memory>
    ensures { IfOk result (λ same. same ≡ bytes_eq text.now (raw_text bytes.now)) }
{
    let mut raw = Buf::new(alloc);
    put_raw(bytes, &mut raw)?;
    Ok(text == raw.as_bytes())
}

/// Puts the bytes whose escapes these are, whatever else stands there.
fn unescape(text: &[u8], into: &mut Vec<u8>) -> Result<(), Memory>
    ensures { OnOk result (into.new.items ≡ into.old.items ++ unescaped text.now) }
{
    let mut rest = text;
    while let Some((c, more)) = rest.split_first() {
        let (byte, left) = unescaped_byte(*c, more);
        rest = left;
        into.push(byte)?;
    }
    Ok(())
}

/// The byte that `c` and what follows it begin with, and what is left behind its escape.
fn unescaped_byte(c: u8, more: &[u8]) -> (u8, &[u8])
    ensures first { unescaped (c ∷ more.now) ≡ result.0 ∷ unescaped result.1.now }
    ensures shorter { length result.1.now ≤ length more.now }
{
    if c != b'\\' || more.is_empty() {
        return (c, more);
    }
    if more[0] == b'x' && more.len() > 2 {
        return (byte_of(more[1], more[2]), &more[3..]);
    }
    (more[0], &more[1..])
}

/// The byte with these two hexadecimal digits in lower case.
fn byte_of(high: u8, low: u8) -> u8
    ensures { result ≡ byte_of high low }
{
    ((u32::from(digit_value(high)) * 16 + u32::from(digit_value(low))) % 256) as u8
}

fn digit_value(c: u8) -> u8
    ensures { result ≡ digit_value c }
{
    if c <= b'9' {
        c.saturating_sub(b'0')
    } else {
        c.saturating_sub(87)
    }
}

/// Puts a raw text: the bytes in quotes, escaped.
pub fn put_raw(bytes: &[u8], out: &mut Buf) -> Result<(), Memory>
    ensures put { OnOk result (out.new ≡ out.old ++ raw_text bytes.now) }
    ensures front { OnErr result (take (length out.old) out.new ≡ out.old) }
    ensures bytes { All (λ b. b < 256) bytes.now }
{
    out.put(b"\"")?;
    put_escapes(bytes, out)?;
    out.put(b"\"")
}

fn put_escapes(bytes: &[u8], out: &mut Buf) -> Result<(), Memory>
    ensures put { OnOk result (out.new ≡ out.old ++ flat_map escape bytes.now) }
    ensures front { OnErr result (take (length out.old) out.new ≡ out.old) }
{
    for c in bytes {
        put_escape(*c, out)?;
    }
    Ok(())
}

/// Puts a byte as it stands between the quotes.
fn put_escape(c: u8, out: &mut Buf) -> Result<(), Memory>
    ensures put { OnOk result (out.new ≡ out.old ++ escape c) }
    ensures front { OnErr result (take (length out.old) out.new ≡ out.old) }
{
    match c {
        b'"' | b'\\' => out.put(&[b'\\', c]),
        b' '..=b'~' => out.put(&[c]),
        _ => {
            let digits = hex::encode(out.alloc(), [c].as_slice())?;
            out.put(b"\\x")?;
            out.put(digits.as_bytes())
        }
    }
}
