//! The text of values in an arena. After a refusal of a private call what stood before stays in front.
ghost use Rattle.std.specs.Prelude.{◌≡◌, ◌<◌, ◌+◌, ◌&&◌, ◌++◌, OnOk, OnErr, IsTrue, codes, length, take, drop, map, Some};
ghost use Rattle.hex.specs.Hex.{encode_lower};
ghost use Rattle.names.specs.Joined.{joined};
ghost use Rattle.rust_value.specs.Held.{value_of, part_of, led};
ghost use Rattle.rust_value.specs.Texts.{text_of, shown_part, fields_text, payload_text, parts_text, are_numbered, named_text, seq_text, content_text, quoted_content};
ghost use Rattle.rust_value.specs.Utf8.{has_texts, part_has_texts, all_true, is_text};

use crate::held::{PartIn, ValIn};
use crate::pointers::{put_counted, put_dyn, put_thin};
use crate::printing::{is_number_name, put_comma, put_more};
use crate::scalars::{put_bool, put_char, put_float32, put_float64, put_hex, put_quoted};
use rv_io::{Buf, Memory};

/// Appends the text of the value that one in an arena stands for, each of whose texts is UTF-8.
pub fn text_in(val: &ValIn<'_>, out: &mut Buf) -> Result<(), Memory>
    requires { IsTrue (has_texts (value_of val.now)) }
    ensures appended { OnOk result (out.new ≡ out.old ++ text_of (value_of val.now)) }
    ensures same { OnErr result (out.new ≡ out.old) }
{
    let len = out.as_bytes().len();
    let done = put_value(val, out);
    if done.is_err() {
        out.truncate(len);
    }
    done
}

/// Appends the text of a value.
#[cycle(printing)]
#[tactic(auto, using(std::proofs::lemmas::Grind::common_steps, crate::proofs::HeldTexts::held_texts))]
fn put_value(val: &ValIn<'_>, out: &mut Buf) -> Result<(), Memory>
    requires { IsTrue (has_texts (value_of val.now)) }
    ensures appended { OnOk result (out.new ≡ out.old ++ text_of (value_of val.now)) }
    ensures front { OnErr result (take (length out.old) out.new ≡ out.old) }
{
    match *val {
        ValIn::Unit => out.put(b"()"),
        ValIn::Bool(b) => put_bool(b, out),
        ValIn::Char(c) => put_char(c, out),
        ValIn::Unsigned(n) => out.put_decimal(n),
        ValIn::Signed(n) => out.put_signed(n),
        ValIn::Float32(bits) => put_float32(bits, out),
        ValIn::Float64(bits) => put_float64(bits, out),
        ValIn::Fields(parts) => put_fields(parts, out),
        ValIn::Variant(name, parts) => {
            out.put(name)?;
            put_payload(parts, out)
        }
        ValIn::Seq(len, shown) => put_seq(len, shown, out),
        ValIn::Pointer(kind, at, to) => {
            put_thin(kind, at, out)?;
            match to {
                None => Ok(()),
                Some(to) => put_content(to, out),
            }
        }
        ValIn::Slice(kind, at, len, to) => {
            put_counted(kind, b"", at, len, out)?;
            match to {
                None => Ok(()),
                Some(to) => put_content(to, out),
            }
        }
        ValIn::Str(kind, at, len, text) => {
            put_counted(kind, b"str", at, len, out)?;
            put_text(text, out)
        }
        ValIn::Dyn(kind, at, vtable) => put_dyn(kind, at, vtable, out),
        ValIn::Function(at) => {
            out.put(b"fn ")?;
            out.put_hex(at)
        }
        ValIn::Bytes(bytes) => put_bytes(bytes, out),
    }
}

/// Bytes, each in two hexadecimal digits.
fn put_bytes(bytes: &[u8], out: &mut Buf) -> Result<(), Memory>
    ensures appended { OnOk result (out.new ≡ out.old ++ (codes "bytes " ++ encode_lower bytes.now)) }
    ensures front { OnErr result (take (length out.old) out.new ≡ out.old) }
{
    out.put(b"bytes ")?;
    put_hex(bytes, out)
}

/// What a struct holds.
#[cycle(printing)]
fn put_fields(parts: &[PartIn<'_>], out: &mut Buf) -> Result<(), Memory>
    requires { IsTrue (all_true (map part_has_texts (map part_of parts.now))) }
    ensures appended { OnOk result (out.new ≡ out.old ++ fields_text (map shown_part (map part_of parts.now))) }
    ensures front { OnErr result (take (length out.old) out.new ≡ out.old) }
{
    if parts.is_empty() {
        return out.put(b"{}");
    }
    put_parts(parts, out)
}

/// What a variant holds.
#[cycle(printing)]
fn put_payload(parts: &[PartIn<'_>], out: &mut Buf) -> Result<(), Memory>
    requires { IsTrue (all_true (map part_has_texts (map part_of parts.now))) }
    ensures appended { OnOk result (out.new ≡ out.old ++ payload_text (map shown_part (map part_of parts.now))) }
    ensures front { OnErr result (take (length out.old) out.new ≡ out.old) }
{
    if parts.is_empty() {
        return Ok(());
    }
    put_parts(parts, out)
}

/// Parts as a tuple or in braces.
#[cycle(printing)]
fn put_parts(parts: &[PartIn<'_>], out: &mut Buf) -> Result<(), Memory>
    requires { IsTrue (all_true (map part_has_texts (map part_of parts.now))) }
    ensures appended { OnOk result (out.new ≡ out.old ++ parts_text (map shown_part (map part_of parts.now))) }
    ensures front { OnErr result (take (length out.old) out.new ≡ out.old) }
{
    if has_numbered(parts) {
        out.put(b"(")?;
        put_unnamed(parts, out)?;
        out.put(b")")
    } else {
        out.put(b"{")?;
        put_named(parts, out)?;
        out.put(b"}")
    }
}

/// The parts have the names of a tuple's fields.
fn has_numbered(parts: &[PartIn<'_>]) -> bool
    ensures { result ≡ are_numbered 0 (map shown_part (map part_of parts.now)) }
{
    for i in 0..parts.len() {
        if !is_numbered(parts, i) {
            return false;
        }
    }
    true
}

/// The part with this number has the name of the field with this number in a tuple: those from it on are numbered exactly
/// where it is, and those after it are.
fn is_numbered(parts: &[PartIn<'_>], i: usize) -> bool
    requires { i < length parts.now }
    ensures { are_numbered i (map shown_part (map part_of (drop i parts.now))) ≡ (result && are_numbered (i + 1) (map shown_part (map part_of (drop (i + 1) parts.now)))) }
{
    is_number_name(parts[i].name, i)
}

/// Appends the values of the parts, as in a tuple.
#[cycle(printing)]
fn put_unnamed(parts: &[PartIn<'_>], out: &mut Buf) -> Result<(), Memory>
    requires { IsTrue (all_true (map part_has_texts (map part_of parts.now))) }
    ensures appended { OnOk result (out.new ≡ out.old ++ joined (codes ", ") (map (λ part. (shown_part part).1) (map part_of parts.now))) }
    ensures front { OnErr result (take (length out.old) out.new ≡ out.old) }
{
    for (i, part) in parts.iter().enumerate() {
        put_comma(i, out)?;
        put_value(&part.val, out)?;
    }
    Ok(())
}

/// Appends the names and the values of the parts, as in braces.
#[cycle(printing)]
fn put_named(parts: &[PartIn<'_>], out: &mut Buf) -> Result<(), Memory>
    requires { IsTrue (all_true (map part_has_texts (map part_of parts.now))) }
    ensures appended { OnOk result (out.new ≡ out.old ++ joined (codes ", ") (map (λ part. named_text (shown_part part)) (map part_of parts.now))) }
    ensures front { OnErr result (take (length out.old) out.new ≡ out.old) }
{
    for (i, part) in parts.iter().enumerate() {
        put_comma(i, out)?;
        put_part(part, out)?;
    }
    Ok(())
}

/// Appends the name of a part and its value.
#[cycle(printing)]
#[tactic(auto, using(std::proofs::lemmas::Grind::common_steps, crate::proofs::HeldLevels::shown_name, crate::proofs::HeldLevels::shown_value, crate::proofs::HeldLevels::held_part_texts))]
fn put_part(part: &PartIn<'_>, out: &mut Buf) -> Result<(), Memory>
    requires { IsTrue (part_has_texts (part_of part.now)) }
    ensures appended { OnOk result (out.new ≡ out.old ++ named_text (shown_part (part_of part.now))) }
    ensures front { OnErr result (take (length out.old) out.new ≡ out.old) }
{
    out.put(part.name)?;
    out.put(b": ")?;
    put_value(&part.val, out)
}

/// A sequence of this length, of which some elements are shown.
#[cycle(printing)]
fn put_seq(len: u64, shown: &[ValIn<'_>], out: &mut Buf) -> Result<(), Memory>
    requires { IsTrue (all_true (map has_texts (map value_of shown.now))) }
    ensures appended { OnOk result (out.new ≡ out.old ++ seq_text len (map text_of (map value_of shown.now))) }
    ensures front { OnErr result (take (length out.old) out.new ≡ out.old) }
{
    out.put(b"[")?;
    put_values(shown, out)?;
    let more = len.saturating_sub(shown.len() as u64);
    if more > 0 {
        put_more(more, !shown.is_empty(), out)?;
    }
    out.put(b"]")
}

/// Appends the values, with a comma between each two.
#[cycle(printing)]
fn put_values(values: &[ValIn<'_>], out: &mut Buf) -> Result<(), Memory>
    requires { IsTrue (all_true (map has_texts (map value_of values.now))) }
    ensures appended { OnOk result (out.new ≡ out.old ++ joined (codes ", ") (map text_of (map value_of values.now))) }
    ensures front { OnErr result (take (length out.old) out.new ≡ out.old) }
{
    for (i, value) in values.iter().enumerate() {
        put_comma(i, out)?;
        put_value(value, out)?;
    }
    Ok(())
}

/// What a pointer leads to.
#[cycle(printing)]
fn put_content(to: &ValIn<'_>, out: &mut Buf) -> Result<(), Memory>
    requires { IsTrue (has_texts (value_of to.now)) }
    ensures appended { OnOk result (out.new ≡ out.old ++ content_text (Some (text_of (value_of to.now)))) }
    ensures front { OnErr result (take (length out.old) out.new ≡ out.old) }
{
    out.put(b" -> ")?;
    put_value(to, out)
}

/// The text that a pointer leads to.
fn put_text(text: Option<&[u8]>, out: &mut Buf) -> Result<(), Memory>
    requires { IsTrue (is_text (led text)) }
    ensures appended { OnOk result (out.new ≡ out.old ++ quoted_content (led text.entry)) }
    ensures front { OnErr result (take (length out.old) out.new ≡ out.old) }
{
    match text {
        None => Ok(()),
        Some(text) => {
            out.put(b" -> ")?;
            put_quoted(text, out)
        }
    }
}
