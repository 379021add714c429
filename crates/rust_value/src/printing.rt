//! The text of values. After a refusal of a private call what stood before stays in front.
ghost use Rattle.std.specs.Prelude.{◌≡◌, ◌++◌, OnOk, OnErr, IsTrue, codes, length, take, map, option_map};
ghost use Rattle.std.specs.Prelude.{[], ◌==◌, if◌then◌else◌, decimal};
ghost use Rattle.std.specs.Str.{bytes_eq};
ghost use Rattle.names.specs.Joined.{joined};
ghost use Rattle.rust_value.specs.Texts.{text_of, shown_part, fields_text, payload_text, parts_text, are_numbered, number_name, named_text};
ghost use Rattle.rust_value.specs.Texts.{seq_text, content_text, quoted_content};
ghost use Rattle.rust_value.specs.Utf8.{has_texts, part_has_texts, all_true, true_of, is_text};

use crate::pointers::{put_counted, put_dyn, put_thin};
use crate::scalars::{put_bool, put_char, put_float32, put_float64, put_hex, put_quoted};
use crate::value::{Part, Val};
use itoa::Buffer;
use rv_io::{Boxed, Buf, Memory, Text};

/// Appends the text of the value, each of whose texts is UTF-8.
pub fn text(val: &Val, out: &mut Buf) -> Result<(), Memory>
    requires { IsTrue (has_texts val.now) }
    ensures appended { OnOk result (out.new ≡ out.old ++ text_of val.now) }
    ensures same { OnErr result (out.new ≡ out.old) }
{
    let len = out.as_bytes().len();
    let done = put_value(val, out);
    if done.is_err() {
        out.truncate(len);
    }
    done
}

/// Appends the text of a value.
#[cycle(printing)]
fn put_value(val: &Val, out: &mut Buf) -> Result<(), Memory>
    requires { IsTrue (has_texts val.now) }
    ensures appended { OnOk result (out.new ≡ out.old ++ text_of val.now) }
    ensures front { OnErr result (take (length out.old) out.new ≡ out.old) }
{
    match val {
        Val::Unit => out.put(b"()"),
        Val::Bool(b) => put_bool(*b, out),
        Val::Char(c) => put_char(*c, out),
        Val::Unsigned(n) => out.put_decimal(*n),
        Val::Signed(n) => out.put_signed(*n),
        Val::Float32(bits) => put_float32(*bits, out),
        Val::Float64(bits) => put_float64(*bits, out),
        Val::Fields(parts) => put_fields(parts.as_slice(), out),
        Val::Variant(name, parts) => {
            out.put(name.as_bytes())?;
            put_payload(parts.as_slice(), out)
        }
        Val::Seq(len, shown) => put_seq(*len, shown.as_slice(), out),
        Val::Pointer(kind, at, content) => {
            put_thin(*kind, *at, out)?;
            put_content(content, out)
        }
        Val::Slice(kind, at, len, content) => {
            put_counted(*kind, b"", *at, *len, out)?;
            put_content(content, out)
        }
        Val::Str(kind, at, len, text) => {
            put_counted(*kind, b"str", *at, *len, out)?;
            put_text(text, out)
        }
        Val::Dyn(kind, at, vtable) => put_dyn(*kind, *at, *vtable, out),
        Val::Function(at) => {
            out.put(b"fn ")?;
            out.put_hex(*at)
        }
        Val::Bytes(bytes) => {
            out.put(b"bytes ")?;
            put_hex(bytes.as_bytes(), out)
        }
    }
}

/// What a struct holds.
#[cycle(printing)]
fn put_fields(parts: &[Part], out: &mut Buf) -> Result<(), Memory>
    requires { IsTrue (all_true (map part_has_texts parts.now)) }
    ensures appended { OnOk result (out.new ≡ out.old ++ fields_text (map shown_part parts.now)) }
    ensures front { OnErr result (take (length out.old) out.new ≡ out.old) }
{
    if parts.is_empty() {
        return out.put(b"{}");
    }
    put_parts(parts, out)
}

/// What a variant holds.
#[cycle(printing)]
fn put_payload(parts: &[Part], out: &mut Buf) -> Result<(), Memory>
    requires { IsTrue (all_true (map part_has_texts parts.now)) }
    ensures appended { OnOk result (out.new ≡ out.old ++ payload_text (map shown_part parts.now)) }
    ensures front { OnErr result (take (length out.old) out.new ≡ out.old) }
{
    if parts.is_empty() {
        return Ok(());
    }
    put_parts(parts, out)
}

/// Parts as a tuple or in braces.
#[cycle(printing)]
fn put_parts(parts: &[Part], out: &mut Buf) -> Result<(), Memory>
    requires { IsTrue (all_true (map part_has_texts parts.now)) }
    ensures appended { OnOk result (out.new ≡ out.old ++ parts_text (map shown_part parts.now)) }
    ensures front { OnErr result (take (length out.old) out.new ≡ out.old) }
{
    if has_numbered(parts) {
        out.put(b"(")?;
        put_unnamed(parts, out)?;
        out.put(b")")
    } else {
        out.put(b"{")?;
        put_named(parts, out)?;
        out.put(b"}")
    }
}

/// The parts have the names of a tuple's fields.
fn has_numbered(parts: &[Part]) -> bool
    ensures { result ≡ are_numbered 0 (map shown_part parts.now) }
{
    for (i, part) in parts.iter().enumerate() {
        if !is_number_name(part.name.as_bytes(), i) {
            return false;
        }
    }
    true
}

/// The name is that of the field with this number in a tuple.
pub(crate) fn is_number_name(name: &[u8], i: usize) -> bool
    ensures { result ≡ bytes_eq name.now (number_name i) }
{
    match name {
        [b'_', b'_', digits @ ..] => digits == Buffer::new().format(i).as_bytes(),
        _ => false,
    }
}

/// Appends the values of the parts, as in a tuple.
#[cycle(printing)]
fn put_unnamed(parts: &[Part], out: &mut Buf) -> Result<(), Memory>
    requires { IsTrue (all_true (map part_has_texts parts.now)) }
    ensures appended { OnOk result (out.new ≡ out.old ++ joined (codes ", ") (map (λ part. (shown_part part).1) parts.now)) }
    ensures front { OnErr result (take (length out.old) out.new ≡ out.old) }
{
    for (i, part) in parts.iter().enumerate() {
        put_comma(i, out)?;
        put_value(&part.val, out)?;
    }
    Ok(())
}

/// Appends the names and the values of the parts, as in braces.
#[cycle(printing)]
fn put_named(parts: &[Part], out: &mut Buf) -> Result<(), Memory>
    requires { IsTrue (all_true (map part_has_texts parts.now)) }
    ensures appended { OnOk result (out.new ≡ out.old ++ joined (codes ", ") (map (λ part. named_text (shown_part part)) parts.now)) }
    ensures front { OnErr result (take (length out.old) out.new ≡ out.old) }
{
    for (i, part) in parts.iter().enumerate() {
        put_comma(i, out)?;
        put_part(part, out)?;
    }
    Ok(())
}

/// Appends the name of a part and its value.
#[cycle(printing)]
fn put_part(part: &Part, out: &mut Buf) -> Result<(), Memory>
    requires { IsTrue (part_has_texts part.now) }
    ensures appended { OnOk result (out.new ≡ out.old ++ named_text (shown_part part.now)) }
    ensures front { OnErr result (take (length out.old) out.new ≡ out.old) }
{
    out.put(part.name.as_bytes())?;
    out.put(b": ")?;
    put_value(&part.val, out)
}

/// A sequence of this length, of which some elements are shown.
#[cycle(printing)]
fn put_seq(len: u64, shown: &[Val], out: &mut Buf) -> Result<(), Memory>
    requires { IsTrue (all_true (map has_texts shown.now)) }
    ensures appended { OnOk result (out.new ≡ out.old ++ seq_text len (map text_of shown.now)) }
    ensures front { OnErr result (take (length out.old) out.new ≡ out.old) }
{
    out.put(b"[")?;
    put_values(shown, out)?;
    let more = len.saturating_sub(shown.len() as u64);
    if more > 0 {
        put_more(more, !shown.is_empty(), out)?;
    }
    out.put(b"]")
}

/// A comma and a space, before each item but the first.
pub(crate) fn put_comma(i: usize, out: &mut Buf) -> Result<(), Memory>
    ensures appended { OnOk result (out.new ≡ out.old ++ (if i == 0 then [] else codes ", ")) }
    ensures same { OnErr result (out.new ≡ out.old) }
{
    if i == 0 { Ok(()) } else { out.put(b", ") }
}

/// How many elements are not shown, after others or not.
pub(crate) fn put_more(more: u64, after: bool, out: &mut Buf) -> Result<(), Memory>
    ensures appended { OnOk result (out.new ≡ out.old ++ (if after then codes ", " else []) ++ (codes ".. " ++ decimal more ++ codes " more")) }
    ensures front { OnErr result (take (length out.old) out.new ≡ out.old) }
{
    if after {
        out.put(b", ")?;
    }
    out.put(b".. ")?;
    out.put_decimal(u128::from(more))?;
    out.put(b" more")
}

/// Appends the values, with a comma between each two.
#[cycle(printing)]
fn put_values(values: &[Val], out: &mut Buf) -> Result<(), Memory>
    requires { IsTrue (all_true (map has_texts values.now)) }
    ensures appended { OnOk result (out.new ≡ out.old ++ joined (codes ", ") (map text_of values.now)) }
    ensures front { OnErr result (take (length out.old) out.new ≡ out.old) }
{
    for (i, value) in values.iter().enumerate() {
        put_comma(i, out)?;
        put_value(value, out)?;
    }
    Ok(())
}

/// What a pointer leads to.
#[cycle(printing)]
fn put_content(content: &Option<Boxed<Val>>, out: &mut Buf) -> Result<(), Memory>
    requires { IsTrue (true_of (option_map has_texts content.now)) }
    ensures appended { OnOk result (out.new ≡ out.old ++ content_text (option_map text_of content.now)) }
    ensures front { OnErr result (take (length out.old) out.new ≡ out.old) }
{
    match content {
        None => Ok(()),
        Some(to) => {
            out.put(b" -> ")?;
            put_value(to.get(), out)
        }
    }
}

/// The text that a pointer leads to.
fn put_text(text: &Option<Text>, out: &mut Buf) -> Result<(), Memory>
    requires { IsTrue (is_text text.now) }
    ensures appended { OnOk result (out.new ≡ out.old ++ quoted_content text.now) }
    ensures front { OnErr result (take (length out.old) out.new ≡ out.old) }
{
    match text {
        None => Ok(()),
        Some(text) => {
            out.put(b" -> ")?;
            put_quoted(text.as_bytes(), out)
        }
    }
}
