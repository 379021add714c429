//! The texts of numbers, characters, texts and bytes. After a refusal what stood before stays in front.
ghost use Rattle.std.specs.Prelude.{◌≡◌, ◌<◌, ◌++◌, OnOk, OnErr, IsTrue, codes, length, take};
ghost use Rattle.std.specs.Int.{to_be_bytes, w32, w64};
ghost use Rattle.std.specs.List.{flat_map};
ghost use Rattle.std.specs.Str.{is_utf8, chars};
ghost use Rattle.hex.specs.Hex.{encode_lower};
ghost use Rattle.rust_value.specs.Texts.{escaped, in_quotes, quoted, bool_text};

use rv_io::{Buf, Memory};
use std::str;

/// A truth value.
pub(crate) fn put_bool(b: bool, out: &mut Buf) -> Result<(), Memory>
    ensures appended { OnOk result (out.new ≡ out.old ++ bool_text b) }
    ensures front { OnErr result (take (length out.old) out.new ≡ out.old) }
{
    if b {
        out.put(b"true")
    } else {
        out.put(b"false")
    }
}

/// The bits of an `f32` in eight digits.
pub(crate) fn put_float32(bits: u32, out: &mut Buf) -> Result<(), Memory>
    ensures appended { OnOk result (out.new ≡ out.old ++ (codes "f32 0x" ++ encode_lower (to_be_bytes w32 bits))) }
    ensures front { OnErr result (take (length out.old) out.new ≡ out.old) }
{
    out.put(b"f32 0x")?;
    put_hex(bits.to_be_bytes().as_slice(), out)
}

/// The bits of an `f64` in sixteen digits.
pub(crate) fn put_float64(bits: u64, out: &mut Buf) -> Result<(), Memory>
    ensures appended { OnOk result (out.new ≡ out.old ++ (codes "f64 0x" ++ encode_lower (to_be_bytes w64 bits))) }
    ensures front { OnErr result (take (length out.old) out.new ≡ out.old) }
{
    out.put(b"f64 0x")?;
    put_hex(bits.to_be_bytes().as_slice(), out)
}

/// The bytes, two digits each.
pub(crate) fn put_hex(bytes: &[u8], out: &mut Buf) -> Result<(), Memory>
    ensures appended { OnOk result (out.new ≡ out.old ++ encode_lower bytes.now) }
    ensures front { OnErr result (take (length out.old) out.new ≡ out.old) }
{
    out.put(hex::encode(out.alloc(), bytes)?.as_bytes())
}

/// A character between single quotes.
pub(crate) fn put_char(c: char, out: &mut Buf) -> Result<(), Memory>
    ensures appended { OnOk result (out.new ≡ out.old ++ in_quotes c) }
    ensures front { OnErr result (take (length out.old) out.new ≡ out.old) }
{
    out.put(b"'")?;
    put_escaped('\'', c, out)?;
    out.put(b"'")
}

/// A text between double quotes.
pub(crate) fn put_quoted(bytes: &[u8], out: &mut Buf) -> Result<(), Memory>
    requires { IsTrue (is_utf8 bytes.now) }
    ensures appended { OnOk result (out.new ≡ out.old ++ quoted bytes.now) }
    ensures front { OnErr result (take (length out.old) out.new ≡ out.old) }
{
    let Ok(text) = str::from_utf8(bytes) else {
        unreachable!()
    };
    out.put(b"\"")?;
    put_escapes(text, out)?;
    out.put(b"\"")
}

/// The characters of a text, as they stand between double quotes.
fn put_escapes(text: &str, out: &mut Buf) -> Result<(), Memory>
    ensures appended { OnOk result (out.new ≡ out.old ++ flat_map (escaped 34) (chars text.now)) }
    ensures front { OnErr result (take (length out.old) out.new ≡ out.old) }
{
    for c in text.chars() {
        put_escaped('"', c, out)?;
    }
    Ok(())
}

/// A character as it stands between the quotes.
fn put_escaped(quote: char, c: char, out: &mut Buf) -> Result<(), Memory>
    requires { quote < 128 }
    ensures appended { OnOk result (out.new ≡ out.old ++ escaped quote c) }
    ensures front { OnErr result (take (length out.old) out.new ≡ out.old) }
{
    match c {
        '\n' => out.put(b"\\n"),
        '\r' => out.put(b"\\r"),
        '\t' => out.put(b"\\t"),
        '\\' => out.put(b"\\\\"),
        _ if c == quote => out.put(&[b'\\', c as u8]),
        ' '..='~' => out.put(&[c as u8]),
        _ => {
            out.put(b"\\u{")?;
            out.put_hex_digits(u64::from(c as u32))?;
            out.put(b"}")
        }
    }
}
