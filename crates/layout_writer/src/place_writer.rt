//! Places, written.
ghost use Rattle.std.specs.Prelude.{◌≡◌, ◌++◌, ◌∷◌, ◌<◌, length, take, IfSome, OnOk, OnErr};
ghost use Rattle.std.specs.List.{All};
ghost use Rattle.std.specs.Fmt.{decimal, signed_decimal};
ghost use Rattle.layout_words.specs.PlaceSpellings.{digits_text, operation, op_text, IsOp};
ghost use Rattle.layout_words.specs.Forms.{behind, words_text};
ghost use Rattle.layout_lines.specs.Lines.{kind_of_place, place_rest, place_text, place_text_if, IsPlaceLine};
ghost use Rattle.expr_eval.specs.declared.operation.Op.TheVariants as ops;

use crate::line_writer::{put_decimal, put_hexadecimal, put_word};
use expr_eval::Op;
use itoa::Buffer;
use layout_set::Place;
use layout_words::{PlaceKind, digits_text, place_word, plain_word};
use rv_io::{Buf, Memory};
use snapshot_file::Reg;

/// Puts a signed number in decimal.
fn put_signed(number: i64, out: &mut Buf) -> Result<(), Memory>
    ensures put { OnOk result (out.new ≡ out.old ++ signed_decimal number) }
    ensures front { OnErr result (take (length out.old) out.new ≡ out.old) }
{
    let mut buffer = Buffer::new();
    out.put(buffer.format(number).as_bytes())
}

/// Puts a space and bytes in pairs of digits, or `-` for none.
fn put_digits(bytes: &[u8], out: &mut Buf) -> Result<(), Memory>
    ensures put { OnOk result (out.new ≡ out.old ++ 32 ∷ digits_text bytes.now) }
    ensures front { OnErr result (take (length out.old) out.new ≡ out.old) }
    ensures bytes { All (λ b. b < 256) bytes.now }
{
    let text = digits_text(out.alloc(), bytes)?;
    put_word(text.as_bytes(), out)
}

/// Puts what stands before a number, and the number in decimal.
fn put_behind(front: &[u8], number: u64, out: &mut Buf) -> Result<(), Memory>
    ensures put { OnOk result (out.new ≡ out.old ++ (front.now ++ decimal number)) }
    ensures front { OnErr result (take (length out.old) out.new ≡ out.old) }
{
    out.put(front)?;
    put_decimal(u128::from(number), out)
}

/// Puts a space and the sum of a register and a number.
fn put_register_op(reg: Reg, number: i64, out: &mut Buf) -> Result<(), Memory>
    ensures put { OnOk result (out.new ≡ out.old ++ 32 ∷ op_text (ops.RegPlus reg number)) }
    ensures front { OnErr result (take (length out.old) out.new ≡ out.old) }
{
    out.put(b" reg:")?;
    out.put(reg.name())?;
    out.put(b":")?;
    put_signed(number, out)
}

/// Puts a space and an operation.
fn put_op(op: Op, out: &mut Buf) -> Result<(), Memory>
    ensures put { OnOk result (out.new ≡ out.old ++ 32 ∷ op_text op) }
    ensures front { OnErr result (take (length out.old) out.new ≡ out.old) }
    ensures op { IsOp op }
{
    match op {
        Op::Const(n) => put_behind(b" const:", n, out),
        Op::Deref(n) => put_behind(b" deref:", u64::from(n), out),
        Op::Pick(n) => put_behind(b" pick:", u64::from(n), out),
        Op::PlusConst(n) => put_behind(b" plus:", n, out),
        Op::RegPlus(reg, n) => put_register_op(reg, n, out),
        _ => put_word(plain_word(op), out),
    }
}

/// Puts operations, each behind a space.
fn put_ops(ops: &[Op], out: &mut Buf) -> Result<(), Memory>
    ensures put { OnOk result (out.new ≡ out.old ++ behind (words_text operation ops.now)) }
    ensures front { OnErr result (take (length out.old) out.new ≡ out.old) }
    ensures ops { OnOk result (All IsOp ops.now) }
{
    for op in ops {
        put_op(*op, out)?;
    }
    Ok(())
}

fn kind_of_place(place: &Place) -> PlaceKind
    ensures { result ≡ kind_of_place place.now }
{
    match place {
        Place::Reg(_) => PlaceKind::Reg,
        Place::Mem(_, _) => PlaceKind::Mem,
        Place::Fixed(_) => PlaceKind::Fixed,
        Place::Value(_) => PlaceKind::Value,
        Place::Expr(_) => PlaceKind::Expr,
    }
}

/// Puts what follows the word of a place's kind.
fn put_place_rest(place: &Place, out: &mut Buf) -> Result<(), Memory>
    ensures put { OnOk result (out.new ≡ out.old ++ behind (place_rest place.now)) }
    ensures front { OnErr result (take (length out.old) out.new ≡ out.old) }
    ensures place { OnOk result (IsPlaceLine place.now) }
{
    match place {
        Place::Reg(reg) => put_word(reg.name(), out),
        Place::Mem(reg, offset) => {
            put_word(reg.name(), out)?;
            out.put(b" ")?;
            put_signed(i64::from(*offset), out)
        }
        Place::Fixed(at) => put_hexadecimal(*at, out),
        Place::Value(bytes) => put_digits(bytes.as_bytes(), out),
        Place::Expr(ops) => put_ops(ops.as_slice(), out),
    }
}

/// Puts a space and a place.
pub(crate) fn put_place(place: &Place, out: &mut Buf) -> Result<(), Memory>
    ensures put { OnOk result (out.new ≡ out.old ++ 32 ∷ place_text place.now) }
    ensures front { OnErr result (take (length out.old) out.new ≡ out.old) }
    ensures place { OnOk result (IsPlaceLine place.now) }
{
    put_word(place_word(kind_of_place(place)), out)?;
    put_place_rest(place, out)
}

/// Puts a space and a place, or `none`.
pub(crate) fn put_place_if(place: &Option<Place>, out: &mut Buf) -> Result<(), Memory>
    ensures put { OnOk result (out.new ≡ out.old ++ 32 ∷ place_text_if place.now) }
    ensures front { OnErr result (take (length out.old) out.new ≡ out.old) }
    ensures place { OnOk result (IfSome place.now IsPlaceLine) }
{
    match place {
        None => put_word(place_word(PlaceKind::Nowhere), out),
        Some(place) => put_place(place, out),
    }
}
