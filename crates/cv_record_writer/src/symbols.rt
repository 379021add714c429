//! Symbol records are appended, field by field.
ghost use Rattle.std.specs.Prelude.{◌≡◌, ◌≤◌, ◌++◌, length, OnOk, OnErr};
ghost use Rattle.byteorder.specs.Endian.{little_bytes};
ghost use Rattle.rv_bytes.specs.Numbers.{number};
ghost use Rattle.cv_parts.specs.Puts.{Puts, IsName};
ghost use Rattle.cv_symbol_records.specs.Symbols.{datum, proc};
ghost use Rattle.cv_symbol_records.specs.declared.kinds.SymKind.{SymKind};
ghost use Rattle.cv_record_writer.specs.SymbolBytes.{signed_bytes, frame_proc_bytes, block_bytes, constant_bytes, udt_bytes, datum_bytes, proc_bytes, local_bytes, range_reg_bytes, range_frame_bytes, range_subfield_bytes, range_rel_bytes, fields_bytes};
ghost use Rattle.cv_record_writer.specs.Contents.{IsNumeric};
ghost use Rattle.cv_record_writer.specs.Symbols.{HasForm, symbol_content};
ghost use Rattle.cv_record_writer.specs.Appended.{PutsFields, PutsSymbol};

use crate::leaves::symbol_number;
use crate::ranges::{put_range, put_signed};
use crate::records::{put_record, put_zeros};
use cv_parts::put_name;
use cv_symbol_records::{CvRange, Datum, Proc, SymKind};
use rv_bytes::{put_numeric, put_u8, put_u16, put_u32};
use rv_io::{Buf, Memory, Text};

/// Appends a number of four bytes.
fn put_dword(out: &mut Buf, n: u32) -> Result<(), Memory>
    ensures { OnOk result (Puts (number 4) n (little_bytes 4 n) out.old out.new) }
{
    put_u32(out, n)
}

/// Appends a number of two bytes.
fn put_word(out: &mut Buf, n: u16) -> Result<(), Memory>
    ensures { OnOk result (Puts (number 2) n (little_bytes 2 n) out.old out.new) }
{
    put_u16(out, n)
}

/// Appends a number of one byte.
fn put_byte(out: &mut Buf, n: u8) -> Result<(), Memory>
    ensures { OnOk result (Puts (number 1) n (little_bytes 1 n) out.old out.new) }
{
    put_u8(out, n)
}

/// Appends the fields of S_FRAMEPROC.
fn put_frame_proc(
    out: &mut Buf,
    a: u32,
    b: u32,
    c: u32,
    d: u32,
    e: u32,
    f: u16,
    flags: u32,
) -> Result<(), Memory>
    ensures { OnOk result (PutsFields (SymKind.FrameProc a b c d e f flags) (frame_proc_bytes a b c d e f flags) out.old out.new) }
{
    put_u32(out, a)?;
    put_u32(out, b)?;
    put_u32(out, c)?;
    put_u32(out, d)?;
    put_u32(out, e)?;
    put_u16(out, f)?;
    put_u32(out, flags)
}

/// Appends the fields of S_BLOCK32.
fn put_block(
    out: &mut Buf,
    parent: u32,
    end: u32,
    len: u32,
    offset: u32,
    section: u16,
    name: &Text,
) -> Result<(), Memory>
    requires { IsName name.now }
    ensures { OnOk result (PutsFields (SymKind.Block parent end len offset section name.now) (block_bytes parent end len offset section name.now) out.old out.new) }
{
    put_u32(out, parent)?;
    put_u32(out, end)?;
    put_u32(out, len)?;
    put_u32(out, offset)?;
    put_u16(out, section)?;
    put_name(out, name)
}

/// Appends the fields of S_CONSTANT.
fn put_constant(out: &mut Buf, ty: u32, number: i128, name: &Text) -> Result<(), Memory>
    requires number { IsNumeric number }
    requires name { IsName name.now }
    ensures { OnOk result (PutsFields (SymKind.Constant ty number name.now) (constant_bytes ty number name.now) out.old out.new) }
{
    put_u32(out, ty)?;
    put_numeric(out, number)?;
    put_name(out, name)
}

/// Appends the fields of S_UDT.
fn put_udt(out: &mut Buf, ty: u32, name: &Text) -> Result<(), Memory>
    requires { IsName name.now }
    ensures { OnOk result (PutsFields (SymKind.Udt ty name.now) (udt_bytes ty name.now) out.old out.new) }
{
    put_u32(out, ty)?;
    put_name(out, name)
}

/// Appends the fields of a static variable.
fn put_datum(out: &mut Buf, variable: &Datum) -> Result<(), Memory>
    requires { IsName variable.now.name }
    ensures { OnOk result (Puts datum variable.now (datum_bytes variable.now) out.old out.new) }
{
    put_u32(out, variable.ty)?;
    put_u32(out, variable.offset)?;
    put_u16(out, variable.section)?;
    put_name(out, &variable.name)
}

/// Appends the fields of a procedure.
fn put_proc(out: &mut Buf, procedure: &Proc) -> Result<(), Memory>
    requires { IsName procedure.now.name }
    ensures { OnOk result (Puts proc procedure.now (proc_bytes procedure.now) out.old out.new) }
{
    put_dword(out, procedure.parent)?;
    put_dword(out, procedure.end)?;
    put_dword(out, procedure.next)?;
    put_dword(out, procedure.len)?;
    put_dword(out, procedure.debug_start)?;
    put_dword(out, procedure.debug_end)?;
    put_dword(out, procedure.ty)?;
    put_dword(out, procedure.offset)?;
    put_word(out, procedure.section)?;
    put_byte(out, procedure.flags)?;
    put_name(out, &procedure.name)
}

/// Appends the fields of S_LOCAL.
fn put_local(out: &mut Buf, ty: u32, flags: u16, name: &Text) -> Result<(), Memory>
    requires { IsName name.now }
    ensures { OnOk result (PutsFields (SymKind.Local ty flags name.now) (local_bytes ty flags name.now) out.old out.new) }
{
    put_u32(out, ty)?;
    put_u16(out, flags)?;
    put_name(out, name)
}

/// Appends the fields of S_DEFRANGE_REGISTER.
fn put_range_reg(out: &mut Buf, reg: u16, attributes: u16, range: &CvRange) -> Result<(), Memory>
    ensures { OnOk result (PutsFields (SymKind.RangeReg reg attributes range.now) (range_reg_bytes reg attributes range.now) out.old out.new) }
{
    put_u16(out, reg)?;
    put_u16(out, attributes)?;
    put_range(out, range)
}

/// Appends the fields of S_DEFRANGE_FRAMEPOINTER_REL.
fn put_range_frame(out: &mut Buf, offset: i32, range: &CvRange) -> Result<(), Memory>
    ensures { OnOk result (PutsFields (SymKind.RangeFrame offset range.now) (range_frame_bytes offset range.now) out.old out.new) }
{
    put_signed(out, offset)?;
    put_range(out, range)
}

/// Appends the fields of S_DEFRANGE_SUBFIELD_REGISTER.
fn put_range_subfield(
    out: &mut Buf,
    reg: u16,
    attributes: u16,
    at: u32,
    range: &CvRange,
) -> Result<(), Memory>
    ensures { OnOk result (PutsFields (SymKind.RangeSubfield reg attributes at range.now) (range_subfield_bytes reg attributes at range.now) out.old out.new) }
{
    put_u16(out, reg)?;
    put_u16(out, attributes)?;
    put_u32(out, at)?;
    put_range(out, range)
}

/// Appends the field of S_DEFRANGE_FRAMEPOINTER_REL_FULL_SCOPE.
fn put_range_full(out: &mut Buf, offset: i32) -> Result<(), Memory>
    ensures { OnOk result (PutsFields (SymKind.RangeFrameFull offset) (signed_bytes offset) out.old out.new) }
{
    put_signed(out, offset)
}

/// Appends the fields of S_DEFRANGE_REGISTER_REL.
fn put_range_rel(
    out: &mut Buf,
    reg: u16,
    flags: u16,
    offset: i32,
    range: &CvRange,
) -> Result<(), Memory>
    ensures { OnOk result (PutsFields (SymKind.RangeRel reg flags offset range.now) (range_rel_bytes reg flags offset range.now) out.old out.new) }
{
    put_u16(out, reg)?;
    put_u16(out, flags)?;
    put_signed(out, offset)?;
    put_range(out, range)
}

/// Appends the fields of a record, by its kind.
fn put_fields(out: &mut Buf, kind: &SymKind) -> Result<(), Memory>
    requires { HasForm kind.now }
    ensures { OnOk result (PutsFields kind.now (fields_bytes kind.now) out.old out.new) }
{
    match kind {
        SymKind::End => Ok(()),
        SymKind::ProcIdEnd => Ok(()),
        SymKind::Other(_) => Ok(()),
        SymKind::FrameProc {
            a,
            b,
            c,
            d,
            e,
            f,
            flags,
        } => put_frame_proc(out, *a, *b, *c, *d, *e, *f, *flags),
        SymKind::Block {
            parent,
            end,
            len,
            offset,
            section,
            name,
        } => put_block(out, *parent, *end, *len, *offset, *section, name),
        SymKind::Constant { ty, number, name } => put_constant(out, *ty, *number, name),
        SymKind::Udt { ty, name } => put_udt(out, *ty, name),
        SymKind::LData(variable) => put_datum(out, variable),
        SymKind::GData(variable) => put_datum(out, variable),
        SymKind::LProc(procedure) => put_proc(out, procedure),
        SymKind::GProc(procedure) => put_proc(out, procedure),
        SymKind::LProcId(procedure) => put_proc(out, procedure),
        SymKind::GProcId(procedure) => put_proc(out, procedure),
        SymKind::Local { ty, flags, name } => put_local(out, *ty, *flags, name),
        SymKind::RangeReg {
            reg,
            attributes,
            range,
        } => put_range_reg(out, *reg, *attributes, range),
        SymKind::RangeFrame { offset, range } => put_range_frame(out, *offset, range),
        SymKind::RangeSubfield {
            reg,
            attributes,
            at,
            range,
        } => put_range_subfield(out, *reg, *attributes, *at, range),
        SymKind::RangeFrameFull { offset } => put_range_full(out, *offset),
        SymKind::RangeRel {
            reg,
            flags,
            offset,
            range,
        } => put_range_rel(out, *reg, *flags, *offset, range),
    }
}

/// Appends a symbol record: its length, its kind, its fields, and the zeros that bring it to a multiple of 4.
///
/// Out of memory, the buffer is as it was.
pub fn put_symbol(out: &mut Buf, kind: &SymKind) -> Result<(), Memory>
    requires form { HasForm kind.now }
    requires fits { length (symbol_content kind.now) ≤ 65535 }
    ensures appended { OnOk result (PutsSymbol kind.now out.old out.new) }
    ensures same { OnErr result (out.new ≡ out.old) }
{
    let mut content = Buf::new(out.alloc());
    put_u16(&mut content, symbol_number(kind))?;
    put_fields(&mut content, kind)?;
    put_zeros(&mut content)?;
    put_record(out, content.as_bytes())
}
