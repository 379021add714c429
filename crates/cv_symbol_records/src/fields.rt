//! The contents of symbol records, field by field.
ghost use Rattle.std.specs.Prelude.{◌≡◌, length};
ghost use Rattle.rv_bytes.specs.Results.{Reads};
ghost use Rattle.cv_symbol_records.specs.SymbolReaders.{read_frame_proc, read_block, read_constant, read_udt, read_datum, read_proc, read_local, read_by_kind};

use crate::kinds::{Datum, Proc, SymKind};
use crate::leaves::SymLeaf;
use crate::ranges::{
    read_range_frame, read_range_full, read_range_reg, read_range_rel, read_range_subfield,
};
use cv_parts::read_name;
use rv_bytes::{Cut, DwErr};
use std::alloc::Global;

/// S_FRAMEPROC.
fn read_frame_proc(cut: &mut Cut<'_>) -> Result<SymKind, DwErr>
    ensures { Reads (read_frame_proc cut.old.at cut.old.rest) result cut.new }
{
    let a = cut.u32()?;
    let b = cut.u32()?;
    let c = cut.u32()?;
    let d = cut.u32()?;
    let e = cut.u32()?;
    let f = cut.u16()?;
    let flags = cut.u32()?;
    Ok(SymKind::FrameProc {
        a,
        b,
        c,
        d,
        e,
        f,
        flags,
    })
}

/// S_BLOCK32.
fn read_block(alloc: Global, cut: &mut Cut<'_>) -> Result<SymKind, DwErr>
    ensures { Reads (read_block cut.old.at cut.old.rest) result cut.new }
{
    let parent = cut.u32()?;
    let end = cut.u32()?;
    let len = cut.u32()?;
    let offset = cut.u32()?;
    let section = cut.u16()?;
    let name = read_name(alloc, cut)?;
    Ok(SymKind::Block {
        parent,
        end,
        len,
        offset,
        section,
        name,
    })
}

/// S_CONSTANT.
fn read_constant(alloc: Global, cut: &mut Cut<'_>) -> Result<SymKind, DwErr>
    ensures { Reads (read_constant cut.old.at cut.old.rest) result cut.new }
{
    let ty = cut.u32()?;
    let number = cut.numeric()?;
    let name = read_name(alloc, cut)?;
    Ok(SymKind::Constant { ty, number, name })
}

/// S_UDT.
fn read_udt(alloc: Global, cut: &mut Cut<'_>) -> Result<SymKind, DwErr>
    ensures { Reads (read_udt cut.old.at cut.old.rest) result cut.new }
{
    let ty = cut.u32()?;
    let name = read_name(alloc, cut)?;
    Ok(SymKind::Udt { ty, name })
}

/// S_LDATA32 and S_GDATA32.
fn read_datum(alloc: Global, cut: &mut Cut<'_>) -> Result<Datum, DwErr>
    ensures { Reads (read_datum cut.old.at cut.old.rest) result cut.new }
{
    let ty = cut.u32()?;
    let offset = cut.u32()?;
    let section = cut.u16()?;
    let name = read_name(alloc, cut)?;
    Ok(Datum {
        ty,
        offset,
        section,
        name,
    })
}

/// S_LPROC32, S_GPROC32, S_LPROC32_ID and S_GPROC32_ID.
fn read_proc(alloc: Global, cut: &mut Cut<'_>) -> Result<Proc, DwErr>
    ensures { Reads (read_proc cut.old.at cut.old.rest) result cut.new }
{
    let parent = cut.u32()?;
    let end = cut.u32()?;
    let next = cut.u32()?;
    let len = cut.u32()?;
    let debug_start = cut.u32()?;
    let debug_end = cut.u32()?;
    let ty = cut.u32()?;
    let offset = cut.u32()?;
    let section = cut.u16()?;
    let flags = cut.u8()?;
    let name = read_name(alloc, cut)?;
    Ok(Proc {
        parent,
        end,
        next,
        len,
        debug_start,
        debug_end,
        ty,
        offset,
        section,
        flags,
        name,
    })
}

/// S_LOCAL.
fn read_local(alloc: Global, cut: &mut Cut<'_>) -> Result<SymKind, DwErr>
    ensures { Reads (read_local cut.old.at cut.old.rest) result cut.new }
{
    let ty = cut.u32()?;
    let flags = cut.u16()?;
    let name = read_name(alloc, cut)?;
    Ok(SymKind::Local { ty, flags, name })
}

/// The contents of a record of one of the kinds that are read. Bytes past the last field are left.
pub(crate) fn read_by_kind(
    alloc: Global,
    cut: &mut Cut<'_>,
    leaf: SymLeaf,
) -> Result<SymKind, DwErr>
    ensures { Reads (read_by_kind leaf (length cut.old.rest) cut.old.at cut.old.rest) result cut.new }
{
    match leaf {
        SymLeaf::End => Ok(SymKind::End),
        SymLeaf::ProcIdEnd => Ok(SymKind::ProcIdEnd),
        SymLeaf::FrameProc => read_frame_proc(cut),
        SymLeaf::Block => read_block(alloc, cut),
        SymLeaf::Constant => read_constant(alloc, cut),
        SymLeaf::Udt => read_udt(alloc, cut),
        SymLeaf::LData => Ok(SymKind::LData(read_datum(alloc, cut)?)),
        SymLeaf::GData => Ok(SymKind::GData(read_datum(alloc, cut)?)),
        SymLeaf::LProc => Ok(SymKind::LProc(read_proc(alloc, cut)?)),
        SymLeaf::GProc => Ok(SymKind::GProc(read_proc(alloc, cut)?)),
        SymLeaf::LProcId => Ok(SymKind::LProcId(read_proc(alloc, cut)?)),
        SymLeaf::GProcId => Ok(SymKind::GProcId(read_proc(alloc, cut)?)),
        SymLeaf::Local => read_local(alloc, cut),
        SymLeaf::RangeReg => read_range_reg(alloc, cut),
        SymLeaf::RangeFrame => read_range_frame(alloc, cut),
        SymLeaf::RangeSubfield => read_range_subfield(alloc, cut),
        SymLeaf::RangeFrameFull => read_range_full(cut),
        SymLeaf::RangeRel => read_range_rel(alloc, cut),
    }
}
