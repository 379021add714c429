//! Symbol records of CodeView.
use crate::shown::{or_none, part, put_name, refusal};
use case_words::mistake::Mistake;
use case_words::named::Named;
use case_words::words::bytes_of;
use cv_symbol_records::{CvRange, Datum, Proc, SymKind, SymRec, read_symbols};
use rv_io::List;
use std::alloc::Global;

/// How many bytes a section of a row has at most.
const LONGEST: usize = 0x10_0000;

/// Of the bytes of `.debug$S` its symbols, each as `OFFSET SYMBOL`, or the error.
pub fn outcome(alloc: Global, files: &[Named], row: &str) -> Result<String, Mistake> {
    let bytes = bytes_of(alloc, files, row)?;
    if bytes.len() > LONGEST {
        return Err(Mistake::NotOfTheForm);
    }
    match read_symbols(alloc, bytes.as_slice()) {
        Ok(records) => or_none(alloc, text_of(alloc, &records)?),
        Err(e) => refusal(alloc, e),
    }
}

/// All symbols.
fn text_of(alloc: Global, records: &List<SymRec>) -> Result<String, Mistake> {
    let mut text = String::new(alloc);
    for record in records.as_slice() {
        part(&mut text)?;
        let offset = record.offset;
        write!(text, "{offset} ")?;
        put_symbol(&mut text, alloc, &record.kind)?;
    }
    Ok(text)
}

/// Adds what a symbol says.
fn put_symbol(text: &mut String, alloc: Global, kind: &SymKind) -> Result<(), Mistake> {
    match kind {
        SymKind::LData(datum) => put_datum(text, alloc, "ldata", datum),
        SymKind::GData(datum) => put_datum(text, alloc, "gdata", datum),
        SymKind::LProc(proc) => put_proc(text, alloc, "lproc", proc),
        SymKind::GProc(proc) => put_proc(text, alloc, "gproc", proc),
        SymKind::LProcId(proc) => put_proc(text, alloc, "lproc-id", proc),
        SymKind::GProcId(proc) => put_proc(text, alloc, "gproc-id", proc),
        SymKind::Block { .. } | SymKind::Constant { .. } | SymKind::Udt { .. } => {
            put_named(text, alloc, kind)
        }
        SymKind::Local { .. } => put_named(text, alloc, kind),
        kind => put_other(text, kind),
    }
}

/// Adds a symbol that has a name.
fn put_named(text: &mut String, alloc: Global, kind: &SymKind) -> Result<(), Mistake> {
    match kind {
        SymKind::Block {
            parent,
            end,
            len,
            offset,
            section,
            name,
        } => {
            write!(text, "block {parent} {end} {len} {offset} {section}")?;
            put_name(text, alloc, name)
        }
        SymKind::Constant { ty, number, name } => {
            write!(text, "constant {ty:#x} {number}")?;
            put_name(text, alloc, name)
        }
        SymKind::Udt { ty, name } => {
            write!(text, "udt {ty:#x}")?;
            put_name(text, alloc, name)
        }
        SymKind::Local { ty, flags, name } => {
            write!(text, "local {ty:#x} {flags:#x}")?;
            put_name(text, alloc, name)
        }
        _ => Err(Mistake::NotOfTheForm),
    }
}

/// Adds a symbol without a name.
fn put_other(text: &mut String, kind: &SymKind) -> Result<(), Mistake> {
    match kind {
        SymKind::End => text.push_str("end")?,
        SymKind::ProcIdEnd => text.push_str("proc-id-end")?,
        SymKind::FrameProc {
            a,
            b,
            c,
            d,
            e,
            f,
            flags,
        } => write!(text, "frame {a} {b} {c} {d} {e} {f} {flags:#x}")?,
        SymKind::RangeFrameFull { offset } => write!(text, "range-frame-full {offset}")?,
        SymKind::Other(kind) => write!(text, "other {kind:#x}")?,
        kind => return put_ranged(text, kind),
    }
    Ok(())
}

/// Adds a symbol that has a range.
fn put_ranged(text: &mut String, kind: &SymKind) -> Result<(), Mistake> {
    match kind {
        SymKind::RangeReg {
            reg,
            attributes,
            range,
        } => {
            write!(text, "range-reg {reg} {attributes:#x}")?;
            put_range(text, range)
        }
        SymKind::RangeFrame { offset, range } => {
            write!(text, "range-frame {offset}")?;
            put_range(text, range)
        }
        SymKind::RangeSubfield {
            reg,
            attributes,
            at,
            range,
        } => {
            write!(text, "range-subfield {reg} {attributes:#x} {at:#x}")?;
            put_range(text, range)
        }
        SymKind::RangeRel {
            reg,
            flags,
            offset,
            range,
        } => {
            write!(text, "range-rel {reg} {flags:#x} {offset}")?;
            put_range(text, range)
        }
        _ => Err(Mistake::NotOfTheForm),
    }
}

/// Adds a variable in memory.
fn put_datum(text: &mut String, alloc: Global, word: &str, datum: &Datum) -> Result<(), Mistake> {
    let ty = datum.ty;
    let offset = datum.offset;
    let section = datum.section;
    write!(text, "{word} {ty:#x} {offset} {section}")?;
    put_name(text, alloc, &datum.name)
}

/// Adds a procedure.
fn put_proc(text: &mut String, alloc: Global, word: &str, proc: &Proc) -> Result<(), Mistake> {
    let parent = proc.parent;
    let end = proc.end;
    let next = proc.next;
    let len = proc.len;
    write!(text, "{word} {parent} {end} {next} {len}")?;
    let debug_start = proc.debug_start;
    let debug_end = proc.debug_end;
    let ty = proc.ty;
    write!(text, " {debug_start} {debug_end} {ty:#x}")?;
    let offset = proc.offset;
    let section = proc.section;
    let flags = proc.flags;
    write!(text, " {offset} {section} {flags:#x}")?;
    put_name(text, alloc, &proc.name)
}

/// Adds a range: ` START SECTION LENGTH`, and each gap as ` START+LENGTH`.
fn put_range(text: &mut String, range: &CvRange) -> Result<(), Mistake> {
    let start = range.start;
    let section = range.section;
    let len = range.len;
    write!(text, " {start} {section} {len}")?;
    for gap in range.gaps.as_slice() {
        let start = gap.start;
        let len = gap.len;
        write!(text, " {start}+{len}")?;
    }
    Ok(())
}
