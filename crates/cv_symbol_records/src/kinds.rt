//! Symbol records.
use rv_io::{List, Text};

/// A record of `.debug$S`.
#[derive(Debug, Drop)]
pub struct SymRec {
    /// Where the record begins, in bytes from the section's start.
    pub offset: u32,
    pub kind: SymKind,
}

/// What a symbol record says. A type is given by its index, a name is UTF-8 without its zero byte, and
/// lengths and offsets are in bytes.
#[derive(Debug, Drop)]
pub enum SymKind {
    /// S_END.
    End,
    /// S_PROC_ID_END.
    ProcIdEnd,
    /// S_FRAMEPROC: five sizes and offsets, a section and flags.
    FrameProc {
        a: u32,
        b: u32,
        c: u32,
        d: u32,
        e: u32,
        f: u16,
        flags: u32,
    },
    /// S_BLOCK32.
    Block {
        parent: u32,
        end: u32,
        len: u32,
        offset: u32,
        section: u16,
        name: Text,
    },
    /// S_CONSTANT.
    Constant {
        ty: u32,
        number: i128,
        name: Text,
    },
    /// S_UDT.
    Udt {
        ty: u32,
        name: Text,
    },
    /// S_LDATA32.
    LData(Datum),
    /// S_GDATA32.
    GData(Datum),
    /// S_LPROC32.
    LProc(Proc),
    /// S_GPROC32.
    GProc(Proc),
    /// S_LPROC32_ID.
    LProcId(Proc),
    /// S_GPROC32_ID.
    GProcId(Proc),
    /// S_LOCAL.
    Local {
        ty: u32,
        flags: u16,
        name: Text,
    },
    /// S_DEFRANGE_REGISTER.
    RangeReg {
        reg: u16,
        attributes: u16,
        range: CvRange,
    },
    /// S_DEFRANGE_FRAMEPOINTER_REL.
    RangeFrame {
        offset: i32,
        range: CvRange,
    },
    /// S_DEFRANGE_SUBFIELD_REGISTER; the low 12 bits of `at` are the offset in the variable.
    RangeSubfield {
        reg: u16,
        attributes: u16,
        at: u32,
        range: CvRange,
    },
    /// S_DEFRANGE_FRAMEPOINTER_REL_FULL_SCOPE.
    RangeFrameFull {
        offset: i32,
    },
    /// S_DEFRANGE_REGISTER_REL.
    RangeRel {
        reg: u16,
        flags: u16,
        offset: i32,
        range: CvRange,
    },
    /// A record of another kind, by the kind's number, S_INLINESITE and S_INLINESITE_END among them; its
    /// contents aren't looked at.
    Other(u16),
}

/// A static variable.
#[derive(Debug, Drop)]
pub struct Datum {
    pub ty: u32,
    pub offset: u32,
    pub section: u16,
    pub name: Text,
}

/// A procedure.
#[derive(Debug, Drop)]
pub struct Proc {
    pub parent: u32,
    pub end: u32,
    pub next: u32,
    pub len: u32,
    pub debug_start: u32,
    pub debug_end: u32,
    pub ty: u32,
    pub offset: u32,
    pub section: u16,
    pub flags: u8,
    pub name: Text,
}

/// Where a location holds: `len` bytes from `start` in a section, without the gaps.
#[derive(Debug, Drop)]
pub struct CvRange {
    pub start: u32,
    pub section: u16,
    pub len: u16,
    pub gaps: List<CvGap>,
}

/// A gap in a range; `start` counts from the range's start.
#[derive(Clone, Copy, Debug, PartialEq, Eq)]
pub struct CvGap {
    pub start: u16,
    pub len: u16,
}
