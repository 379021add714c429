//! The kinds of symbol records by their numbers.
ghost use Rattle.std.specs.Prelude.{◌≡◌};
ghost use Rattle.cv_symbol_records.specs.SymLeaves.{leaf_of};

pub(crate) const S_END: u16 = 0x0006;

pub(crate) const S_FRAMEPROC: u16 = 0x1012;

pub(crate) const S_BLOCK32: u16 = 0x1103;

pub(crate) const S_CONSTANT: u16 = 0x1107;

pub(crate) const S_UDT: u16 = 0x1108;

pub(crate) const S_LDATA32: u16 = 0x110c;

pub(crate) const S_GDATA32: u16 = 0x110d;

pub(crate) const S_LPROC32: u16 = 0x110f;

pub(crate) const S_GPROC32: u16 = 0x1110;

pub(crate) const S_LOCAL: u16 = 0x113e;

pub(crate) const S_DEFRANGE_REGISTER: u16 = 0x1141;

pub(crate) const S_DEFRANGE_FRAMEPOINTER_REL: u16 = 0x1142;

pub(crate) const S_DEFRANGE_SUBFIELD_REGISTER: u16 = 0x1143;

pub(crate) const S_DEFRANGE_FRAMEPOINTER_REL_FULL_SCOPE: u16 = 0x1144;

pub(crate) const S_DEFRANGE_REGISTER_REL: u16 = 0x1145;

pub(crate) const S_LPROC32_ID: u16 = 0x1146;

pub(crate) const S_GPROC32_ID: u16 = 0x1147;

pub(crate) const S_PROC_ID_END: u16 = 0x114f;

/// The kinds of symbol records whose contents are read.
#[derive(Clone, Copy, Debug, PartialEq, Eq)]
pub(crate) enum SymLeaf {
    End,
    ProcIdEnd,
    FrameProc,
    Block,
    Constant,
    Udt,
    LData,
    GData,
    LProc,
    GProc,
    LProcId,
    GProcId,
    Local,
    RangeReg,
    RangeFrame,
    RangeSubfield,
    RangeFrameFull,
    RangeRel,
}

/// The kind of a symbol record by its number; None for a record that is passed over.
#[tactic(auto, unfolding(crate::specs::SymLeaves::leaf_of))]
pub(crate) fn leaf_of(kind: u16) -> Option<SymLeaf>
    ensures { result ≡ leaf_of kind }
{
    match kind {
        S_END => Some(SymLeaf::End),
        S_FRAMEPROC => Some(SymLeaf::FrameProc),
        S_BLOCK32 => Some(SymLeaf::Block),
        S_CONSTANT => Some(SymLeaf::Constant),
        S_UDT => Some(SymLeaf::Udt),
        S_LDATA32 => Some(SymLeaf::LData),
        S_GDATA32 => Some(SymLeaf::GData),
        S_LPROC32 => Some(SymLeaf::LProc),
        S_GPROC32 => Some(SymLeaf::GProc),
        S_LOCAL => Some(SymLeaf::Local),
        S_DEFRANGE_REGISTER => Some(SymLeaf::RangeReg),
        S_DEFRANGE_FRAMEPOINTER_REL => Some(SymLeaf::RangeFrame),
        S_DEFRANGE_SUBFIELD_REGISTER => Some(SymLeaf::RangeSubfield),
        S_DEFRANGE_FRAMEPOINTER_REL_FULL_SCOPE => Some(SymLeaf::RangeFrameFull),
        S_DEFRANGE_REGISTER_REL => Some(SymLeaf::RangeRel),
        S_LPROC32_ID => Some(SymLeaf::LProcId),
        S_GPROC32_ID => Some(SymLeaf::GProcId),
        S_PROC_ID_END => Some(SymLeaf::ProcIdEnd),
        _ => None,
    }
}
