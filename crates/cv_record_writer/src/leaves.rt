//! The kinds of symbol records by their numbers.
ghost use Rattle.std.specs.Prelude.{◌≡◌};
ghost use Rattle.cv_record_writer.specs.SymbolBytes.{number_of};

use cv_symbol_records::SymKind;

const S_END: u16 = 0x0006;

const S_FRAMEPROC: u16 = 0x1012;

const S_BLOCK32: u16 = 0x1103;

const S_CONSTANT: u16 = 0x1107;

const S_UDT: u16 = 0x1108;

const S_LDATA32: u16 = 0x110c;

const S_GDATA32: u16 = 0x110d;

const S_LPROC32: u16 = 0x110f;

const S_GPROC32: u16 = 0x1110;

const S_LOCAL: u16 = 0x113e;

const S_DEFRANGE_REGISTER: u16 = 0x1141;

const S_DEFRANGE_FRAMEPOINTER_REL: u16 = 0x1142;

const S_DEFRANGE_SUBFIELD_REGISTER: u16 = 0x1143;

const S_DEFRANGE_FRAMEPOINTER_REL_FULL_SCOPE: u16 = 0x1144;

const S_DEFRANGE_REGISTER_REL: u16 = 0x1145;

const S_LPROC32_ID: u16 = 0x1146;

const S_GPROC32_ID: u16 = 0x1147;

const S_PROC_ID_END: u16 = 0x114f;

/// The number of a symbol record's kind.
pub(crate) fn symbol_number(kind: &SymKind) -> u16
    ensures { result ≡ number_of kind.now }
{
    match kind {
        SymKind::End => S_END,
        SymKind::ProcIdEnd => S_PROC_ID_END,
        SymKind::FrameProc { .. } => S_FRAMEPROC,
        SymKind::Block { .. } => S_BLOCK32,
        SymKind::Constant { .. } => S_CONSTANT,
        SymKind::Udt { .. } => S_UDT,
        SymKind::LData(_) => S_LDATA32,
        SymKind::GData(_) => S_GDATA32,
        SymKind::LProc(_) => S_LPROC32,
        SymKind::GProc(_) => S_GPROC32,
        SymKind::LProcId(_) => S_LPROC32_ID,
        SymKind::GProcId(_) => S_GPROC32_ID,
        SymKind::Local { .. } => S_LOCAL,
        SymKind::RangeReg { .. } => S_DEFRANGE_REGISTER,
        SymKind::RangeFrame { .. } => S_DEFRANGE_FRAMEPOINTER_REL,
        SymKind::RangeSubfield { .. } => S_DEFRANGE_SUBFIELD_REGISTER,
        SymKind::RangeFrameFull { .. } => S_DEFRANGE_FRAMEPOINTER_REL_FULL_SCOPE,
        SymKind::RangeRel { .. } => S_DEFRANGE_REGISTER_REL,
        SymKind::Other(number) => *number,
    }
}
