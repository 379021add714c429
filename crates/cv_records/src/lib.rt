//! CodeView type records and symbol records.
#![tactic(auto)]

pub use cv_record_writer::put_symbol;
pub use cv_symbol_records::{
    CvGap, CvRange, Datum, Proc, SymKind, SymRec, read_symbols, symbol_records_have_one_reading,
};
pub use cv_type_records::{Member, TypeKind, TypeRec, read_types, type_records_have_one_reading};
pub use cv_type_writer::{put_type, written_types_are_read};
