//! Symbol records of CodeView, as they are in `.debug$S`.
#![tactic(auto)]

mod fields;
mod kinds;
mod laws;
mod leaves;
mod ranges;
mod read;
mod sections;

pub use kinds::{CvGap, CvRange, Datum, Proc, SymKind, SymRec};
pub use laws::symbol_records_have_one_reading;
pub use sections::read_symbols;
