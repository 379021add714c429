//! The theorem on symbol records, the contract of a call that does nothing.
ghost use Rattle.cv_parts.specs.Laws.{HasOneReading};
ghost use Rattle.cv_symbol_records.specs.Subsections.{symbols};

/// A section is at most one list of symbol records, or one item is first invalid, and by one rule. So
/// [`read_symbols`](crate::read_symbols) has one answer, if memory lasts.
pub fn symbol_records_have_one_reading()
    ensures { HasOneReading symbols }
{}
