//! The theorem on type records, the contract of a call that does nothing.
ghost use Rattle.cv_parts.specs.Laws.{HasOneReading};
ghost use Rattle.cv_type_records.specs.Types.{types};

/// A section is at most one list of type records, or one item is first invalid, and by one rule. So
/// [`read_types`](crate::read_types) has one answer, if memory lasts.
pub fn type_records_have_one_reading()
    ensures { HasOneReading types }
{}
