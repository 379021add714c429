//! Theorems on the forms, each the contract of a call that does nothing.
ghost use Rattle.rv_bytes.specs.Laws.{AreDefinite, HaveOneShortest};

/// Bytes begin with at most one number, leaf or text, have a first error in at most one way, and
/// never both.
pub fn numbers_have_one_reading()
    ensures { AreDefinite }
{}

/// Two shortest LEB128 forms of one number are the same bytes (DWARF 5, 7.6).
pub fn one_shortest_form()
    ensures { HaveOneShortest }
{}
