//! Theorems on expressions and lists, each the contract of a call that does nothing.
ghost use Rattle.std.specs.Prelude.{List as Seq, ℕ};
ghost use Rattle.rv_bytes.specs.Rules.{outside};
ghost use Rattle.rv_bytes.specs.Sections.{HasOneAnswer};
ghost use Rattle.expr_bytes.specs.declared.place.Frame.{Frame};
ghost use Rattle.expr_eval.specs.Addresses.{Addresses};
ghost use Rattle.dwarf_locations.specs.Laws.{HasList, HasOneReading, HasReading};
ghost use Rattle.dwarf_locations.specs.Lists.{location_list};

/// An expression says at most one location, or none, or else one operation is the first that breaks a rule,
/// and by one rule, and never both. So [`read_loc`](crate::read_loc) has one answer, if memory lasts.
pub fn expressions_have_one_reading()
    ensures { (frame : Frame) (addrs : Addresses) (bytes : Seq ℕ) → HasOneReading frame addrs bytes }
{}

/// At a place of a section at most one location list begins, and it says one thing, or else one item is first
/// invalid, and by one rule, and never both. So [`read_locations`](crate::read_locations) has one answer, if
/// memory lasts.
pub fn lists_are_read_one_way()
    ensures { (frame : Frame) (addrs : Addresses) (base : ℕ) → HasOneAnswer outside (location_list frame addrs base) }
{}

/// No expression is without a location that it says, or none, or a first operation that breaks a rule.
pub fn expressions_have_a_reading()
    ensures { (frame : Frame) (addrs : Addresses) (bytes : Seq ℕ) → HasReading frame addrs bytes }
{}

/// No place of a section is without a location list that begins there, or a first error.
pub fn lists_have_a_reading()
    ensures { (frame : Frame) (addrs : Addresses) (base : ℕ) (section : Seq ℕ) (at : ℕ) → HasList frame addrs base section at }
{}
