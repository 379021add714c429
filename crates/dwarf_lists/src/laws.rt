//! Theorems on indexes and lists, each the contract of a call that does nothing.
ghost use Rattle.std.specs.Prelude.{ℕ};
ghost use Rattle.rv_bytes.specs.Forms.{IsDefinite};
ghost use Rattle.rv_bytes.specs.Rules.{outside};
ghost use Rattle.rv_bytes.specs.Sections.{HasOneAnswer};
ghost use Rattle.expr_eval.specs.Addresses.{Addresses};
ghost use Rattle.dwarf_lists.specs.Texts.{IndexHasOneAnswer};
ghost use Rattle.dwarf_lists.specs.Places.{IndexHasOneList};
ghost use Rattle.dwarf_lists.specs.Ranges.{range_list};
ghost use Rattle.dwarf_lists.specs.Locations.{location_list};

/// Each index has one text, or one refusal is right, and never both. So
/// [`indexed_text`](crate::indexed_text) has one answer.
pub fn an_index_has_one_answer()
    ensures { IndexHasOneAnswer }
{}

/// An index leads to at most one list. So [`indexed_list`](crate::indexed_list) has one answer.
pub fn an_index_has_one_list()
    ensures { IndexHasOneList }
{}

/// At a place of a section at most one list begins, and it says one thing, or else one entry is first
/// invalid, and by one rule, and never both. So [`read_ranges`](crate::read_ranges) and
/// [`read_location_list`](crate::read_location_list) have one answer, if memory lasts.
pub fn lists_are_read_one_way()
    ensures ranges { (addrs : Addresses) (base : ℕ) → HasOneAnswer outside (range_list addrs base) }
    ensures locations { (addrs : Addresses) (base : ℕ) → HasOneAnswer outside (location_list addrs base) }
{}
