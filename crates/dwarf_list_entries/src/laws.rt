//! Theorems on entries, each the contract of a call that does nothing.
ghost use Rattle.rv_bytes.specs.Forms.{IsDefinite};
ghost use Rattle.expr_eval.specs.Addresses.{Addresses};
ghost use Rattle.dwarf_list_entries.specs.Entries.{range_entry};
ghost use Rattle.dwarf_list_entries.specs.Locations.{location_entry};

/// Bytes begin with at most one entry of a range list, and with at most one of a location list, or else
/// one rule is broken, and never both.
pub fn entries_are_read_one_way()
    ensures ranges { (addrs : Addresses) → IsDefinite (range_entry addrs) }
    ensures locations { (addrs : Addresses) → IsDefinite (location_entry addrs) }
{}
