//! Theorems on tables and attributes, each the contract of a call that does nothing.
ghost use Rattle.rv_bytes.specs.Forms.{IsDefinite};
ghost use Rattle.rv_bytes.specs.Sections.{HasOneAnswer};
ghost use Rattle.dwarf_abbrev.specs.Attrs.{attr_form};
ghost use Rattle.dwarf_abbrev.specs.Rules.{table_outside};
ghost use Rattle.dwarf_abbrev.specs.Tables.{table};
ghost use Rattle.dwarf_abbrev.specs.declared.attr.Spec.{Spec};

/// Bytes begin with at most one table, and with at most one value of a form, or else one item is first
/// invalid, and by one rule. So `read_table` has one answer at a place of a section, if memory lasts.
pub fn a_table_is_read_one_way()
    ensures table { IsDefinite table }
    ensures section { HasOneAnswer table_outside table }
    ensures attributes { (spec : Spec) → IsDefinite (attr_form spec) }
{}
