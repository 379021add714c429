//! Theorems on the definitions, each the contract of a call that does nothing.
ghost use Rattle.names.specs.Claims.{WordSpells};
ghost use Rattle.rust_names.specs.RustText.{RustSpells};
ghost use Rattle.dwarf_entries.specs.Names.{AreReadBy, proper_name, word_in};

/// The proper name in a text is the one whose spelling it is, and none where it is that of none; and
/// so with words.
#[tactic(auto, using(crate::proofs::ProperNames::names_read, crate::proofs::ProperNames::words_read))]
pub fn names_are_those_of_their_texts()
    ensures names { AreReadBy RustSpells proper_name }
    ensures words { AreReadBy WordSpells word_in }
{}
