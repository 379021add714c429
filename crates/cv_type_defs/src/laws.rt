//! Theorems on what type records say, each the contract of a call that does nothing.
ghost use Rattle.std.specs.Prelude.{List};
ghost use Rattle.cv_symbol_records.specs.declared.kinds.SymRec.{SymRec};
ghost use Rattle.cv_type_records.specs.declared.kinds.TypeRec.{TypeRec};
ghost use Rattle.cv_type_defs.specs.Said.{HaveOneMeaning};

/// Type records beside symbols define at most one list of types, are refused by at most one rule at one
/// place, and never both.
#[tactic(auto, using(crate::proofs::OneMeaning::records_meaning))]
pub fn type_records_have_one_meaning()
    ensures { (records : List TypeRec) → (symbols : List SymRec) → HaveOneMeaning records symbols }
{}
