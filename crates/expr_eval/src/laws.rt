//! Theorems on operations, each the contract of a call that does nothing.
ghost use Rattle.std.specs.Prelude.{ℕ};
ghost use Rattle.expr_eval.specs.Results.{LastDetermines};
ghost use Rattle.expr_eval.specs.Operands.{FindOperands, LackOnlyMissing};

/// The meaning of a list of operations is the meaning of all but its last, then of the last, and this determines it.
pub fn last_is_last()
    ensures { (ptr : ℕ) → LastDetermines ptr }
{}

/// No operation of an expression lacks an operand, or finds more than 64 numbers.
pub fn operands_are_there()
    ensures { FindOperands }
{}

/// An operation that finds its operands has no result exactly where what it names is missing, and an expression exactly
/// where it comes to such an operation.
pub fn only_what_is_missing_has_no_result()
    ensures { LackOnlyMissing }
{}
