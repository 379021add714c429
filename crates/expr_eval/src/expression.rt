//! Expressions: lists of operations that fit a stack of 64 numbers.
ghost use Rattle.std.specs.Prelude.{◌≡◌, MatchOption};
ghost use Rattle.expr_eval.specs.Invariant.{AreOps};

use crate::checks::are_ops;
use crate::operation::Op;
use rv_io::List;
use std::marker::Model;

/// 1 to 64 operations that never lack an operand, never pass 64 numbers, and leave a value. `StackValue` is only last, a
/// `Deref` is of 1 to 8 bytes, and a `RegPlus` names a general register.
#[derive(Debug, Drop)]
pub struct Ops {
    ops: List<Op>,
}

impl Model for Ops {
    ghost use Rattle.std.specs.Prelude.{List};
    ghost use Rattle.expr_eval.specs.declared.operation.Op.{Op};
    ghost use Rattle.expr_eval.specs.Invariant.{AreOps};

    ghost Value = { List Op };

    ghost view = { λ o. o.ops };

    ghost invariant = { λ o. AreOps o.ops };
}

impl Ops {
    /// These operations; None exactly where they are not `AreOps`. Takes no memory.
    pub fn new(ops: List<Op>) -> Option<Ops>
        ensures { MatchOption result (AreOps ops → ⊥) (λ o. (o ≡ ops) × AreOps ops) }
    {
        if are_ops(ops.as_slice()) {
            Some(Ops { ops })
        } else {
            None
        }
    }

    /// The operations. Takes no memory.
    pub fn as_slice(&self) -> &[Op]
        ensures same { result.now ≡ self.now }
        ensures fit { AreOps self.now }
    {
        self.ops.as_slice()
    }
}
