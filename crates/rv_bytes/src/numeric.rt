//! Numeric leaves of CodeView, LF_NUMERIC.
ghost use Rattle.std.specs.Prelude.{◌≡◌, ◌≤◌, IfOk, IfErr, OnErr};
ghost use Rattle.rv_bytes.specs.Leaves.{leaf_of, leaf_value, numeric};
ghost use Rattle.rv_bytes.specs.NumberReaders.{read_numeric, read_leaf};
ghost use Rattle.rv_bytes.specs.Reads.{Takes, IsRefused};
ghost use Rattle.rv_bytes.specs.Results.{Gives};

use crate::cut::Cut;
use crate::err::CutErr;

/// How the number of a numeric leaf is laid out after its kind.
#[derive(Clone, Copy, Debug, PartialEq, Eq)]
pub(crate) struct Leaf {
    /// The kind, from 0x8000 on.
    pub(crate) kind: u16,
    /// How many bytes the number has.
    pub(crate) width: u8,
    /// Whether the number is in two's complement.
    pub(crate) is_signed: bool,
}

pub(crate) const LF_CHAR: Leaf = Leaf {
    kind: 0x8000,
    width: 1,
    is_signed: true,
};

pub(crate) const LF_SHORT: Leaf = Leaf {
    kind: 0x8001,
    width: 2,
    is_signed: true,
};

pub(crate) const LF_USHORT: Leaf = Leaf {
    kind: 0x8002,
    width: 2,
    is_signed: false,
};

pub(crate) const LF_LONG: Leaf = Leaf {
    kind: 0x8003,
    width: 4,
    is_signed: true,
};

pub(crate) const LF_ULONG: Leaf = Leaf {
    kind: 0x8004,
    width: 4,
    is_signed: false,
};

pub(crate) const LF_QUADWORD: Leaf = Leaf {
    kind: 0x8009,
    width: 8,
    is_signed: true,
};

pub(crate) const LF_UQUADWORD: Leaf = Leaf {
    kind: 0x800a,
    width: 8,
    is_signed: false,
};

impl<'a> Cut<'a> {
    /// Reads a numeric leaf of CodeView (LF_NUMERIC): a kind in two bytes, and by it a number.
    ///
    /// Refused as `Short` where the bytes end inside it, and as `Kind` where its kind is unknown,
    /// both at its first byte. Takes no memory.
    pub fn numeric(&mut self) -> Result<i128, CutErr>
        // What is read stands at the place, and the place is just past it.
        ensures taken { IfOk result (Takes numeric self.old self.new) }

        // A refusal has its cause, and leaves the place as it was.
        ensures refused { IfErr result (IsRefused numeric self.old) }
        ensures same { OnErr result (self.new ≡ self.old) }

        // The reader of the form gives the same, for the proofs of callers.
        ensures reads { Gives (read_numeric self.old.at self.old.rest) result self.new }
    {
        let at = self.at();
        let mut cut = self.copy();
        let kind = cut.u16()?;
        match cut.leaf(kind) {
            Ok(n) => {
                *self = cut;
                Ok(n)
            }
            Err(e) => Err(e.of_item(at)),
        }
    }

    /// What follows the kind of a numeric leaf.
    fn leaf(&mut self, kind: u16) -> Result<i128, CutErr>
        ensures { Gives (read_leaf kind self.old.at self.old.rest) result self.new }
    {
        if kind < 0x8000 {
            return Ok(i128::from(kind));
        }
        let Some(leaf) = leaf_of(kind) else {
            return Err(CutErr::Kind { at: self.at() });
        };
        let n = self.number(leaf.width)?;
        Ok(leaf_value(leaf, n))
    }
}

/// The layout that is meant by a kind.
fn leaf_of(kind: u16) -> Option<Leaf>
    ensures { result ≡ leaf_of kind }
{
    match kind {
        0x8000 => Some(LF_CHAR),
        0x8001 => Some(LF_SHORT),
        0x8002 => Some(LF_USHORT),
        0x8003 => Some(LF_LONG),
        0x8004 => Some(LF_ULONG),
        0x8009 => Some(LF_QUADWORD),
        0x800a => Some(LF_UQUADWORD),
        _ => None,
    }
}

/// The number that these bits are.
fn leaf_value(leaf: Leaf, bits: u64) -> i128
    requires low { 1 ≤ leaf.width }
    requires high { leaf.width ≤ 8 }
    ensures { result ≡ leaf_value leaf bits }
{
    let n = i128::from(bits);
    if leaf.is_signed && bits >= 1 << (8 * leaf.width - 1) {
        n - (1u128 << (8 * leaf.width)) as i128
    } else {
        n
    }
}
