//! Why bytes can't be read.
ghost use Rattle.std.specs.Prelude.{◌≡◌};
ghost use Rattle.rv_bytes.specs.declared.err.DwErr.{DwErr};
ghost use Rattle.rv_bytes.specs.Reads.{refusal, IsSameRule};

use crate::rule;
use rv_io::Memory;
use thiserror::Error;

/// Why an item could not be read. `at` is the place where the item begins, in bytes from the front.
#[derive(Clone, Copy, Debug, PartialEq, Eq, Error)]
pub enum CutErr {
    /// The bytes end inside the item.
    #[error("the bytes end inside the item at {at}")]
    Short { at: usize },
    /// A LEB128 number has an eleventh byte, or bits past the 64th (DWARF 5, 7.6).
    #[error("the number at {at} is too wide")]
    Wide { at: usize },
    /// No zero byte follows.
    #[error("no zero byte follows {at}")]
    NoZero { at: usize },
    /// The kind of a numeric leaf is unknown.
    #[error("no numeric leaf is known by the kind at {at}")]
    Kind { at: usize },
    /// The bytes before a zero byte aren't UTF-8, or are more than 65,535.
    #[error("the bytes at {at} are no text")]
    NoText { at: usize },
}

impl CutErr {
    /// The same rule, broken by the item that begins at `at`.
    pub(crate) fn of_item(self, at: usize) -> CutErr
        ensures { IsSameRule self at result }
    {
        match self {
            CutErr::Short { .. } => CutErr::Short { at },
            CutErr::Wide { .. } => CutErr::Wide { at },
            CutErr::NoZero { .. } => CutErr::NoZero { at },
            CutErr::Kind { .. } => CutErr::Kind { at },
            CutErr::NoText { .. } => CutErr::NoText { at },
        }
    }
}

/// Why debug information is refused: where the first invalid item begins, in bytes from the front, and the
/// number of the rule that it breaks.
#[derive(Clone, Copy, Debug, PartialEq, Eq, Error)]
pub enum DwErr {
    /// The item at `offset` breaks a rule.
    #[error("offset {offset} breaks rule {rule}")]
    Refused { offset: u64, rule: u8 },
    /// Memory has run out.
    #[error("out of memory")]
    Memory,
}

impl From<CutErr> for DwErr {
    ghost from_gives = { λ e d. d ≡ refusal e };

    fn from(e: CutErr) -> DwErr {
        let (at, rule) = match e {
            CutErr::Short { at } => (at, rule::SHORT),
            CutErr::Wide { at } => (at, rule::WIDE),
            CutErr::NoZero { at } => (at, rule::NO_ZERO),
            CutErr::Kind { at } => (at, rule::UNKNOWN_LEAF),
            CutErr::NoText { at } => (at, rule::NO_TEXT),
        };
        DwErr::Refused {
            offset: at as u64,
            rule,
        }
    }
}

impl From<Memory> for DwErr {
    ghost from_gives = { λ _ d. d ≡ DwErr.Memory };

    fn from(_e: Memory) -> DwErr {
        DwErr::Memory
    }
}
