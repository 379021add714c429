//! Why a file is no layout file.
use rv_io::Memory;
use thiserror::Error;

/// What a layout has a greatest number of.
#[derive(Clone, Copy, Debug, PartialEq, Eq)]
pub enum Count {
    /// Types: 20,000.
    Types,
    /// Params, fields, cases, variants, scopes, zones, entries, pieces and operations: 40,000 together.
    Parts,
    /// Statics and the variables of functions: 20,000 together.
    Variables,
}

/// Why a file is no layout file.
#[derive(Clone, Copy, Debug, PartialEq, Eq, Error)]
pub enum LayoutErr {
    /// The first line that breaks a rule, from 1, and the lowest rule that it breaks.
    #[error("line {line} breaks rule {rule}")]
    BadLine { line: u32, rule: u8 },
    /// The first line with which the layout has too many of these.
    #[error("too many {which:?}")]
    Limit { which: Count },
    /// Memory has run out.
    #[error("out of memory")]
    Memory,
}

impl From<Memory> for LayoutErr {
    ghost use Rattle.std.specs.Prelude.{◌≡◌};
    ghost use Rattle.layout_reader.specs.declared.layout_err.LayoutErr.{LayoutErr};

    ghost from_gives = { λ _ e. e ≡ LayoutErr.Memory };

    fn from(_e: Memory) -> LayoutErr {
        LayoutErr::Memory
    }
}
