//! Why a reader refuses sections, in either format.
use rv_io::Memory;
use std::alloc::AllocError;
use thiserror::Error;

/// A section of debug information, or the bundle that holds the sections.
#[derive(Clone, Copy, Debug, PartialEq, Eq)]
pub enum Section {
    Abbrev,
    Info,
    Str,
    LineStr,
    StrOffsets,
    Addr,
    LocLists,
    RngLists,
    DebugT,
    DebugS,
    Bundle,
}

/// The rule that is broken, and where: so many bytes from the start of a section.
#[derive(Clone, Copy, Debug, PartialEq, Eq)]
pub struct Refusal {
    pub section: Section,
    pub offset: u64,
    pub rule: u8,
}

/// Why no set was read.
#[derive(Clone, Copy, Debug, PartialEq, Eq, Error)]
pub enum ReadErr {
    /// The sections break a rule.
    #[error("the sections are refused")]
    Refused(Refusal),
    /// Memory has run out.
    #[error("out of memory")]
    Memory,
}

impl From<AllocError> for ReadErr {
    ghost use Rattle.std.specs.Prelude.{◌≡◌};
    ghost use Rattle.layout_set.specs.declared.refusal.ReadErr.TheVariants.{Memory as OutOfMemory};

    ghost from_gives = { λ _ e. e ≡ OutOfMemory };

    fn from(_e: AllocError) -> ReadErr {
        ReadErr::Memory
    }
}

impl From<Memory> for ReadErr {
    ghost use Rattle.std.specs.Prelude.{◌≡◌};
    ghost use Rattle.layout_set.specs.declared.refusal.ReadErr.TheVariants.{Memory as OutOfMemory};

    ghost from_gives = { λ _ e. e ≡ OutOfMemory };

    fn from(_e: Memory) -> ReadErr {
        ReadErr::Memory
    }
}
