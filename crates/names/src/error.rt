//! Why a text is no name.
use rv_io::Memory;
use std::alloc::AllocError;
use thiserror::Error;

/// Why a text was not read.
#[derive(Clone, Copy, Debug, PartialEq, Eq, Error)]
pub enum NameErr {
    /// No name has this text. `at` is the length in bytes of the longest prefix of the text with which some name's text
    /// begins; it saturates.
    #[error("no name from byte {at} on")]
    BadName {
        /// Bytes before the error.
        at: u32,
    },
    /// Memory has run out.
    #[error("out of memory")]
    Memory,
}

impl From<Memory> for NameErr {
    ghost use Rattle.names.specs.declared.error.NameErr.{NameErr};
    ghost use Rattle.std.specs.Prelude.{◌≡◌};

    ghost from_gives = { λ _ e. e ≡ NameErr.Memory };

    /// Out of memory, as an error of reading.
    fn from(_e: Memory) -> NameErr {
        NameErr::Memory
    }
}
