//! Why a snapshot file cannot be read.
ghost use Rattle.std.specs.Prelude.{◌≡◌};

use rv_io::Memory;
use thiserror::Error;

/// What is wrong with a snapshot file, or that memory ran out. Lines are counted from 1, and the count saturates at its
/// type's end.
#[derive(Debug, Drop, Error)]
pub enum SnapErr {
    /// The first line that breaks a rule, and the lowest rule that it breaks: 1 no LF at its end, or not UTF-8; 2 its first
    /// word cannot stand there, or the file ends where a line has to stand; 3 words missing or too many; 4 a number is
    /// spelled wrongly or too wide; 5 the register is unknown or not above the one before; 6 the bytes are not one or more
    /// pairs of digits; 7 the segment passes 2^64.
    #[error("line {line} breaks rule {rule}")]
    BadLine { line: u32, rule: u8 },
    /// A line of memory without a fault of its own begins below the end of the segment before.
    #[error("the segment of line {line} begins below the end of the one before")]
    Overlap { line: u32 },
    #[error("out of memory")]
    Memory,
}

impl From<Memory> for SnapErr {
    ghost use Rattle.snapshot_file.specs.declared.fault.SnapErr.TheVariants.{Memory as OutOfMemory};

    ghost from_gives = { λ _ e. e ≡ OutOfMemory };

    fn from(_e: Memory) -> SnapErr {
        SnapErr::Memory
    }
}
