//! Files by their names.
ghost use Rattle.std.specs.Prelude.{◌≡◌, ◌≤◌, ℕ, Option, IfErr, OnOk, OnErr};
ghost use Rattle.rv_io.specs.Files.{Files, Fetches, FetchCause};
ghost use Rattle.rv_io.specs.declared.inputs.FetchErr.TheVariants.{Memory as OutOfMemory};

use crate::buf::Buf;
use crate::memory;
use thiserror::Error;

/// Why a file was not fetched.
#[derive(Clone, Copy, Debug, PartialEq, Eq, Error)]
pub enum FetchErr {
    /// There is no file of this name, or it can't be opened.
    #[error("no such file")]
    NoFile,
    /// A read failed, and was counted.
    #[error("a read failed")]
    Failed,
    /// Memory has run out.
    #[error("out of memory")]
    Memory,
}

impl From<memory::Memory> for FetchErr {
    ghost from_gives = { λ _ e. e ≡ OutOfMemory };

    fn from(_e: memory::Memory) -> FetchErr {
        FetchErr::Memory
    }
}

/// Files by their names, and a count of the reads that failed.
pub trait Inputs {
    /// The files, where they are told.
    ghost files: { Self → Option Files };
    /// How often a read has failed. It begins at 0, and saturates at 2^64 - 1.
    ghost faults: { Self → ℕ };

    /// Appends the first `most` bytes of the file, or all where it is shorter.
    fn fetch(&mut self, name: &str, most: usize, into: &mut Buf) -> Result<(), FetchErr>
        // What is fetched is the front of the file.
        ensures bytes { OnOk result (Fetches (files self.old) name.now most into.old into.new) }

        // A refusal has its cause, and leaves the buffer as it was.
        ensures cause { IfErr result (λ e. FetchCause e (files self.old) name.now (faults self.old) (faults self.new)) }
        ensures same { OnErr result (into.new ≡ into.old) }

        // The count never falls, and the files are the same.
        ensures later { faults self.old ≤ faults self.new }
        ensures files { files self.new ≡ files self.old };
}
