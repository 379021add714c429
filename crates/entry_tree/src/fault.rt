//! Why an entry was not added.
use std::alloc::{AllocError, AllocFailed};
use thiserror::Error;

/// Why an entry was not added to a tree.
#[derive(Clone, Copy, Debug, PartialEq, Eq, Error)]
pub enum TreeErr {
    /// The entry would have a depth of 257, where a root has depth 1.
    #[error("entries are nested more than 256 deep")]
    Deep,
    /// The tree has 8,000,000 entries.
    #[error("more than 8000000 entries")]
    Full,
    /// Memory has run out.
    #[error("out of memory")]
    Memory,
}

impl<T: Drop> From<AllocFailed<T>> for TreeErr {
    ghost use Rattle.entry_tree.specs.declared.fault.TreeErr.{TreeErr};
    ghost use Rattle.std.specs.Prelude.{◌≡◌};

    ghost from_gives = { λ _ e. e ≡ TreeErr.Memory };

    fn from(_e: AllocFailed<T>) -> TreeErr {
        TreeErr::Memory
    }
}

impl From<AllocError> for TreeErr {
    ghost use Rattle.entry_tree.specs.declared.fault.TreeErr.{TreeErr};
    ghost use Rattle.std.specs.Prelude.{◌≡◌};

    ghost from_gives = { λ _ e. e ≡ TreeErr.Memory };

    fn from(_e: AllocError) -> TreeErr {
        TreeErr::Memory
    }
}
