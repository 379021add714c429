//! Why a line of a file of cases can't be followed.
use rv_io::Memory;
use std::alloc::{AllocError, AllocFailed};

/// What is wrong with a line of a file of cases.
#[derive(Clone, Copy, Debug, PartialEq, Eq)]
pub enum Mistake {
    /// The directive or the row is not of the form.
    NotOfTheForm,
    /// The line belongs into a block of text, and none is open.
    OutsideABlock,
    /// The case has this verdict already.
    SecondVerdict,
    /// What was set before has no verdict.
    NoVerdict,
    /// Out of memory.
    Memory,
}

impl Mistake {
    /// What a report says of it.
    pub fn message(self) -> &'static str {
        match self {
            Mistake::NotOfTheForm => "  not of the form\n",
            Mistake::OutsideABlock => "  outside a block\n",
            Mistake::SecondVerdict => "  a second verdict of one kind\n",
            Mistake::NoVerdict => "  what was set before has no verdict\n",
            Mistake::Memory => "  out of memory\n",
        }
    }
}

impl From<AllocError> for Mistake {
    fn from(_e: AllocError) -> Mistake {
        Mistake::Memory
    }
}

impl<T: Drop> From<AllocFailed<T>> for Mistake {
    fn from(_e: AllocFailed<T>) -> Mistake {
        Mistake::Memory
    }
}

impl From<Memory> for Mistake {
    fn from(_e: Memory) -> Mistake {
        Mistake::Memory
    }
}
