//! The first law that fails, with its first item.
ghost use Rattle.std.specs.Prelude.{◌≡◌, ◌-◌, ◌^◌, min};
ghost use Rattle.layout_set.specs.Found.{parts, earlier};

use rv_io::Memory;
use std::alloc::AllocError;
use thiserror::Error;

/// What a law is about: the whole set, or the type, static or function at this place.
#[derive(Clone, Copy, Debug, PartialEq, Eq)]
pub enum Item {
    Whole,
    Def(u32),
    Static(u32),
    Func(u32),
}

/// Why a set was not found to keep the laws.
#[derive(Clone, Copy, Debug, PartialEq, Eq, Error)]
pub enum CheckErr {
    /// The lowest law that fails, and the first item of which it is false. A place past the end
    /// of its type stands at that end.
    #[error("law {law} fails")]
    Breach { law: u8, at: Item },
    /// Memory has run out.
    #[error("out of memory")]
    Memory,
}

impl From<AllocError> for CheckErr {
    ghost use Rattle.std.specs.Prelude.{◌≡◌};
    ghost use Rattle.layout_set.specs.declared.breach.CheckErr.TheVariants.{Memory as OutOfMemory};

    ghost from_gives = { λ _ e. e ≡ OutOfMemory };

    fn from(_e: AllocError) -> CheckErr {
        CheckErr::Memory
    }
}

impl From<Memory> for CheckErr {
    ghost use Rattle.std.specs.Prelude.{◌≡◌};
    ghost use Rattle.layout_set.specs.declared.breach.CheckErr.TheVariants.{Memory as OutOfMemory};

    ghost from_gives = { λ _ e. e ≡ OutOfMemory };

    fn from(_e: Memory) -> CheckErr {
        CheckErr::Memory
    }
}

/// A place as an item names it.
fn place_named(place: usize) -> u32
    ensures { result ≡ min place (2 ^ 32 - 1) }
{
    u32::try_from(place).unwrap_or(u32::MAX)
}

/// What is found of a law, from what is found of the whole, of the types, of the statics and of the functions.
pub fn breach(
    law: u8,
    whole: bool,
    def: Option<usize>,
    fixed: Option<usize>,
    func: Option<usize>,
) -> Result<(), CheckErr>
    ensures { result ≡ parts law whole def fixed func }
{
    let at = match (whole, def, fixed, func) {
        (false, _, _, _) => Item::Whole,
        (true, Some(place), _, _) => Item::Def(place_named(place)),
        (true, None, Some(place), _) => Item::Static(place_named(place)),
        (true, None, None, Some(place)) => Item::Func(place_named(place)),
        (true, None, None, None) => return Ok(()),
    };
    Err(CheckErr::Breach { law, at })
}

/// The earlier of two places.
pub fn earlier(a: Option<usize>, b: Option<usize>) -> Option<usize>
    ensures { result ≡ earlier a b }
{
    match (a, b) {
        (None, other) => other,
        (Some(i), None) => Some(i),
        (Some(i), Some(j)) => Some(i.min(j)),
    }
}
