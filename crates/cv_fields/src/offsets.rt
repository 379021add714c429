//! Numbers that fit 32 bits.
ghost use Rattle.std.specs.Prelude.{◌≡◌};
ghost use Rattle.cv_type_defs.specs.Fields.{u32_of, u32_or_0};

/// The first number past 32 bits.
const PAST: i128 = 1 << 32;

/// The number, where it fits 32 bits without a sign. Takes no memory.
pub fn u32_of(number: i128) -> Option<u32>
    ensures { result ≡ u32_of number }
{
    if number >= 0 && number < PAST {
        Some(number as u32)
    } else {
        None
    }
}

/// The same, where 0 stands for every other number. Takes no memory.
pub fn u32_or_0(number: i128) -> u32
    ensures { result ≡ u32_or_0 number }
{
    u32_of(number).unwrap_or(0)
}
