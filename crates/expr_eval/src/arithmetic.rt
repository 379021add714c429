//! Shifts of 64-bit numbers by numbers that may be 64 or more.
ghost use Rattle.std.specs.Prelude.{◌≡◌};
ghost use Rattle.expr_eval.specs.Results.{shl, shr, shra};

/// The number shifted to the left by so many bits.
pub(crate) fn shl(number: u64, by: u64) -> u64
    ensures { result ≡ shl 8 number by }
{
    if by < 64 { number << by } else { 0 }
}

/// The number shifted to the right by so many bits.
pub(crate) fn shr(number: u64, by: u64) -> u64
    ensures { result ≡ shr 8 number by }
{
    if by < 64 { number >> by } else { 0 }
}

/// The number shifted to the right by so many bits, with copies of its sign bit coming in.
pub(crate) fn shra(number: u64, by: u64) -> u64
    ensures { result ≡ shra 8 number by }
{
    if number < 1 << 63 {
        shr(number, by)
    } else {
        !shr(!number, by)
    }
}
