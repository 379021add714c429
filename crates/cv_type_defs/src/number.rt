//! The numbers of cases and of selectors.
ghost use Rattle.std.specs.Prelude.{◌≡◌, ◌<◌, ◌*◌, ◌^◌};
ghost use Rattle.cv_type_defs.specs.Numbers.{modulo_bytes, of_halves};
ghost use Rattle.layout_set.specs.Primitives.{prim_bytes};

use layout_set::Primitive;

/// The weight of a high half.
const HALF: u128 = 1 << 64;

/// A number modulo 2^(8 * s), where s is the size of the primitive in bytes, and that of a pointer is 8.
/// Takes no memory.
pub fn modulo(prim: Primitive, number: i128) -> u128
    ensures value { result ≡ modulo_bytes (prim_bytes 8 prim) number }
    ensures fits { result < 2 ^ (8 * prim_bytes 8 prim) }
{
    match prim {
        Primitive::Unit => number.rem_euclid(1).unsigned_abs(),
        Primitive::Bool | Primitive::I8 | Primitive::U8 => {
            number.rem_euclid(1 << 8).unsigned_abs()
        }
        Primitive::I16 | Primitive::U16 => number.rem_euclid(1 << 16).unsigned_abs(),
        Primitive::Char | Primitive::I32 | Primitive::U32 | Primitive::F32 => {
            number.rem_euclid(1 << 32).unsigned_abs()
        }
        Primitive::I64 | Primitive::U64 | Primitive::Isize | Primitive::Usize | Primitive::F64 =>
            number.rem_euclid(1 << 64).unsigned_abs(),
        Primitive::I128 | Primitive::U128 => number.cast_unsigned(),
    }
}

/// The number of 128 bits that has these halves, each modulo 2^64. Takes no memory.
pub fn of_halves(lo: i128, hi: i128) -> u128
    ensures { result ≡ of_halves lo hi }
{
    modulo(Primitive::U64, hi) * HALF + modulo(Primitive::U64, lo)
}
