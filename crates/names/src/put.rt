//! Numbers of names, put into a buffer.
ghost use Rattle.std.specs.Prelude.{◌≡◌, ◌++◌, length, take, decimal, OnOk, OnErr};
ghost use Rattle.names.specs.Signs.{sign_text};

use rv_io::{Buf, Memory};

/// Appends a number with its sign. Out of memory, what stood before stays in front.
pub fn put_signed(minus: bool, number: u128, out: &mut Buf) -> Result<(), Memory>
    ensures put { OnOk result (out.new ≡ out.old ++ (sign_text minus ++ decimal number)) }
    ensures front { OnErr result (take (length out.old) out.new ≡ out.old) }
{
    if minus {
        out.put(b"-")?;
    }
    out.put_decimal(number)
}
