//! Names, which are texts that end at a zero byte.
ghost use Rattle.std.specs.Prelude.{◌≡◌, length, take, OnOk, OnErr};
ghost use Rattle.rv_bytes.specs.Numbers.{text};
ghost use Rattle.rv_bytes.specs.NumberReaders.{read_text};
ghost use Rattle.rv_bytes.specs.Results.{Reads};
ghost use Rattle.cv_parts.specs.Puts.{Puts, IsName, name_bytes};

use rv_bytes::{Cut, DwErr, put_u8};
use rv_io::{Buf, Memory, Text};
use std::alloc::Global;

/// Reads a name, and the zero byte that ends it and is not handed out.
///
/// Refused at its first byte: by rule 12 where no zero byte follows, and by rule 14 where the bytes
/// before it aren't UTF-8 or are more than 65,535.
pub fn read_name(alloc: Global, cut: &mut Cut<'_>) -> Result<Text, DwErr>
    ensures { Reads (read_text cut.old.at cut.old.rest) result cut.new }
{
    let bytes = cut.text()?;
    Ok(Text::from_bytes(alloc, bytes)?)
}

/// Appends a name and the zero byte that ends it. Out of memory, the buffer has what it had, and perhaps the
/// name after it without its zero byte.
#[tactic(auto, using(crate::proofs::PutForms::puts_name))]
pub fn put_name(out: &mut Buf, name: &Text) -> Result<(), Memory>
    requires { IsName name.now }
    ensures appended { OnOk result (Puts text name.now (name_bytes name.now) out.old out.new) }
    ensures front { OnErr result (take (length out.old) out.new ≡ out.old) }
{
    out.put(name.as_bytes())?;
    put_u8(out, 0)
}
