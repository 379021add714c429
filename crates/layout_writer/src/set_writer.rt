//! The lines of a set, put one after the other.
ghost use Rattle.std.specs.Prelude.{◌≡◌, ◌++◌, ◌<◌, length, take, OnOk, OnErr};
ghost use Rattle.layout_set.specs.IsSet.{IsSet};
ghost use Rattle.layout_set.specs.Law14.{IsBounded};
ghost use Rattle.layout_lines.specs.Sets.{layout_text, head_text, version_text, target_text, Spells};
ghost use Rattle.readers.specs.Lines.{with_end};

use crate::func_writer::put_funcs;
use crate::line_writer::{put_decimal, put_end, put_statics, put_types};
use layout_set::Set;
use rv_io::{Buf, Memory};

fn put_version(out: &mut Buf) -> Result<(), Memory>
    ensures put { OnOk result (out.new ≡ out.old ++ with_end version_text) }
    ensures front { OnErr result (take (length out.old) out.new ≡ out.old) }
{
    out.put(b"rdbg-layout 1\n")
}

fn put_target(ptr: u8, out: &mut Buf) -> Result<(), Memory>
    ensures put { OnOk result (out.new ≡ out.old ++ with_end (target_text ptr)) }
    ensures front { OnErr result (take (length out.old) out.new ≡ out.old) }
{
    out.put(b"target ")?;
    put_decimal(u128::from(ptr), out)?;
    put_end(out)
}

/// Puts the first two lines, for pointers of so many bytes.
fn put_head(ptr: u8, out: &mut Buf) -> Result<(), Memory>
    ensures put { OnOk result (out.new ≡ out.old ++ head_text ptr) }
    ensures front { OnErr result (take (length out.old) out.new ≡ out.old) }
    ensures byte { ptr < 256 }
{
    put_version(out)?;
    put_target(ptr, out)
}

/// Puts the lines of a set.
pub fn put_set(set: &Set, out: &mut Buf) -> Result<(), Memory>
    ensures put { OnOk result (out.new ≡ out.old ++ layout_text set.now) }
    ensures front { OnErr result (take (length out.old) out.new ≡ out.old) }
    ensures spelled { OnOk result (IsSet set.now → IsBounded set.now → Spells set.now (layout_text set.now)) }
{
    put_head(set.target.ptr, out)?;
    put_types(set.types.as_slice(), out)?;
    put_statics(set.statics.as_slice(), out)?;
    put_funcs(set.funcs.as_slice(), out)
}
