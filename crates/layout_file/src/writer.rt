//! The text of a set.
ghost use Rattle.std.specs.Prelude.{◌≡◌, ◌++◌, OnOk, OnErr};
ghost use Rattle.layout_set.specs.IsSet.{IsSet};
ghost use Rattle.layout_set.specs.Law14.{IsBounded};
ghost use Rattle.layout_reader.specs.Claims.{IsReadAs};
ghost use Rattle.layout_lines.specs.Sets.{layout_text, Spells};

use layout_set::Set;
use layout_writer::put_set;
use rv_io::{Buf, Memory};

/// Appends the layout file of the set. After want of memory `out` is as it was.
pub fn write(set: &Set, out: &mut Buf) -> Result<(), Memory>
    // The text of the set is appended.
    ensures put { OnOk result (out.new ≡ out.old ++ layout_text set.now) }

    // After want of memory nothing has changed.
    ensures same { OnErr result (out.new ≡ out.old) }

    // The text spells the set, where its names are names and it is not too large.
    ensures spelled { OnOk result (IsSet set.now → IsBounded set.now → Spells set.now (layout_text set.now)) }

    // So it is read as the set.
    ensures read_back { OnOk result (IsSet set.now → IsBounded set.now → IsReadAs (layout_text set.now) set.now) }
{
    let len = out.as_bytes().len();
    let done = put_set(set, out);
    if done.is_err() {
        out.truncate(len);
    }
    done
}
