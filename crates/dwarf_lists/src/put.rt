//! How range lists are written (DWARF 5, 2.17.3 and 7.25).
ghost use Rattle.std.specs.Prelude.{◌≡◌, OnOk, OnErr};
ghost use Rattle.expr_eval.specs.Addresses.{Addresses};
ghost use Rattle.rv_bytes.specs.Writers.{IsPut, Extends};
ghost use Rattle.dwarf_list_entries.specs.Entries.{range_entry};
ghost use Rattle.dwarf_list_entries.specs.declared.entry.ListEntry.TheVariants.{StartEnd};
ghost use Rattle.dwarf_lists.specs.Written.{PutsRanges};

use dwarf_list_entries::rle;
use layout_set::Zone;
use rv_bytes::{put_u8, put_u64};
use rv_io::{Buf, Memory};

/// An entry with the first address and the end.
fn put_range(out: &mut Buf, lo: u64, hi: u64) -> Result<(), Memory>
    ensures put { (addrs : Addresses) → OnOk result (IsPut (range_entry addrs) (StartEnd lo hi) out.old out.new) }
    ensures kept { Extends out.old out.new }
{
    put_u8(out, rle::START_END)?;
    put_u64(out, lo)?;
    put_u64(out, hi)
}

/// An entry for each zone, up to the end of the list.
fn put_entries(out: &mut Buf, zones: &[Zone]) -> Result<(), Memory>
    ensures put { OnOk result (PutsRanges zones.now out.old out.new) }
    ensures kept { Extends out.old out.new }
{
    for zone in zones {
        put_range(out, zone.lo, zone.hi)?;
    }
    put_u8(out, rle::END_OF_LIST)
}

/// Appends the range list of these zones: a start_end for each, of 17 bytes, and the end of the list, of one
/// (DWARF 5, 2.17.3 and 7.25). A zone without an address is no range where the list is read.
///
/// Out of memory, the buffer is as it was.
pub fn put_ranges(out: &mut Buf, zones: &[Zone]) -> Result<(), Memory>
    ensures appended { OnOk result (PutsRanges zones.now out.old out.new) }
    ensures same { OnErr result (out.new ≡ out.old) }
{
    let start = out.as_bytes().len();
    match put_entries(out, zones) {
        Ok(()) => Ok(()),
        Err(e) => {
            out.truncate(start);
            Err(e)
        }
    }
}
