//! The sections.
ghost use Rattle.layout_set.specs.Laws.{IsLawful};

use crate::abbrevs::TABLE;
use crate::info::unit;
use crate::offsets::{Offsets, low_half};
use bundle_file::DwarfSections;
use layout_set::Set;
use rv_io::{Buf, Memory};
use std::alloc::Global;

/// How many bytes of a unit its length doesn't count.
const LENGTH_LEN: usize = 4;

/// Sections that are to describe the types and the statics of a lawful set: one unit, whose entries are written twice, since what they
/// lead to may come after them.
pub fn write_sections(alloc: Global, set: &Set) -> Result<DwarfSections, Memory>
    requires { IsLawful set.now }
{
    let (first, offsets) = unit(alloc, set, 0, &Offsets::none(alloc))?;
    let len = low_half(first.as_bytes().len().wrapping_sub(LENGTH_LEN) as u64);
    let (info, _) = unit(alloc, set, len, &offsets)?;
    let mut abbrev = Buf::new(alloc);
    abbrev.put(TABLE)?;
    Ok(DwarfSections {
        abbrev,
        info,
        text: Buf::new(alloc),
        line_text: Buf::new(alloc),
        text_offsets: Buf::new(alloc),
        addrs: Buf::new(alloc),
        locs: Buf::new(alloc),
        ranges: Buf::new(alloc),
    })
}
