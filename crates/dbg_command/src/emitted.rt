//! The bundle of a set.
ghost use Rattle.std.specs.Prelude.{◌≡◌, true, IfOk};
ghost use Rattle.layout_set.specs.Laws.{IsLawful};
ghost use Rattle.layout_set.specs.IsSet.{IsSet};
ghost use Rattle.bundle_file.specs.Sections.{AreDwarfSections, IsSection};
ghost use Rattle.dwarf_info.specs.Reads.{DescribeSet};
ghost use Rattle.dbg_command.specs.Answers.{IsEmitted};

use bundle_file::{Bundle, DwarfSections, write_bundle};
use dwarf_emitter::WriteErr;
use layout_set::Set;
use rv_io::{Buf, Memory};
use std::alloc::Global;

/// How many bytes a section of a bundle may have: its length has four bytes.
const SECTION_LIMIT: usize = 0xffff_ffff;

/// A bundle file of DWARF sections that describe a lawful set.
pub(crate) fn bundle_of(alloc: Global, set: &Set) -> Result<Buf, Memory>
    requires lawful { IsLawful set.now }
    requires names { IsSet set.now }
    ensures { IfOk result (IsEmitted set.now) }
{
    let sections = sections_of(alloc, set)?;
    let mut file = Buf::new(alloc);
    write_bundle(&Bundle::Dwarf(sections), &mut file)?;
    Ok(file)
}

/// DWARF sections that describe a lawful set and fit a bundle.
///
/// Two causes are told as want of memory, and neither was ever seen of a set without functions. The sections describe another
/// set: no clause says that those of a set without functions don't. A section has 2^32 bytes: a lawful set's are shorter by far,
/// which isn't proved.
fn sections_of(alloc: Global, set: &Set) -> Result<DwarfSections, Memory>
    requires lawful { IsLawful set.now }
    requires names { IsSet set.now }
    ensures described { IfOk result (λ sections. DescribeSet sections set.now) }
    ensures short { IfOk result AreDwarfSections }
{
    match dwarf_emitter::write(alloc, set) {
        Ok(sections) if are_short(&sections) => Ok(sections),
        Ok(_) | Err(WriteErr::OtherSet | WriteErr::Memory) => Err(Memory),
    }
}

/// Whether each section fits a bundle.
fn are_short(sections: &DwarfSections) -> bool
    ensures { result ≡ true → AreDwarfSections sections.now }
{
    is_short(&sections.abbrev)
        && is_short(&sections.info)
        && is_short(&sections.text)
        && is_short(&sections.line_text)
        && is_short(&sections.text_offsets)
        && is_short(&sections.addrs)
        && is_short(&sections.locs)
        && is_short(&sections.ranges)
}

/// Whether a section fits a bundle.
fn is_short(section: &Buf) -> bool
    ensures { result ≡ true → IsSection section.now }
{
    section.as_bytes().len() <= SECTION_LIMIT
}
