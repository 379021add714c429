//! The set that sections describe.
ghost use Rattle.std.specs.Prelude.{◌≡◌, IfOk, IfErr};
ghost use Rattle.dwarf_entries.specs.TextResults.{bytes_of};
ghost use Rattle.dwarf_info.specs.Reads.{AreRefusedBy, DescribeSet, IsSetOf, RefusesEntries, bytes_in};

use crate::entries::read_entries;
use crate::items::check_items;
use crate::set::set_of;
use crate::soundness::check_soundness;
use bundle_file::DwarfSections;
use dwarf_dies::Dies;
use dwarf_entries::Sections;
use dwarf_links::read_type_links;
use layout_set::{ReadErr, Set};
use std::alloc::Global;

/// The set that entries say, where no item of them breaks a rule, and it is sound.
fn read_set<'a>(alloc: Global, dies: &'a Dies<'a>) -> Result<Set, ReadErr>
    ensures set { IfOk result (IsSetOf dies.now) }
    ensures refused { IfErr result (RefusesEntries dies.now) }
{
    let links = read_type_links(alloc, dies)?;
    check_items(alloc, &links)?;
    let set = set_of(alloc, &links)?;
    check_soundness(alloc, &links, &set)?;
    Ok(set)
}

/// The sections that entries lead to.
fn sections_of(sections: &DwarfSections) -> Sections<'_>
    ensures { bytes_of result ≡ bytes_in sections.now }
{
    Sections {
        info: sections.info.as_bytes(),
        text: sections.text.as_bytes(),
        line_text: sections.line_text.as_bytes(),
        text_offsets: sections.text_offsets.as_bytes(),
        addrs: sections.addrs.as_bytes(),
        locs: sections.locs.as_bytes(),
        ranges: sections.ranges.as_bytes(),
    }
}

/// Reads the types and statics that sections describe. Refuses the first rule that they break, of the
/// units, then of the items of their entries, then the first law of a sound set, at the entry of its type.
pub fn read(alloc: Global, sections: &DwarfSections) -> Result<Set, ReadErr>
    ensures set { IfOk result (DescribeSet sections.now) }
    ensures refused { IfErr result (AreRefusedBy sections.now) }
{
    let dies = read_entries(alloc, sections.abbrev.as_bytes(), sections_of(sections))?;
    read_set(alloc, &dies)
}
