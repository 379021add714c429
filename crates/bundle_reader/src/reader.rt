//! How a bundle file is read as a set.
ghost use Rattle.std.specs.Prelude.{◌≡◌, IfOk, IfErr};
ghost use Rattle.layout_set.specs.Laws.{IsSound};
ghost use Rattle.bundle_reader.specs.Readings.{DescribesSet, IsRefusedBy, IsDescribed, RefusesSections, no_code_view};

use bundle_file::{Bundle, read_bundle};
use layout_set::{ReadErr, Refusal, Section, Set};
use std::alloc::Global;

/// The rule that a format breaks which isn't read, and where its number stands in the file.
const BAD_FORMAT: Refusal = Refusal {
    section: Section::Bundle,
    offset: 8,
    rule: bundle_file::rule::HEADER,
};

/// The set that sections describe.
fn read_sections(alloc: Global, bundle: &Bundle) -> Result<Set, ReadErr>
    ensures set { IfOk result (IsDescribed bundle.now) }
    ensures refused { IfErr result (RefusesSections bundle.now) }
{
    match bundle {
        Bundle::Dwarf(sections) => dwarf_info::read(alloc, sections),
        Bundle::Cv(_) => Err(ReadErr::Refused(BAD_FORMAT)),
    }
}

/// Reads the set that a bundle file describes. A refusal names the first rule that is broken: by the file, and
/// then by its sections. A bundle of CodeView is refused at its format. Takes memory for a copy of each section,
/// for the entries and for the set.
pub fn read(alloc: Global, bytes: &[u8]) -> Result<Set, ReadErr>
    // The file spells sections, which describe the set.
    ensures set { IfOk result (DescribesSet bytes.now) }
    // The set is sound: its types have sizes, and values of it can be read.
    ensures sound { IfOk result IsSound }
    // A refusal names the first rule that the file or its sections break.
    ensures refused { IfErr result (IsRefusedBy bytes.now) }
{
    let bundle = read_bundle(alloc, bytes)?;
    read_sections(alloc, &bundle)
}
