//! The sections, and what is read of them.
ghost use Rattle.std.specs.Prelude.{◌≡◌, true, IfOk};
ghost use Rattle.layout_set.specs.Laws.{IsLawful};
ghost use Rattle.layout_set.specs.IsSet.{IsSet};
ghost use Rattle.layout_set.specs.Law14.{IsBounded};
ghost use Rattle.layout_lines.specs.Sets.{Spells, layout_text};
ghost use Rattle.dwarf_info.specs.Reads.{DescribeSet};

use bundle_file::DwarfSections;
use dwarf_writer::write_sections;
use layout_file::a_file_spells_one_set;
use layout_model::check;
use layout_set::{CheckErr, ReadErr, Set};
use rv_io::{Buf, Memory};
use std::alloc::Global;
use thiserror::Error;

/// Why no sections were written.
#[derive(Clone, Copy, Debug, PartialEq, Eq, Error)]
pub enum WriteErr {
    /// What was read back isn't the set: it has functions, which aren't written.
    #[error("the set isn't what its sections describe")]
    OtherSet,
    /// Memory has run out.
    #[error("out of memory")]
    Memory,
}

impl From<Memory> for WriteErr {
    ghost use Rattle.std.specs.Prelude.{◌≡◌};
    ghost use Rattle.dwarf_emitter.specs.declared.writer.WriteErr.TheVariants.{Memory as OutOfMemory};

    ghost from_gives = { λ _ e. e ≡ OutOfMemory };

    fn from(_e: Memory) -> WriteErr {
        WriteErr::Memory
    }
}

/// The layout text of a set, which spells it where its names are names and it is not too large.
fn text_of(alloc: Global, set: &Set) -> Result<Buf, Memory>
    ensures text { IfOk result (λ text. text ≡ layout_text set.now) }
    ensures spelled { IfOk result (λ text. IsSet set.now → IsBounded set.now → Spells set.now text) }
{
    let mut text = Buf::new(alloc);
    layout_file::write(set, &mut text)?;
    Ok(text)
}

/// Whether a set is this lawful one. Takes memory for their texts, and as `check` does.
fn is_same(alloc: Global, other: &Set, set: &Set) -> Result<bool, Memory>
    requires names { IsSet other.now }
    requires lawful { IsLawful set.now }
    requires set { IsSet set.now }
    ensures { IfOk result (λ same. same ≡ true → other.now ≡ set.now) }
{
    match check(alloc, other) {
        Ok(()) => have_one_text(alloc, other, set),
        Err(CheckErr::Breach { .. }) => Ok(false),
        Err(CheckErr::Memory) => Err(Memory),
    }
}

/// Whether two lawful sets have one text, and so are one.
fn have_one_text(alloc: Global, a: &Set, b: &Set) -> Result<bool, Memory>
    requires first { IsSet a.now }
    requires lawful { IsLawful a.now }
    requires second { IsSet b.now }
    requires other { IsLawful b.now }
    ensures { IfOk result (λ same. same ≡ true → a.now ≡ b.now) }
{
    a_file_spells_one_set();
    let text = text_of(alloc, a)?;
    let other = text_of(alloc, b)?;
    Ok(text.as_bytes() == other.as_bytes())
}

/// The set that sections describe, or why there is none.
fn read_back(alloc: Global, sections: &DwarfSections) -> Result<Set, WriteErr>
    ensures described { IfOk result (DescribeSet sections.now) }
    ensures names { IfOk result IsSet }
{
    match dwarf_info::read(alloc, sections) {
        Ok(set) => Ok(set),
        Err(ReadErr::Refused(_)) => Err(WriteErr::OtherSet),
        Err(ReadErr::Memory) => Err(WriteErr::Memory),
    }
}

/// Sections that describe a lawful set of types and statics, for pointers of 8 bytes: they are written and read back, and what was
/// read is this set. Takes memory for the sections twice, for their entries, for the set that is read and for two texts.
pub fn write(alloc: Global, set: &Set) -> Result<DwarfSections, WriteErr>
    requires lawful { IsLawful set.now }
    requires names { IsSet set.now }
    ensures { IfOk result (λ sections. DescribeSet sections set.now) }
{
    let sections = write_sections(alloc, set)?;
    let back = read_back(alloc, &sections)?;
    if is_same(alloc, &back, set)? {
        Ok(sections)
    } else {
        Err(WriteErr::OtherSet)
    }
}
