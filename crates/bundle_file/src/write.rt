//! How a bundle file is written.
ghost use Rattle.std.specs.Prelude.{◌≡◌, ◌<◌, ◌^◌, length, OnOk, OnErr};
ghost use Rattle.rv_bytes.specs.Writers.{IsPut, Extends};
ghost use Rattle.bundle_file.specs.Parts.{section, number_of};
ghost use Rattle.bundle_file.specs.Sections.{AreDwarfSections, AreCvSections, HasSections};
ghost use Rattle.bundle_file.specs.Files.{header, dwarf, cv, bundle_form, AppendsFile};

use crate::parts::number_of;
use crate::sections::{Bundle, CvSections, DwarfSections, Format};
use rv_bytes::{put_u8, put_u16, put_u32, put_u64};
use rv_io::{Buf, Memory};

/// What comes before the contents.
fn put_header(out: &mut Buf, format: Format) -> Result<(), Memory>
    ensures put { OnOk result (IsPut header (number_of format) out.old out.new) }
    ensures kept { Extends out.old out.new }
{
    out.put(b"RVBUNDL1")?;
    put_u8(out, number_of(format))?;
    put_u8(out, 8)?;
    put_u16(out, 0)
}

/// A section, after its length.
fn put_section(out: &mut Buf, bytes: &Buf) -> Result<(), Memory>
    requires { length bytes.now < 2 ^ 32 }
    ensures put { OnOk result (IsPut section bytes.now out.old out.new) }
    ensures kept { Extends out.old out.new }
{
    let bytes = bytes.as_bytes();
    put_u32(out, bytes.len() as u32)?;
    out.put(bytes)
}

/// The eight sections of DWARF.
fn put_dwarf(out: &mut Buf, sections: &DwarfSections) -> Result<(), Memory>
    requires { AreDwarfSections sections.now }
    ensures put { OnOk result (IsPut dwarf sections.now out.old out.new) }
    ensures kept { Extends out.old out.new }
{
    put_section(out, &sections.abbrev)?;
    put_section(out, &sections.info)?;
    put_section(out, &sections.text)?;
    put_section(out, &sections.line_text)?;
    put_section(out, &sections.text_offsets)?;
    put_section(out, &sections.addrs)?;
    put_section(out, &sections.locs)?;
    put_section(out, &sections.ranges)
}

/// The two bases and the two sections of CodeView.
fn put_cv(out: &mut Buf, sections: &CvSections) -> Result<(), Memory>
    requires { AreCvSections sections.now }
    ensures put { OnOk result (IsPut cv sections.now out.old out.new) }
    ensures kept { Extends out.old out.new }
{
    put_u64(out, sections.code_base)?;
    put_u64(out, sections.data_base)?;
    put_section(out, &sections.types)?;
    put_section(out, &sections.symbols)
}

/// A bundle, after its header.
fn put_bundle(out: &mut Buf, bundle: &Bundle) -> Result<(), Memory>
    requires { HasSections bundle.now }
    ensures put { OnOk result (IsPut bundle_form bundle.now out.old out.new) }
    ensures kept { Extends out.old out.new }
{
    match bundle {
        Bundle::Dwarf(sections) => {
            put_header(out, Format::Dwarf)?;
            put_dwarf(out, sections)
        }
        Bundle::Cv(sections) => {
            put_header(out, Format::CodeView)?;
            put_cv(out, sections)
        }
    }
}

/// Appends the bytes of a bundle file that holds these sections, each of which is shorter than 2^32 bytes.
///
/// [`read_bundle`](crate::read_bundle) of just the appended bytes gives the same sections, if memory lasts.
/// Out of memory, the buffer is as it was.
#[tactic(auto, using(crate::proofs::Written::file_put))]
pub fn write_bundle(bundle: &Bundle, out: &mut Buf) -> Result<(), Memory>
    requires { HasSections bundle.now }

    // The appended bytes are a file that spells the bundle.
    ensures appended { OnOk result (AppendsFile bundle.now out.old out.new) }

    // Out of memory, nothing is appended.
    ensures same { OnErr result (out.new ≡ out.old) }
{
    let start = out.as_bytes().len();
    match put_bundle(out, bundle) {
        Ok(()) => Ok(()),
        Err(e) => {
            out.truncate(start);
            Err(e)
        }
    }
}
