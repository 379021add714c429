//! The declarations of an abbreviation table (DWARF 5, 7.5.3).
ghost use Rattle.std.specs.Prelude.{◌≡◌, ◌==◌, ◌&&◌, false, All, IfOk};
ghost use Rattle.rv_bytes.specs.Readers.{with_value};
ghost use Rattle.rv_bytes.specs.Results.{Reads};
ghost use Rattle.dwarf_abbrev.specs.Declarations.{IsSpec, IsDeclaration};
ghost use Rattle.dwarf_abbrev.specs.Tables.{is_end, but_last};
ghost use Rattle.dwarf_abbrev.specs.TableReaders.{read_pair, read_pairs, read_decl_rest};

use crate::attr::Spec;
use crate::encoding::is_form;
use crate::refusal::refused;
use crate::{form, rule};
use rv_bytes::{Cut, DwErr};
use rv_io::List;
use std::alloc::Global;

/// A declaration: what the entries with its code have in common.
#[derive(Debug, Drop)]
pub struct Abbrev {
    pub code: u64,
    /// The tag of the entries (DWARF 5, 7.5.3), in a table not 0.
    pub tag: u64,
    /// Whether entries follow that are children.
    pub children: bool,
    /// The attributes, in the order of their values in an entry.
    pub specs: List<Spec>,
}

/// Whether an attribute and a form are the pair 0, 0, which stands after the attributes.
fn is_end(attr: u64, form: u64) -> bool
    ensures { result ≡ (attr == 0 && form == 0) }
{
    attr == 0 && form == 0
}

/// An attribute and its form, and the number of an implicit_const; or the pair 0, 0.
fn read_pair(cut: &mut Cut<'_>) -> Result<Spec, DwErr>
    ensures reads { Reads (read_pair cut.old.at cut.old.rest) result cut.new }
    ensures sound { IfOk result (λ s. is_end s ≡ false → IsSpec s) }
{
    let attr = cut.uleb()?;
    let at = cut.at();
    let form = cut.uleb()?;
    if !is_form(form) && !is_end(attr, form) {
        return Err(refused(at, rule::UNKNOWN_FORM));
    }
    let fixed = if form == form::IMPLICIT_CONST {
        cut.sleb()?
    } else {
        0
    };
    Ok(Spec { attr, form, fixed })
}

/// The pairs up to the pair 0, 0, without it.
fn read_specs(alloc: Global, cut: &mut Cut<'_>) -> Result<List<Spec>, DwErr>
    ensures reads { Reads (with_value but_last (read_pairs cut.old.at cut.old.rest)) result cut.new }
    ensures sound { IfOk result (All IsSpec) }
{
    let mut specs = List::new(alloc);
    loop {
        let spec = read_pair(cut)?;
        if is_end(spec.attr, spec.form) {
            return Ok(specs);
        }
        specs.push(spec)?;
    }
}

/// The declaration whose code was read.
pub(crate) fn read_rest(alloc: Global, cut: &mut Cut<'_>, code: u64) -> Result<Abbrev, DwErr>
    ensures reads { Reads (read_decl_rest code cut.old.at cut.old.rest) result cut.new }
    ensures code { IfOk result (λ a. a.code ≡ code) }
    ensures sound { IfOk result IsDeclaration }
{
    let at = cut.at();
    let tag = cut.uleb()?;
    if tag == 0 {
        return Err(refused(at, rule::CODE_OR_TAG));
    }
    let at = cut.at();
    let child = cut.number(1)?;
    if child > 1 {
        return Err(refused(at, rule::CHILDREN_BYTE));
    }
    let specs = read_specs(alloc, cut)?;
    Ok(Abbrev {
        code,
        tag,
        children: child == 1,
        specs,
    })
}
