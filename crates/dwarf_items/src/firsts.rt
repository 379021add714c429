//! The first attributes of each kind (DWARF 5, 2.2).
ghost use Rattle.std.specs.Prelude.{◌≡◌, ◌==◌, IfOk, map};
ghost use Rattle.std.specs.List.{list_any};
ghost use Rattle.dwarf_dies.specs.Attributes.{attribute_kept};
ghost use Rattle.dwarf_items.specs.Firsts.{is_new, low_firsts};

use dwarf_dies::Die;
use dwarf_units::EntryAttribute;
use rv_io::{List, Memory};
use std::alloc::Global;

/// All codes of attributes that are looked at are below this.
const CODE_LIMIT: u64 = 0x90;

/// Whether one of some attributes has this code.
fn has_code(attributes: &[EntryAttribute<'_>], code: u64) -> bool
    ensures { result ≡ list_any (λ a. code == a.attr) attributes.now }
{
    attributes.iter().any(|attribute| code == attribute.attr)
}

/// Whether an attribute with this code is the first one after these, and may be looked at.
fn is_new(firsts: &[EntryAttribute<'_>], code: u64) -> bool
    ensures { result ≡ is_new firsts.now code }
{
    code < CODE_LIMIT && !has_code(firsts, code)
}

/// The first attributes of each kind of an entry, in order, of those with codes that may be looked at.
/// Looks back at no more attributes than there are such codes.
pub(crate) fn first_attributes<'a>(
    alloc: Global,
    die: &Die<'a>,
) -> Result<List<EntryAttribute<'a>>, Memory>
    ensures { IfOk result (λ l. map attribute_kept l ≡ low_firsts die.now.die.entry) }
{
    let mut firsts = List::new(alloc);
    let Some(mut attributes) = die.attributes() else {
        return Ok(firsts);
    };
    while let Some(attribute) = attributes.read_next() {
        if is_new(firsts.as_slice(), attribute.attr) {
            firsts.push(attribute)?;
        }
    }
    Ok(firsts)
}
