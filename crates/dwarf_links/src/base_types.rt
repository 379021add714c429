//! The primitives that base types are (DWARF 5, 5.1.1).
ghost use Rattle.std.specs.Prelude.{◌≡◌, IfOk};
ghost use Rattle.dwarf_entries.specs.Primitives.{base_type_of};
ghost use Rattle.dwarf_links.specs.BaseTypes.{HasBaseTypes};

use dwarf_dies::{Die, Dies};
use dwarf_entries::{at, base_type};
use dwarf_names::joined_text;
use dwarf_scopes::tags::is_base_type;
use layout_set::Primitive;
use rv_io::Memory;
use std::alloc::Global;
use std::collections::BTreeMap;

/// The primitive that an entry is as a base type, or the rule that it breaks. Takes memory for its name.
fn base_type_of(alloc: Global, die: &Die<'_>) -> Result<Result<Primitive, u8>, Memory>
    ensures { IfOk result (λ kind. kind ≡ base_type_of die.now.info die.now.die) }
{
    let name = joined_text(alloc, die)?;
    let encoding = die.value(at::ENCODING);
    let size = die.value(at::BYTE_SIZE);
    Ok(base_type(encoding, size, name.as_slice()))
}

/// What each base type is, by the number of its entry. Takes memory for that, and for the names.
pub(crate) fn read_base_types(
    alloc: Global,
    dies: &Dies<'_>,
) -> Result<BTreeMap<u32, Result<Primitive, u8>>, Memory>
    ensures { IfOk result (HasBaseTypes dies.now) }
{
    let mut kinds = BTreeMap::new(alloc);
    for die in dies.iter() {
        if is_base_type(die.what()) {
            let kind = base_type_of(alloc, &die)?;
            kinds.insert(die.number(), kind)?;
        }
    }
    Ok(kinds)
}
