//! The structures of variants (DWARF 5, 5.7.10).
ghost use Rattle.std.specs.Prelude.{◌≡◌, option_map};
ghost use Rattle.dwarf_entries.specs.Enums.{variant_structure};
ghost use Rattle.dwarf_dies.specs.Handles.{beside};

use dwarf_dies::Die;
use dwarf_links::{End, type_end};
use dwarf_scopes::tags::is_structure;
use dwarf_variants::variant_member;

/// The structure to which the type of a variant's member leads. Takes no memory.
pub fn variant_structure<'a>(variant: &Die<'a>) -> Option<Die<'a>>
    ensures { result ≡ option_map (beside variant.now) (variant_structure variant.now.info variant.now.die) }
{
    let member = variant_member(variant)?;
    match type_end(&member) {
        End::Reached(structure) => {
            if is_structure(structure.what()) {
                Some(structure)
            } else {
                None
            }
        }
        End::Nowhere | End::Endless => None,
    }
}
