//! The unit.
ghost use Rattle.std.specs.Prelude.{◌≡◌};
ghost use Rattle.cv_type_defs.specs.Numbering.{is_unit};

use cv_type_defs::{is_forward, is_unit_name};
use cv_type_records::TypeKind;

/// Whether a record is a complete LF_STRUCTURE that is the unit. Takes no memory.
pub fn is_unit(kind: &TypeKind) -> bool
    ensures { result ≡ is_unit kind.now }
{
    match kind {
        TypeKind::Structure { property, name, .. } => {
            !is_forward(*property) && is_unit_name(name.as_bytes())
        }
        _ => false,
    }
}
