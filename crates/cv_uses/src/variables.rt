//! The types of variables.
ghost use Rattle.std.specs.Prelude.{◌≡◌, map, length, filter_map, List};
ghost use Rattle.cv_type_defs.specs.Links.{target};
ghost use Rattle.cv_type_defs.specs.Symbols.{variable_type};
ghost use Rattle.cv_uses.specs.Marks.{with_marks};

use crate::marks::Marks;
use cv_links::Links;
use cv_symbol_records::{SymKind, SymRec};

/// The type of a static, or of a local that has a name.
fn variable_type(symbol: &SymRec) -> Option<u32>
    ensures { result ≡ variable_type symbol.now.kind }
{
    match &symbol.kind {
        SymKind::LData(datum) => Some(datum.ty),
        SymKind::GData(datum) => Some(datum.ty),
        SymKind::Local { ty, name, .. } => {
            if name.as_bytes().is_empty() {
                None
            } else {
                Some(*ty)
            }
        }
        _ => None,
    }
}

/// Marks the simple pointers that are the types of variables.
pub fn mark_variables(marks: &mut Marks, links: &Links<'_>, symbols: &[&SymRec])
    ensures { marks.new ≡ with_marks marks.old (map (target links.now (length links.now)) (filter_map (λ s. variable_type s.kind) (map (λ s. s.now) symbols.now))) }
{
    for symbol in symbols {
        if let Some(ty) = variable_type(symbol) {
            marks.mark(links.target(links.len(), ty));
        }
    }
}
