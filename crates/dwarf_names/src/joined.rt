//! The texts of names, with those of what is around an entry.
ghost use Rattle.std.specs.Prelude.{◌≡◌, IfOk};
ghost use Rattle.dwarf_entries.specs.Names.{joined_text};
ghost use Rattle.dwarf_names.specs.Scopes.{scoped_text};

use crate::own::own_text;
use crate::scopes::scopes_before;
use dwarf_dies::Die;
use rv_io::{List, Memory};
use std::alloc::Global;

/// A text after those of scopes, of which the innermost is the first, with `::` between each two.
fn scoped_text(alloc: Global, scopes: &[Die<'_>], own: &[u8]) -> Result<List<u8>, Memory>
    ensures { IfOk result (λ text. text ≡ scoped_text scopes.now own.now) }
{
    let mut text = Vec::new(alloc);
    for scope in scopes.iter().rev() {
        text.extend_from_slice(own_text(scope))?;
        text.extend_from_slice(b"::")?;
    }
    text.extend_from_slice(own)?;
    Ok(List::from_vec(text))
}

/// The text of an entry's name: its own after those of the namespaces, structures, enumerations and unions
/// around it, the outermost first, with `::` between each two. Its own text stands alone where it is a name
/// of another shape than one segment.
pub fn joined_text(alloc: Global, die: &Die<'_>) -> Result<List<u8>, Memory>
    ensures { IfOk result (λ text. text ≡ joined_text die.now.info die.now.die) }
{
    let scopes = scopes_before(alloc, die)?;
    scoped_text(alloc, scopes.as_slice(), own_text(die))
}
