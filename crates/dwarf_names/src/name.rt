//! The names of entries.
ghost use Rattle.std.specs.Prelude.{◌≡◌, IfOk, length, nat_lt};
ghost use Rattle.dwarf_entries.specs.Names.{is_too_long, name_of};
ghost use Rattle.dwarf_names.specs.Scopes.{scoped_text};

use crate::joined::joined_text;
use crate::own::own_text;
use crate::scopes::scopes_before;
use dwarf_dies::Die;
use dwarf_entries::name_of_text;
use names::Name;
use rv_io::Memory;
use std::alloc::Global;

/// How many bytes the text of a name has at most.
const LONGEST: usize = 65_535;

/// How many bytes `::` has.
const BETWEEN: usize = 2;

/// The name of an entry: what its joined text is in Rust's spelling, or the text itself.
pub fn name_of(alloc: Global, die: &Die<'_>) -> Result<Name, Memory>
    ensures { IfOk result (λ name. name ≡ name_of die.now.info die.now.die) }
{
    let text = joined_text(alloc, die)?;
    name_of_text(alloc, text.as_slice())
}

/// Whether a text after those of scopes, with `::` between each two, is too long for a name.
fn is_long(scopes: &[Die<'_>], own: &[u8]) -> bool
    ensures { result ≡ nat_lt 65535 (length (scoped_text scopes.now own.now)) }
{
    let mut left = LONGEST;
    for scope in scopes {
        let size = own_text(scope).len() + BETWEEN;
        if size > left {
            return true;
        }
        left -= size;
    }
    own.len() > left
}

/// Whether the joined text has more than 65,535 bytes. Doesn't build the text.
pub fn is_too_long(alloc: Global, die: &Die<'_>) -> Result<bool, Memory>
    ensures { IfOk result (λ long. long ≡ is_too_long die.now.info die.now.die) }
{
    let scopes = scopes_before(alloc, die)?;
    Ok(is_long(scopes.as_slice(), own_text(die)))
}
