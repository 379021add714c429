//! The namespaces, structures, enumerations and unions around an entry (DWARF 5, 2.3 and 3.2).
ghost use Rattle.std.specs.Prelude.{◌≡◌, IfOk};
ghost use Rattle.dwarf_entries.specs.Names.{is_complete};
ghost use Rattle.dwarf_entries.specs.Tags.{is_named_scope, passes};
ghost use Rattle.dwarf_names.specs.Scopes.{is_scope, scopes_around, scopes_before};

use crate::own::own_text;
use dwarf_dies::Die;
use dwarf_entries::{Tag, proper_name, stands_alone};
use names::Name;
use rv_io::{List, Memory};
use std::alloc::Global;

/// Whether the names of such entries are those of the entries below, with `::` between.
fn is_named_scope(what: Option<Tag>) -> bool
    ensures { result ≡ passes is_named_scope what }
{
    matches!(
        what,
        Some(Tag::Namespace | Tag::StructureType | Tag::EnumerationType | Tag::UnionType)
    )
}

/// Those around an entry, the innermost first.
fn scopes_around<'a>(alloc: Global, die: &Die<'a>) -> Result<List<Die<'a>>, Memory>
    ensures { IfOk result (λ scopes. scopes ≡ scopes_around die.now) }
{
    let mut scopes = List::new(alloc);
    let mut next = die.parent();
    while let Some(up) = next {
        next = up.parent();
        if is_named_scope(up.what()) {
            scopes.push(up)?;
        }
    }
    Ok(scopes)
}

/// Whether this is the whole name of an entry, whatever is around it.
fn is_complete(name: &Option<Name>) -> bool
    ensures { result ≡ is_complete name.now }
{
    match name {
        Some(name) => stands_alone(name),
        None => false,
    }
}

/// Those whose names are part of the entry's, the innermost first: none where its own text is a name of
/// another shape than one segment.
pub(crate) fn scopes_before<'a>(alloc: Global, die: &Die<'a>) -> Result<List<Die<'a>>, Memory>
    ensures { IfOk result (λ scopes. scopes ≡ scopes_before die.now) }
{
    if is_complete(&proper_name(alloc, own_text(die))?) {
        return Ok(List::new(alloc));
    }
    scopes_around(alloc, die)
}
