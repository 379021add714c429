//! The texts of the names around an entry.
ghost use Rattle.dwarf_entries.specs.AttributeItems.{around_items};
ghost use Rattle.dwarf_entries.specs.Items.{first_fault};
ghost use Rattle.dwarf_items.specs.Answers.{Answers};
ghost use Rattle.dwarf_items.specs.Scopes.{scope_items};

use crate::name::text_items;
use dwarf_dies::Die;
use dwarf_entries::at;
use dwarf_scopes::tags::is_named_scope;
use layout_set::ReadErr;

/// Checks the text of an entry's first name, where that is part of the names below it.
fn scope_items(die: &Die<'_>) -> Result<(), ReadErr>
    ensures { Answers (first_fault (scope_items die.now.info die.now.die)) result }
{
    if !is_named_scope(die.what()) {
        return Ok(());
    }
    match die.attribute(at::NAME) {
        Some(attribute) => text_items(die, attribute),
        None => Ok(()),
    }
}

/// Checks the texts of the names around an entry, the outermost first.
pub(crate) fn around_items(die: &Die<'_>) -> Result<(), ReadErr>
    ensures { Answers (first_fault (around_items die.now.info die.now.die)) result }
{
    match die.parent() {
        Some(up) => {
            around_items(&up)?;
            scope_items(&up)
        }
        None => Ok(()),
    }
}
