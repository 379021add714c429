//! The rules that the attributes of all entries break.
ghost use Rattle.std.specs.Prelude.{◌≡◌, flat_map};
ghost use Rattle.dwarf_dies.specs.Attributes.{attribute_kept};
ghost use Rattle.dwarf_entries.specs.AttributeItems.{firsts};
ghost use Rattle.dwarf_entries.specs.Items.{first_fault};
ghost use Rattle.dwarf_entries.specs.PassB.{attribute_items, entry_items, further_items, pass_b, row_class};
ghost use Rattle.dwarf_items.specs.Answers.{Answers};
ghost use Rattle.dwarf_items.specs.Parts.{are_with_parts};

use crate::firsts::first_attributes;
use crate::items::answer;
use crate::locations::location_items;
use crate::name::name_items;
use crate::origins::origins_items;
use crate::own::own_item;
use crate::parts::{Parts, read_parts};
use dwarf_dies::{Die, Dies};
use dwarf_entries::{Class, Tag, at, class_of, rule};
use dwarf_scopes::tags::{is_function, is_member, is_variable};
use dwarf_scopes::{is_in_function, is_read, role_of};
use dwarf_units::EntryAttribute;
use layout_set::ReadErr;
use std::alloc::Global;

/// The class that an attribute of this code must have, where it is looked at.
fn row_class(what: Option<Tag>, code: u64) -> Option<Class>
    ensures { result ≡ row_class code what }
{
    class_of(what?, code)
}

/// Checks what a static's location or a variable's origin leads to.
fn further_items<'a>(
    alloc: Global,
    die: &Die<'a>,
    attribute: EntryAttribute<'a>,
) -> Result<(), ReadErr>
    ensures { Answers (first_fault (further_items die.now.info die.now.die (attribute_kept attribute.entry))) result }
{
    if !is_variable(die.what()) {
        return Ok(());
    }
    if attribute.attr == at::LOCATION && !is_in_function(die) {
        return location_items(die, attribute);
    }
    if attribute.attr == at::ABSTRACT_ORIGIN {
        return origins_items(alloc, role_of(die), die);
    }
    Ok(())
}

/// Checks an attribute, where it is looked at, with what it leads to.
fn attribute_items<'a>(
    alloc: Global,
    die: &Die<'a>,
    attribute: EntryAttribute<'a>,
) -> Result<(), ReadErr>
    ensures { Answers (first_fault (attribute_items die.now.info die.now.die (attribute_kept attribute.entry))) result }
{
    let Some(class) = row_class(die.what(), attribute.attr) else {
        return Ok(());
    };
    if attribute.attr == at::NAME {
        return name_items(alloc, die, attribute, role_of(die));
    }
    own_item(die, attribute, class)?;
    further_items(alloc, die, attribute)
}

/// Checks the attributes of an entry that are looked at, in order.
fn looked_at(alloc: Global, die: &Die<'_>) -> Result<(), ReadErr>
    ensures { Answers (first_fault (flat_map (attribute_items die.now.info die.now.die) (firsts die.now.die.entry))) result }
{
    let firsts = first_attributes(alloc, die)?;
    for attribute in firsts.as_slice() {
        attribute_items(alloc, die, *attribute)?;
    }
    Ok(())
}

/// Checks an entry: a function isn't read yet, and of others the attributes are looked at.
fn entry_items(alloc: Global, parts: &Parts, die: &Die<'_>) -> Result<(), ReadErr>
    requires { parts.now.has_part ≡ are_with_parts die.now.info }
    ensures { Answers (first_fault (entry_items die.now.info die.now.die)) result }
{
    if !is_read(die) || (is_member(die.what()) && parts.is_beside(die)) {
        return Ok(());
    }
    if is_function(die.what()) {
        return answer(die.offset(), Some(rule::NOT_YET));
    }
    looked_at(alloc, die)
}

/// Checks the attributes of all entries, entry by entry, with what they lead to. Refuses the first item that
/// breaks a rule: the rule, and where the item is.
pub fn check_attributes(alloc: Global, dies: &Dies<'_>) -> Result<(), ReadErr>
    // No item breaks a rule, or the refusal says which is the first that does.
    ensures { Answers (first_fault (pass_b dies.now)) result }
{
    let parts = read_parts(alloc, dies)?;
    for die in dies.iter() {
        entry_items(alloc, &parts, &die)?;
    }
    Ok(())
}
