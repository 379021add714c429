//! The rules that names break: as attributes, as texts, and by what they must be.
ghost use Rattle.std.specs.Prelude.{◌≡◌, if◌then◌else◌, Some, None, IfOk};
ghost use Rattle.dwarf_dies.specs.Attributes.{attribute_kept};
ghost use Rattle.dwarf_entries.specs.AttributeItems.{found_items, name_items, role_rule, text_items};
ghost use Rattle.dwarf_entries.specs.Items.{first_fault};
ghost use Rattle.dwarf_entries.specs.NameRoles.{Role as Meant};
ghost use Rattle.dwarf_entries.specs.Names.{is_too_long};
ghost use Rattle.rv_bytes.specs.Rules.{no_text};
ghost use Rattle.dwarf_entries.specs.Texts.{text_found};
ghost use Rattle.dwarf_items.specs.Answers.{Answers};
ghost use Rattle.dwarf_scopes.specs.Roles.{role_meant};

use crate::items::answer;
use crate::own::own_item;
use dwarf_dies::Die;
use dwarf_entries::{Class, TextErr, rule, word_in};
use dwarf_names::is_too_long;
use dwarf_scopes::Role;
use dwarf_units::EntryAttribute;
use layout_set::ReadErr;
use rv_bytes::rule::NO_TEXT;
use rv_io::Memory;
use std::alloc::Global;

/// Checks the text of an attribute, where it is found.
fn found_items<'a>(die: &Die<'a>, attribute: EntryAttribute<'a>) -> Result<(), ReadErr>
    ensures { Answers (first_fault (found_items (text_found die.now.info.sections die.now.die.bases (attribute_kept attribute.entry)))) result }
{
    match die.text(attribute) {
        Err(TextErr::Broken(refusal)) => Err(ReadErr::Refused(refusal)),
        Err(TextErr::Outside) | Ok(_) => Ok(()),
    }
}

/// Checks an attribute that must be a string, and then its text.
pub(crate) fn text_items<'a>(die: &Die<'a>, attribute: EntryAttribute<'a>) -> Result<(), ReadErr>
    ensures { Answers (first_fault (text_items die.now.info die.now.die (attribute_kept attribute.entry))) result }
{
    own_item(die, attribute, Class::Text)?;
    found_items(die, attribute)
}

/// The rule that a name breaks which must be a word.
fn word_rule<'a>(
    alloc: Global,
    die: &Die<'a>,
    attribute: EntryAttribute<'a>,
) -> Result<Option<u8>, Memory>
    ensures { IfOk result (λ r. r ≡ role_rule die.now.info die.now.die (attribute_kept attribute.entry) Meant.word) }
{
    let Ok(text) = die.text(attribute) else {
        return Ok(None);
    };
    match word_in(alloc, text)? {
        Some(_) => Ok(None),
        None => Ok(Some(rule::NO_WORD)),
    }
}

/// The rule that a name breaks with those around it: together they are too long.
fn joined_rule(alloc: Global, die: &Die<'_>) -> Result<Option<u8>, Memory>
    ensures { IfOk result (λ r. r ≡ (if is_too_long die.now.info die.now.die then Some no_text else None)) }
{
    if is_too_long(alloc, die)? {
        Ok(Some(NO_TEXT))
    } else {
        Ok(None)
    }
}

/// The rule that a name breaks by what it must be.
fn role_rule<'a>(
    alloc: Global,
    die: &Die<'a>,
    attribute: EntryAttribute<'a>,
    role: Role,
) -> Result<Option<u8>, Memory>
    ensures { IfOk result (λ r. r ≡ role_rule die.now.info die.now.die (attribute_kept attribute.entry) (role_meant role)) }
{
    match role {
        Role::Word => word_rule(alloc, die, attribute),
        Role::Joined => joined_rule(alloc, die),
        Role::Plain => Ok(None),
    }
}

/// Checks a name: the attribute, its text, and then what it must be.
pub(crate) fn name_items<'a>(
    alloc: Global,
    die: &Die<'a>,
    attribute: EntryAttribute<'a>,
    role: Role,
) -> Result<(), ReadErr>
    ensures { Answers (first_fault (name_items die.now.info die.now.die (attribute_kept attribute.entry) (role_meant role))) result }
{
    text_items(die, attribute)?;
    let rule = role_rule(alloc, die, attribute, role)?;
    answer(attribute.offset, rule)
}
