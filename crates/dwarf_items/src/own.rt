//! The rules that an attribute breaks by itself: by its class, or by where it leads.
ghost use Rattle.std.specs.Prelude.{◌≡◌, [], ◌∷◌};
ghost use Rattle.dwarf_dies.specs.Attributes.{attribute_kept};
ghost use Rattle.dwarf_entries.specs.AttributeItems.{attribute_rule, lead_rule, own_item};
ghost use Rattle.dwarf_entries.specs.Items.{first_fault};
ghost use Rattle.dwarf_entries.specs.declared.class.Class.{Class};
ghost use Rattle.dwarf_items.specs.Answers.{Answers};

use crate::items::answer;
use dwarf_dies::Die;
use dwarf_entries::{Class, TextErr, address_of, class_rule, rule};
use dwarf_units::EntryAttribute;
use layout_set::ReadErr;
use rv_bytes::rule::OUTSIDE;

/// The rule that a string breaks where its text is outside a section.
fn text_rule<'a>(die: &Die<'a>, attribute: EntryAttribute<'a>) -> Option<u8>
    ensures { result ≡ lead_rule die.now.info die.now.die (attribute_kept attribute.entry) Class.Text }
{
    match die.text(attribute) {
        Err(TextErr::Outside) => Some(OUTSIDE),
        Err(TextErr::Broken(_)) | Ok(_) => None,
    }
}

/// The rule that a reference breaks where no entry is at its target.
fn link_rule<'a>(die: &Die<'a>, attribute: EntryAttribute<'a>) -> Option<u8>
    ensures { result ≡ lead_rule die.now.info die.now.die (attribute_kept attribute.entry) Class.Link }
{
    if die.has_target(attribute.value) {
        None
    } else {
        Some(rule::NO_ENTRY)
    }
}

/// The rule that an address breaks where its index leads outside `.debug_addr`.
fn address_rule<'a>(die: &Die<'a>, attribute: EntryAttribute<'a>) -> Option<u8>
    ensures { result ≡ lead_rule die.now.info die.now.die (attribute_kept attribute.entry) Class.Address }
{
    match address_of(&die.sections(), die.bases(), attribute.value) {
        Some(_) => None,
        None => Some(OUTSIDE),
    }
}

/// The rule that a value of the right class breaks by where it leads.
fn lead_rule<'a>(die: &Die<'a>, attribute: EntryAttribute<'a>, class: Class) -> Option<u8>
    ensures { result ≡ lead_rule die.now.info die.now.die (attribute_kept attribute.entry) class }
{
    match class {
        Class::Text => text_rule(die, attribute),
        Class::Link => link_rule(die, attribute),
        Class::Address => address_rule(die, attribute),
        _ => None,
    }
}

/// The rule that an attribute breaks: by its class, or by where it leads.
fn attribute_rule<'a>(die: &Die<'a>, attribute: EntryAttribute<'a>, class: Class) -> Option<u8>
    ensures { result ≡ attribute_rule die.now.info die.now.die (attribute_kept attribute.entry) class }
{
    match class_rule(class, attribute.value) {
        Some(rule) => Some(rule),
        None => lead_rule(die, attribute, class),
    }
}

/// Checks an attribute itself, where it stands.
pub(crate) fn own_item<'a>(
    die: &Die<'a>,
    attribute: EntryAttribute<'a>,
    class: Class,
) -> Result<(), ReadErr>
    ensures { Answers (first_fault (own_item die.now.info die.now.die (attribute_kept attribute.entry) class ∷ [])) result }
{
    answer(attribute.offset, attribute_rule(die, attribute, class))
}
