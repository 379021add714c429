//! The items of all entries: those of their attributes, and those of what they say.
ghost use Rattle.dwarf_entries.specs.Items.{first_fault};
ghost use Rattle.dwarf_entries.specs.Said.{items};
ghost use Rattle.dwarf_items.specs.Answers.{Answers};

use dwarf_items::check_attributes;
use dwarf_links::TypeLinks;
use dwarf_rules::check_entries;
use layout_set::ReadErr;
use std::alloc::Global;

/// Checks that no item breaks a rule; refuses with the rule and the place of the first one that does.
pub fn check_items(alloc: Global, links: &TypeLinks<'_>) -> Result<(), ReadErr>
    ensures { Answers (first_fault (items links.now)) result }
{
    check_attributes(alloc, links.dies())?;
    check_entries(alloc, links)
}
