//! The items that entries are.
ghost use Rattle.std.specs.Prelude.{◌≡◌};
ghost use Rattle.dwarf_entries.specs.Items.{fault_of, in_info, item_at};
ghost use Rattle.dwarf_items.specs.Answers.{Answers};

use layout_set::{ReadErr, Refusal, Section};

/// What a check of an entry answers that begins at this place of `.debug_info`, and breaks this rule.
pub(crate) fn answer(offset: u64, rule: Option<u8>) -> Result<(), ReadErr>
    ensures { Answers (fault_of (item_at (in_info offset) rule)) result }
{
    match rule {
        Some(rule) => Err(ReadErr::Refused(Refusal {
            section: Section::Info,
            offset,
            rule,
        })),
        None => Ok(()),
    }
}
