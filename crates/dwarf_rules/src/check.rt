//! The rules that all entries break, in order.
ghost use Rattle.std.specs.Prelude.{◌≡◌, MatchResult, false};
ghost use Rattle.dwarf_entries.specs.Counts.{before};
ghost use Rattle.dwarf_entries.specs.Items.{fault_of, first_fault, in_info, item_at};
ghost use Rattle.dwarf_entries.specs.PassC.{entry_rule, pass_c};
ghost use Rattle.dwarf_entries.specs.PassedOver.{is_passed};
ghost use Rattle.dwarf_items.specs.Answers.{Answers, IsFault};
ghost use Rattle.dwarf_rules.specs.Counts.{AreWith, are_past, counts_among};
ghost use Rattle.dwarf_rules.specs.Shapes.{shapes_of};

use crate::counts::{Counts, counts_of};
use crate::items::answer;
use crate::shapes::{Shapes, read_shapes};
use crate::tags::tag_rule;
use dwarf_dies::Die;
use dwarf_links::{TypeLinks, lowest};
use dwarf_scopes::is_passed;
use layout_set::ReadErr;
use std::alloc::Global;

/// The most entries that a section has.
const MOST_ENTRIES: usize = 8_000_000;

/// Checks an entry that isn't passed over, after entries with these counts.
fn looked_at(
    alloc: Global,
    links: &TypeLinks<'_>,
    shapes: &Shapes,
    counts_before: Counts,
    die: &Die<'_>,
) -> Result<Counts, ReadErr>
    requires links { die.now.info ≡ links.now }
    requires shapes { shapes.now.shapes ≡ shapes_of links.now }
    requires before { counts_before ≡ counts_among links.now (before links.now die.now.die) }
    requires within { are_past counts_before ≡ false }
    requires looked_at { is_passed links.now die.now.die ≡ false }
    ensures { MatchResult result (AreWith links.now die.now.die counts_before) (IsFault (fault_of (item_at (in_info die.now.die.entry.offset) (entry_rule links.now die.now.die)))) }
{
    let own = counts_of(alloc, shapes, die)?;
    let after = counts_before.with(own);
    let rule = tag_rule(alloc, links, shapes, die)?;
    answer(die.offset(), lowest(after.limit_rule(), rule))?;
    Ok(after)
}

/// Checks an entry, after entries with these counts, and gives the counts with its own.
fn entry(
    alloc: Global,
    links: &TypeLinks<'_>,
    shapes: &Shapes,
    counts_before: Counts,
    die: &Die<'_>,
) -> Result<Counts, ReadErr>
    requires links { die.now.info ≡ links.now }
    requires shapes { shapes.now.shapes ≡ shapes_of links.now }
    requires before { counts_before ≡ counts_among links.now (before links.now die.now.die) }
    requires within { are_past counts_before ≡ false }
    ensures { MatchResult result (AreWith links.now die.now.die counts_before) (IsFault (fault_of (item_at (in_info die.now.die.entry.offset) (entry_rule links.now die.now.die)))) }
{
    if is_passed(die) {
        return Ok(counts_before);
    }
    looked_at(alloc, links, shapes, counts_before, die)
}

/// Checks what all entries say, entry by entry. Refuses the first that breaks a rule: the lowest rule that it
/// breaks, and where it begins.
pub fn check_entries(alloc: Global, links: &TypeLinks<'_>) -> Result<(), ReadErr>
    // No entry breaks a rule, or the refusal says which is the first that does.
    ensures { Answers (first_fault (pass_c links.now)) result }
{
    let dies = links.dies();
    let are_few = dies.len() <= MOST_ENTRIES;
    prove!(are_few);
    let shapes = read_shapes(alloc, links)?;
    let mut counts = Counts::NONE;
    for die in dies.iter() {
        counts = entry(alloc, links, &shapes, counts, &die)?;
    }
    Ok(())
}
