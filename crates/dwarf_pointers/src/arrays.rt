//! Arrays (DWARF 5, 5.5 and 5.13).
ghost use Rattle.std.specs.Prelude.{◌≡◌};
ghost use Rattle.dwarf_entries.specs.PassC.{array_rule};
ghost use Rattle.dwarf_entries.specs.Types.{count_of};

use dwarf_dies::Die;
use dwarf_entries::{at, rule};
use dwarf_links::{TypeLinks, lowest, rule_if};
use dwarf_scopes::tags::is_subrange;

/// The count of the one subrange of an array; None where that is missing, or there are more. Takes no
/// memory.
pub fn count_of(die: &Die<'_>) -> Option<u128>
    ensures { result ≡ count_of die.now.info die.now.die }
{
    let mut count = None;
    let mut is_seen = false;
    for child in die.children() {
        if is_subrange(child.what()) {
            if is_seen {
                return None;
            }
            is_seen = true;
            count = child.number_of(at::COUNT);
        }
    }
    count
}

/// The lowest rule that an array breaks: those of a link to a type, or 43 where it has another shape than
/// one subrange with a count. Takes no memory.
pub fn array_rule(links: &TypeLinks<'_>, die: &Die<'_>) -> Option<u8>
    requires { die.now.info ≡ links.now }
    ensures { result ≡ array_rule links.now die.now.die }
{
    let shape = rule_if(count_of(die).is_none(), rule::ARRAY_SHAPE);
    lowest(links.typed_rule(die), shape)
}
