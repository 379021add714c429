//! The rules that statics break (DWARF 5, 4.1).
ghost use Rattle.std.specs.Prelude.{◌≡◌};
ghost use Rattle.dwarf_entries.specs.Codes.{at_type};
ghost use Rattle.dwarf_entries.specs.Origins.{bearer_of};
ghost use Rattle.dwarf_entries.specs.PassC.{static_rule};
ghost use Rattle.dwarf_rules.specs.Statics.{bearer_rule, lost_rule};

use dwarf_dies::Die;
use dwarf_entries::{at, rule};
use dwarf_links::{TypeLinks, lowest, rule_if};
use dwarf_scopes::{bearer_of, goes_on, is_too_far};

/// The rule of a static whose type isn't found: there is a further origin, or there is no type.
fn lost_rule(die: &Die<'_>) -> u8
    ensures { result ≡ lost_rule die.now.info die.now.die }
{
    if goes_on(die) {
        rule::TOO_LONG
    } else {
        rule::MISSING
    }
}

/// The rule that the type of a static breaks, which may be that of an origin.
fn bearer_rule(links: &TypeLinks<'_>, die: &Die<'_>) -> Option<u8>
    requires { die.now.info ≡ links.now }
    ensures { result ≡ bearer_rule links.now die.now.die (bearer_of at_type links.now die.now.die) }
{
    match bearer_of(die, at::TYPE) {
        Some(bearer) => links.type_rule(&bearer),
        None => Some(lost_rule(die)),
    }
}

/// The lowest rule that a static breaks: 40 where it has no type, those of a link to a type, and 46 where its
/// name or its type isn't found in 8 steps. Takes no memory.
pub fn static_rule(links: &TypeLinks<'_>, die: &Die<'_>) -> Option<u8>
    requires { die.now.info ≡ links.now }
    ensures { result ≡ static_rule links.now die.now.die }
{
    let name_rule = rule_if(is_too_far(die, at::NAME), rule::TOO_LONG);
    lowest(bearer_rule(links, die), name_rule)
}
