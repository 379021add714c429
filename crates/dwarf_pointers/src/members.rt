//! Members, and the attributes that entries need (DWARF 5, 5.7.6).
ghost use Rattle.std.specs.Prelude.{◌≡◌, IfOk, map};
ghost use Rattle.std.specs.List.{list_all};
ghost use Rattle.dwarf_entries.specs.Lookups.{has};
ghost use Rattle.dwarf_entries.specs.PassC.{bit_rule, needs};
ghost use Rattle.dwarf_entries.specs.Structures.{members_of};
ghost use Rattle.dwarf_dies.specs.Handles.{beside};

use dwarf_dies::Die;
use dwarf_entries::{at, rule};
use dwarf_links::rule_if;
use dwarf_scopes::has_part;
use dwarf_scopes::tags::is_member;
use rv_io::{List, Memory};
use std::alloc::Global;

/// Whether an entry has attributes of all these codes.
fn has_all(die: &Die<'_>, codes: &[u64]) -> bool
    ensures { result ≡ list_all (λ code. has code die.now.die.entry) codes.now }
{
    for code in codes {
        if !die.has(*code) {
            return false;
        }
    }
    true
}

/// Rule 40, where an entry lacks an attribute that has one of these codes. Takes no memory.
pub fn needs(codes: &[u64], die: &Die<'_>) -> Option<u8>
    ensures { result ≡ needs codes.now die.now.die.entry }
{
    rule_if(!has_all(die, codes), rule::MISSING)
}

/// Rule 48, where a member is a bit field. Takes no memory.
pub fn bit_rule(die: &Die<'_>) -> Option<u8>
    ensures { result ≡ bit_rule die.now.die }
{
    rule_if(
        die.has(at::BIT_SIZE) || die.has(at::DATA_BIT_OFFSET),
        rule::BIT_FIELD,
    )
}

/// The members that are fields of a structure, in order; none where it has a variant part.
pub fn members_of<'a>(alloc: Global, die: &Die<'a>) -> Result<List<Die<'a>>, Memory>
    ensures { IfOk result (λ members. members ≡ map (beside die.now) (members_of die.now.info die.now.die)) }
{
    let mut members = List::new(alloc);
    if has_part(die) {
        return Ok(members);
    }
    for child in die.children() {
        if is_member(child.what()) {
            members.push(child)?;
        }
    }
    Ok(members)
}
