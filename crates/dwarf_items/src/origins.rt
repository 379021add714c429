//! The entries from which a variable takes a name or a type (DWARF 5, 3.3.8.2, DW_AT_abstract_origin).
ghost use Rattle.std.specs.Prelude.{◌≡◌, ◌==◌, ◌&&◌, Some, false, []};
ghost use Rattle.dwarf_dies.specs.Attributes.{attribute_kept};
ghost use Rattle.dwarf_entries.specs.Codes.{at_abstract_origin};
ghost use Rattle.dwarf_entries.specs.Items.{first_fault};
ghost use Rattle.dwarf_entries.specs.OriginItems.{any, both, may_step, origin_attribute, origin_items, origins_items, still};
ghost use Rattle.dwarf_items.specs.Answers.{Answers};
ghost use Rattle.dwarf_items.specs.Lacks.{wants_of};
ghost use Rattle.dwarf_scopes.specs.Roles.{role_meant};

use crate::around::around_items;
use crate::firsts::first_attributes;
use crate::name::name_items;
use crate::own::own_item;
use dwarf_dies::Die;
use dwarf_entries::{Class, at};
use dwarf_scopes::Role;
use dwarf_units::EntryAttribute;
use layout_set::ReadErr;
use std::alloc::Global;

/// How many origins more may follow the first one.
const MOST_STEPS: u32 = 7;

/// What an entry still lacks.
#[derive(Clone, Copy, Debug, PartialEq, Eq)]
pub(crate) struct Lacks {
    name: bool,
    type_link: bool,
}

/// What is lacking that this entry hasn't either.
fn still(lacks: Lacks, die: &Die<'_>) -> Lacks
    ensures { wants_of result ≡ still die.now.die (wants_of lacks) }
{
    Lacks {
        name: lacks.name && !die.has(at::NAME),
        type_link: lacks.type_link && !die.has(at::TYPE),
    }
}

/// Whether anything is lacking.
fn any(lacks: Lacks) -> bool
    ensures { result ≡ any (wants_of lacks) }
{
    lacks.name || lacks.type_link
}

/// Whether a step more may be taken.
fn may_step(steps: u32) -> bool
    ensures { result ≡ may_step steps }
{
    match steps {
        0 => false,
        _ => true,
    }
}

/// Whether an attribute with this code leads to a further origin: one more step may be taken, and something
/// is still lacking.
fn leads_on(left: Lacks, steps: u32, code: u64) -> bool
    ensures { result ≡ (code == at_abstract_origin && (may_step steps && any (wants_of left))) }
{
    code == at::ABSTRACT_ORIGIN && may_step(steps) && any(left)
}

/// Checks an attribute of an origin from which no further step is taken.
fn last_attribute<'a>(
    alloc: Global,
    role: Role,
    lacks: Lacks,
    origin: &Die<'a>,
    attribute: EntryAttribute<'a>,
) -> Result<(), ReadErr>
    ensures { Answers (first_fault (origin_attribute origin.now.info (role_meant role) (wants_of lacks) false [] origin.now.die (attribute_kept attribute.entry))) result }
{
    if attribute.attr == at::NAME && lacks.name {
        return name_items(alloc, origin, attribute, role);
    }
    if attribute.attr == at::TYPE && lacks.type_link {
        return own_item(origin, attribute, Class::Link);
    }
    Ok(())
}

/// Checks an origin and those after it, in at most so many steps: its attributes that give something, in
/// order, and then the names around it.
fn origin_items(
    alloc: Global,
    role: Role,
    lacks: Lacks,
    steps: u32,
    origin: &Die<'_>,
) -> Result<(), ReadErr>
    ensures { Answers (first_fault (origin_items steps origin.now.info (role_meant role) (wants_of lacks) (Some origin.now.die))) result }
{
    let left = still(lacks, origin);
    let firsts = first_attributes(alloc, origin)?;
    for attribute in firsts.as_slice() {
        if leads_on(left, steps, attribute.attr) {
            own_item(origin, *attribute, Class::Link)?;
            if let Some(next) = origin.linked(at::ABSTRACT_ORIGIN) {
                origin_items(alloc, role, left, steps - 1, &next)?;
            }
        } else {
            last_attribute(alloc, role, lacks, origin, *attribute)?;
        }
    }
    around_items(origin)
}

/// Checks the origins of a variable, where it lacks a name or a type.
pub(crate) fn origins_items(alloc: Global, role: Role, die: &Die<'_>) -> Result<(), ReadErr>
    ensures { Answers (first_fault (origins_items die.now.info (role_meant role) die.now.die)) result }
{
    let lacks = still(
        Lacks {
            name: true,
            type_link: true,
        },
        die,
    );
    if !any(lacks) {
        return Ok(());
    }
    match die.linked(at::ABSTRACT_ORIGIN) {
        Some(origin) => origin_items(alloc, role, lacks, MOST_STEPS, &origin),
        None => Ok(()),
    }
}
