//! Which entries are passed over, and with them all below.
ghost use Rattle.std.specs.Prelude.{◌≡◌};
ghost use Rattle.dwarf_entries.specs.PassedOver.{hides, is_codeless, is_hidden, is_in_function, is_in_type, is_out_of_place, is_passed, is_read, is_unnamed_variable};
ghost use Rattle.dwarf_entries.specs.Dies.{what};

use crate::origins::is_unnamed;
use crate::tags::{is_function, is_type, is_union, is_variable};
use dwarf_dies::Die;
use dwarf_entries::{Tag, at};

/// Whether a function is around an entry. Goes up at most 256 steps. Takes no memory.
pub fn is_in_function(die: &Die<'_>) -> bool
    ensures { result ≡ is_in_function die.now.die }
{
    let mut above = die.parent();
    while let Some(up) = above {
        if is_function(up.what()) {
            return true;
        }
        above = up.parent();
    }
    false
}

/// Whether of the functions and types around an entry the nearest is a type. Goes up at most 256 steps.
/// Takes no memory.
pub fn is_in_type(die: &Die<'_>) -> bool
    ensures { result ≡ is_in_type die.now.die }
{
    let mut above = die.parent();
    while let Some(up) = above {
        let what = up.what();
        if is_function(what) {
            return false;
        }
        if is_type(what) {
            return true;
        }
        above = up.parent();
    }
    false
}

/// Whether a function is without code: a declaration, or one without low_pc and ranges.
fn is_codeless(die: &Die<'_>) -> bool
    ensures { result ≡ is_codeless die.now.die.entry }
{
    die.flag_of(at::DECLARATION) || (!die.has(at::LOW_PC) && !die.has(at::RANGES))
}

/// Whether an entry says nothing, by its tag and its place.
fn is_out_of_place(die: &Die<'_>) -> bool
    ensures { result ≡ is_out_of_place die.now.die (what die.now.die) }
{
    match die.what() {
        None => true,
        Some(Tag::LexicalBlock) => !is_in_function(die),
        Some(Tag::FormalParameter) => is_in_type(die) || !is_in_function(die),
        Some(Tag::Variable) => is_in_type(die),
        Some(Tag::Subprogram) => is_codeless(die),
        Some(_) => false,
    }
}

/// Whether an entry is a variable without a name.
fn is_unnamed_variable(die: &Die<'_>) -> bool
    ensures { result ≡ is_unnamed_variable die.now.info die.now.die }
{
    is_variable(die.what()) && is_unnamed(die)
}

/// Whether what is below an entry is passed over.
fn hides(die: &Die<'_>) -> bool
    ensures { result ≡ hides die.now.info die.now.die }
{
    is_out_of_place(die) || is_unnamed_variable(die) || is_union(die.what())
}

/// Whether an entry around this one is passed over, or is a union.
fn is_hidden(die: &Die<'_>) -> bool
    ensures { result ≡ is_hidden die.now.info die.now.die }
{
    let mut above = die.parent();
    while let Some(up) = above {
        if hides(&up) {
            return true;
        }
        above = up.parent();
    }
    false
}

/// Whether an entry is passed over. Takes no memory.
pub fn is_passed(die: &Die<'_>) -> bool
    ensures { result ≡ is_passed die.now.info die.now.die }
{
    is_hidden(die) || is_out_of_place(die) || is_unnamed_variable(die)
}

/// Whether the attributes of an entry are looked at: it isn't passed over, or only for want of a name
/// that its origins might have had. Takes no memory.
pub fn is_read(die: &Die<'_>) -> bool
    ensures { result ≡ is_read die.now.info die.now.die }
{
    !(is_hidden(die) || is_out_of_place(die))
        && (die.has(at::ABSTRACT_ORIGIN) || !is_unnamed_variable(die))
}
