//! Which records are types of the set, and how many are before each.
ghost use Rattle.std.specs.Prelude.{◌≡◌, IfOk, slice_get};
ghost use Rattle.cv_type_defs.specs.Numbering.{is_numbered};
ghost use Rattle.cv_links.specs.Ends.{AreNumbers};

use cv_type_defs::{is_forward, is_helper_name, is_unit_name};
use cv_type_records::{TypeKind, TypeRec};
use rv_io::Memory;
use std::alloc::Global;

/// Whether a record is a type of the set: a complete LF_POINTER, LF_ARRAY, LF_STRUCTURE, LF_UNION or
/// LF_ENUM that is neither a helper of an enum nor the unit. Takes no memory.
pub fn is_numbered(kind: &TypeKind) -> bool
    ensures { result ≡ is_numbered kind.now }
{
    match kind {
        TypeKind::Pointer { .. } | TypeKind::Array { .. } => true,
        TypeKind::Structure { property, name, .. } => {
            !is_forward(*property)
                && !(is_unit_name(name.as_bytes()) || is_helper_name(name.as_bytes()))
        }
        TypeKind::Union { property, .. } => !is_forward(*property),
        TypeKind::Enum { property, name, .. } => {
            !is_forward(*property) && !is_helper_name(name.as_bytes())
        }
        _ => false,
    }
}

/// One of some numbers, if it is there.
pub fn number_in(numbers: &[usize], place: usize) -> Option<usize>
    ensures { result ≡ slice_get numbers.now place }
{
    numbers.get(place).copied()
}

/// How many types of the set have their records before each place, up to the end.
pub fn read_numbers(alloc: Global, records: &[TypeRec]) -> Result<Vec<usize>, Memory>
    ensures { IfOk result (λ numbers. AreNumbers records.now numbers.items) }
{
    let mut numbers = Vec::new(alloc);
    let mut count: usize = 0;
    for next in records {
        numbers.push(count)?;
        if is_numbered(&next.kind) {
            count += 1;
        }
    }
    numbers.push(count)?;
    Ok(numbers)
}
