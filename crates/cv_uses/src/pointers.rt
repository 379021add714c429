//! The simple pointers that are used.
ghost use Rattle.std.specs.Prelude.{◌≡◌, IfOk, map, filter};
ghost use Rattle.cv_type_defs.specs.Uses.{used_pointers};
ghost use Rattle.cv_uses.specs.Marks.{marked, no_marks, with_marks};
ghost use Rattle.cv_uses.specs.Used.{all_uses};
ghost use Rattle.cv_type_defs.specs.SimpleTypes.{primitives};

use crate::marks::Marks;
use crate::uses::mark_record;
use crate::variables::mark_variables;
use cv_links::Links;
use cv_symbol_records::SymRec;
use rv_io::Memory;
use std::alloc::Global;

/// All simple types that are primitives, rising.
const PRIMITIVES: [u32; 15] = [
    0x03, 0x10, 0x11, 0x13, 0x14, 0x20, 0x21, 0x23, 0x24, 0x30, 0x40, 0x41, 0x74, 0x75, 0x7b,
];

/// The marks of the simple pointers to which records and variables lead.
fn read_marks(alloc: Global, links: &Links<'_>, symbols: &[&SymRec]) -> Result<Marks, Memory>
    ensures { IfOk result (λ marks. marks ≡ with_marks no_marks (all_uses links.now (map (λ s. s.now) symbols.now))) }
{
    let mut marks = Marks::new();
    for place in 0..links.len() {
        mark_record(alloc, &mut marks, links, place)?;
    }
    mark_variables(&mut marks, links, symbols);
    Ok(marks)
}

/// The simple types that are primitives and whose pointers are marked, rising.
fn marked_types(alloc: Global, marks: &Marks) -> Result<Vec<u32>, Memory>
    ensures { IfOk result (λ used. used.items ≡ filter (marked marks.now) primitives) }
{
    let used: Vec<u32> = PRIMITIVES
        .iter()
        .copied()
        .filter(|simple| marks.is_marked(*simple))
        .collect(alloc)?;
    Ok(used)
}

/// The simple types to which simple pointers lead that are types of the set, rising: those that a variable
/// among these symbols, a pointer, an array or a field names. Takes a time that grows with the count of the
/// members that numbered records go through, and of the symbols.
pub fn used_pointers(
    alloc: Global,
    links: &Links<'_>,
    symbols: &[&SymRec],
) -> Result<Vec<u32>, Memory>
    ensures { IfOk result (λ used. used.items ≡ used_pointers links.now (map (λ s. s.now) symbols.now)) }
{
    let marks = read_marks(alloc, links, symbols)?;
    marked_types(alloc, &marks)
}
