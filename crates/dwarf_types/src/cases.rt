//! Enumerations and their cases (DWARF 5, 5.7).
ghost use Rattle.std.specs.Prelude.{◌≡◌, IfOk, map, unwrap_or};
ghost use Rattle.dwarf_abbrev.specs.Values.{Val};
ghost use Rattle.dwarf_entries.specs.Codes.{at_const_value};
ghost use Rattle.dwarf_entries.specs.Discriminants.{case_number};
ghost use Rattle.dwarf_entries.specs.Lookups.{value_of};
ghost use Rattle.dwarf_entries.specs.Structures.{children_with};
ghost use Rattle.dwarf_entries.specs.Types.{case_of, enumeration_def, is_enumerator};
ghost use Rattle.dwarf_types.specs.Said.{HasCases, IsNamed};
ghost use Rattle.layout_set.specs.Primitives.{prim_bytes};

use dwarf_abbrev::Attr;
use dwarf_dies::Die;
use dwarf_entries::{at, case_number};
use dwarf_links::TypeLinks;
use dwarf_names::{name_of, own_word};
use dwarf_pointers::enumeration_primitive;
use dwarf_scopes::tags::is_enumerator;
use layout_set::{Case, Primitive, TypeDef};
use rv_io::{List, Memory};
use std::alloc::Global;

/// The number of an enumerator, for an enumeration of this type.
fn number_of_case(prim: Primitive, die: &Die<'_>) -> u64
    ensures { result ≡ case_number (prim_bytes 8 prim) (unwrap_or (value_of at_const_value die.now.die.entry) (Val.Unsigned 0)) }
{
    match die.value(at::CONST_VALUE) {
        Some(value) => case_number(prim, value),
        None => case_number(prim, Attr::Unsigned(0)),
    }
}

/// The case that an enumerator is, for an enumeration of this type. Takes memory for its name.
pub fn case_of(alloc: Global, prim: Primitive, die: &Die<'_>) -> Result<Case, Memory>
    requires { IsNamed die.now.info die.now.die }
    ensures { IfOk result (λ case. case ≡ case_of die.now.info prim die.now.die) }
{
    let name = own_word(alloc, die)?;
    Ok(Case {
        name,
        number: number_of_case(prim, die),
    })
}

/// The cases of an enumeration of this type, in order.
pub fn cases_of(alloc: Global, prim: Primitive, die: &Die<'_>) -> Result<List<Case>, Memory>
    requires { HasCases die.now.info die.now.die }
    ensures { IfOk result (λ cases. cases ≡ map (case_of die.now.info prim) (children_with is_enumerator die.now.info die.now.die)) }
{
    let mut cases = List::new(alloc);
    for child in die.children() {
        if is_enumerator(child.what()) {
            let case = case_of(alloc, prim, &child)?;
            cases.push(case)?;
        }
    }
    Ok(cases)
}

/// The type that an enumeration is.
pub fn enumeration_def(
    alloc: Global,
    links: &TypeLinks<'_>,
    die: &Die<'_>,
) -> Result<TypeDef, Memory>
    requires here { die.now.info ≡ links.now }
    requires cases { HasCases die.now.info die.now.die }
    ensures { IfOk result (λ def. def ≡ enumeration_def links.now die.now.die) }
{
    let name = name_of(alloc, die)?;
    let tag = enumeration_primitive(links, die);
    let cases = cases_of(alloc, tag, die)?;
    Ok(TypeDef::CLike { name, tag, cases })
}
