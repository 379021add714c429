//! LF_ENUMs: C-like enums.
ghost use Rattle.std.specs.Prelude.{◌≡◌, ◌^◌, IfOk, map, nat_lt, None};
ghost use Rattle.cv_type_defs.specs.Enumerations.{case_of, case_rule, enumeration_def, enumeration_rule};
ghost use Rattle.cv_type_defs.specs.FieldLists.{members_of};
ghost use Rattle.cv_type_defs.specs.Items.{lowest};

use crate::enumerators::{Enumerator, Enumerators, enumerators_of};
use crate::words::{word_of, word_rule};
use cv_fields::{lower, name_of_text, rule, rule_if};
use cv_type_defs::{enum_text, modulo};
use cv_type_refs::TypeInfo;
use layout_set::{Case, Primitive, TypeDef};
use rv_io::{List, Memory};
use std::alloc::Global;

/// The first number past 64 bits.
const PAST: u128 = 1 << 64;

/// Whether a number has 64 bits.
fn fits(number: u128) -> bool
    ensures { result ≡ nat_lt number (2 ^ 64) }
{
    number < PAST
}

/// The lowest of the rules that a case breaks, of an enum with this type: its number, modulo the size of
/// the type, has more than 64 bits, or its name is no word. Takes memory for its name.
pub fn case_rule(
    alloc: Global,
    prim: Primitive,
    case: &Enumerator<'_>,
) -> Result<Option<u8>, Memory>
    ensures { IfOk result (λ rule. rule ≡ case_rule prim case.now) }
{
    let number = rule_if(!fits(modulo(prim, case.number())), rule::NO_FIT);
    let name = word_rule(alloc, case.name())?;
    Ok(lower(number, name))
}

/// The case that an enumerator is, which breaks no rule.
fn case_of(alloc: Global, prim: Primitive, case: &Enumerator<'_>) -> Result<Case, Memory>
    requires { case_rule prim case.now ≡ None }
    ensures { IfOk result (λ made. made ≡ case_of prim case.now) }
{
    let name = word_of(alloc, case.name())?;
    Ok(Case {
        name,
        number: modulo(prim, case.number()) as u64,
    })
}

/// The lowest of the rules that cases break.
fn cases_rule(alloc: Global, prim: Primitive, cases: Enumerators<'_>) -> Result<Option<u8>, Memory>
    ensures { IfOk result (λ rule. rule ≡ lowest (map (case_rule prim) cases.entry)) }
{
    let mut low = None;
    for case in cases {
        low = lower(low, case_rule(alloc, prim, &case)?);
    }
    Ok(low)
}

/// The cases that enumerators are which break no rule, in order.
fn cases_of(alloc: Global, prim: Primitive, cases: Enumerators<'_>) -> Result<List<Case>, Memory>
    requires { lowest (map (case_rule prim) cases) ≡ None }
    ensures { IfOk result (λ made. made ≡ map (case_of prim) cases.entry) }
{
    let mut made = List::new(alloc);
    for case in cases {
        let one = case_of(alloc, prim, &case)?;
        made.push(one)?;
    }
    Ok(made)
}

/// The type that the complete LF_ENUM at a place is, which has this type, this index as its field list and
/// this name, and breaks no rule. Takes memory for it.
pub fn enumeration_def(
    alloc: Global,
    info: &TypeInfo<'_>,
    place: usize,
    ty: u32,
    fields: u32,
    name: &[u8],
) -> Result<TypeDef, Memory>
    requires { enumeration_rule info.now place ty (members_of info.now.records place fields) ≡ None }
    ensures { IfOk result (λ def. def ≡ enumeration_def info.now place ty (members_of info.now.records place fields) name.now) }
{
    let name = name_of_text(alloc, enum_text(name))?;
    let tag = info.enumeration_primitive(place, ty);
    let cases = cases_of(alloc, tag, enumerators_of(info.links(), place, fields))?;
    Ok(TypeDef::CLike { name, tag, cases })
}

/// The lowest of the rules that such an LF_ENUM breaks: its type is no primitive, or those of its list and
/// of its cases. Takes memory for names.
pub fn enumeration_rule(
    alloc: Global,
    info: &TypeInfo<'_>,
    place: usize,
    ty: u32,
    fields: u32,
) -> Result<Option<u8>, Memory>
    ensures { IfOk result (λ rule. rule ≡ enumeration_rule info.now place ty (members_of info.now.records place fields)) }
{
    let prim = info.primitive_rule(info.links().target(place, ty));
    let list = info.links().members_rule(place, fields);
    let tag = info.enumeration_primitive(place, ty);
    let cases = cases_rule(alloc, tag, enumerators_of(info.links(), place, fields))?;
    Ok(lower(prim, lower(list, cases)))
}
