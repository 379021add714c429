//! LF_POINTERs.
ghost use Rattle.std.specs.Prelude.{◌≡◌};
ghost use Rattle.cv_type_defs.specs.Structures.{pointer_def, pointer_rule};
ghost use Rattle.cv_links.specs.Seen.{target_seen};
ghost use Rattle.cv_structures.specs.steps.Structures.{pointee_rule};

use crate::fields::or_unit;
use cv_fields::{lower, rule, rule_if};
use cv_links::Target;
use cv_type_defs::pointer_kind;
use cv_type_refs::TypeInfo;
use layout_set::TypeDef;
use names::PtrKind;

/// The type that the LF_POINTER at a place is, which leads there and has these attributes: a pointer to a
/// function, or a thin one. Takes no memory.
pub fn pointer_def(info: &TypeInfo<'_>, place: usize, ty: u32, attributes: u32) -> TypeDef
    ensures { result ≡ pointer_def info.now place ty attributes }
{
    let to = info.links().target(place, ty);
    if info.links().leads_to_function(to) {
        return TypeDef::FnPtr;
    }
    TypeDef::Thin {
        kind: pointer_kind(attributes).unwrap_or(PtrKind::Mut),
        to: or_unit(info.type_of(to)),
    }
}

/// The rule that the link of a pointer breaks; a function breaks none.
fn pointee_rule(info: &TypeInfo<'_>, to: Target) -> Option<u8>
    ensures { result ≡ pointee_rule info.now (target_seen to) }
{
    if info.links().leads_to_function(to) {
        None
    } else {
        info.type_rule(to)
    }
}

/// The lowest of the rules that such an LF_POINTER breaks: its attributes are another's, or it leads to no
/// type. Takes no memory.
pub fn pointer_rule(info: &TypeInfo<'_>, place: usize, ty: u32, attributes: u32) -> Option<u8>
    ensures { result ≡ pointer_rule info.now place ty attributes }
{
    let kind = rule_if(pointer_kind(attributes).is_none(), rule::WRONG_KIND);
    lower(kind, pointee_rule(info, info.links().target(place, ty)))
}
