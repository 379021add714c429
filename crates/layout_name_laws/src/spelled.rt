//! Names as bytes, and the lengths of what names are made of.
ghost use Rattle.std.specs.Prelude.{◌≡◌, IfOk, length, option_copied};
ghost use Rattle.type_names.specs.RustText.{rust_text};
ghost use Rattle.type_names.specs.CvText.{cv_text};
ghost use Rattle.layout_set.specs.DerivedNames.{name_of};

use layout_set::TypeDef;
use rv_io::{Buf, Memory};
use std::alloc::Global;
use type_names::{Name, cv_spelling, rust_spelling};

/// The name that a type is given.
pub(crate) fn name_of(def: &TypeDef) -> Option<&Name>
    ensures { option_copied result ≡ name_of def.now }
{
    match def {
        TypeDef::Struct { name, .. }
        | TypeDef::Slice { name, .. }
        | TypeDef::Str { name, .. }
        | TypeDef::Dyn { name, .. }
        | TypeDef::CLike { name, .. }
        | TypeDef::Enum { name, .. }
        | TypeDef::Bytes { name, .. } => Some(name),
        TypeDef::Array { .. } | TypeDef::Thin { .. } | TypeDef::FnPtr => None,
    }
}

/// The Rust spelling of a name.
pub(crate) fn rust_bytes(alloc: Global, name: &Name) -> Result<Vec<u8>, Memory>
    ensures { IfOk result (λ v. v.items ≡ rust_text name.now) }
{
    let mut out = Buf::new(alloc);
    rust_spelling(name, &mut out)?;
    Ok(out.into_vec())
}

/// The CodeView spelling of a name.
pub(crate) fn cv_bytes(alloc: Global, name: &Name) -> Result<Vec<u8>, Memory>
    ensures { IfOk result (λ v. v.items ≡ cv_text name.now) }
{
    let mut out = Buf::new(alloc);
    cv_spelling(name, &mut out)?;
    Ok(out.into_vec())
}
