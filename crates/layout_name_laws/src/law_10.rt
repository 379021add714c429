//! Law 10: names of types, statics and functions.
ghost use Rattle.std.specs.Prelude.{◌≡◌, IfOk, IfSome, IsTrue, length, option_copied};
ghost use Rattle.std.specs.Bool.{Decides};
ghost use Rattle.std.specs.List.{HoldsAt};
ghost use Rattle.layout_set.specs.Found.{IsFirst, Found};
ghost use Rattle.layout_set.specs.DerivedNames.{IsShort};
ghost use Rattle.layout_name_laws.specs.NameLengths.{name_fits, IsSettled, rust_firsts, cv_firsts};
ghost use Rattle.layout_set.specs.Law10.{IsGoodName, HasOwnShape, HasGoodName, IsNewName, HasDerivedName, HasPathName, IsNamedByPath, Law10};
ghost use Rattle.layout_set.specs.IsSet.{AreNamed, IsSet};
ghost use Rattle.layout_set.specs.NameShapes.{is_path};
ghost use Rattle.layout_name_laws.specs.RustTexts.{IsNewText};

use crate::cv_lengths::cv_firsts;
use crate::name_lengths::{NameLength, settled};
use crate::rust_lengths::rust_firsts;
use crate::rust_texts::{first_repeated, rust_texts};
use crate::spelled::{cv_bytes, name_of, rust_bytes};
use layout_set::breach::breach;
use layout_set::{
    CheckErr, FatContent, Func, Set, Static, TypeDef, earlier, fat_of, is_fat, is_path, is_raw,
    is_struct_name,
};
use rv_io::Memory;
use std::alloc::Global;
use type_names::{Name, one_rust_name};

const MOST_BYTES: usize = 1000;

/// Whether the name has at most 1,000 bytes in either spelling.
fn is_short(alloc: Global, name: &Name) -> Result<bool, Memory>
    ensures { IfOk result (λ short. Decides short (IsShort name.now)) }
{
    let rust = rust_bytes(alloc, name)?;
    let cv = cv_bytes(alloc, name)?;
    Ok(rust.len() <= MOST_BYTES && cv.len() <= MOST_BYTES)
}

/// Whether the name is no raw text and is short.
fn is_good_name(alloc: Global, name: &Name) -> Result<bool, Memory>
    ensures { IfOk result (λ good. Decides good (IsGoodName name.now)) }
{
    let short = is_short(alloc, name)?;
    Ok(!is_raw(name) && short)
}

/// Whether the type's name has the shape that its kind asks for.
#[tactic(auto, unfolding(layout_set::specs::Law10::HasOwnShape))]
fn has_own_shape(def: &TypeDef) -> bool
    ensures { Decides result (HasOwnShape def.now) }
{
    match def {
        TypeDef::Struct { name, .. } => is_struct_name(name) && fat_of(name).is_none(),
        TypeDef::Slice { name, kind, .. } => is_fat(name, *kind, FatContent::OfSlice),
        TypeDef::Str { name, kind, .. } => is_fat(name, *kind, FatContent::OfStr),
        TypeDef::Dyn { name, kind, .. } => is_fat(name, *kind, FatContent::OfDyn),
        TypeDef::CLike { name, .. } | TypeDef::Enum { name, .. } | TypeDef::Bytes { name, .. } => {
            is_path(name)
        }
        TypeDef::Array { .. } | TypeDef::Thin { .. } | TypeDef::FnPtr => true,
    }
}

/// Whether there is no name, or a good one.
fn is_good_if_named(alloc: Global, name: Option<&Name>) -> Result<bool, Memory>
    ensures { IfOk result (λ good. Decides good (IfSome (option_copied name.entry) IsGoodName)) }
{
    match name {
        Some(name) => is_good_name(alloc, name),
        None => Ok(true),
    }
}

/// Whether the type's name is good and has the shape that its kind asks for.
#[tactic(auto, unfolding(layout_set::specs::Law10::HasGoodName))]
fn has_good_name(alloc: Global, def: &TypeDef) -> Result<bool, Memory>
    ensures { IfOk result (λ kept. Decides kept (HasGoodName def.now)) }
{
    let good = is_good_if_named(alloc, name_of(def))?;
    Ok(good && has_own_shape(def))
}

/// The first type whose name is not good, or has the wrong shape.
fn first_misnamed(alloc: Global, types: &[TypeDef]) -> Result<Option<usize>, Memory>
    ensures { IfOk result (IsFirst (HoldsAt HasGoodName types.now) (length types.now)) }
{
    for (i, def) in types.iter().enumerate() {
        if !has_good_name(alloc, def)? {
            return Ok(Some(i));
        }
    }
    Ok(None)
}

/// Whether the last lengths of a type are those of a name that its kind may have.
fn name_fits(def: &TypeDef, rust: NameLength, cv: NameLength) -> bool
    ensures { result ≡ name_fits def.now rust cv }
{
    match def {
        TypeDef::Array { .. } => rust.to.is_none(),
        TypeDef::Thin { .. } => {
            rust.to.is_none() && rust.len < 1001 && cv.to.is_none() && cv.len < 1001
        }
        _ => true,
    }
}

/// The first type whose derived name doesn't end, or is too long.
fn first_misfit(types: &[TypeDef], rust: &[NameLength], cv: &[NameLength]) -> Option<usize>
    requires rust { IsSettled (rust_firsts types.now) rust.now }
    requires cv { IsSettled (cv_firsts types.now) cv.now }
    ensures { IsFirst (HasDerivedName types.now) (length types.now) result }
{
    for (i, def) in types.iter().enumerate() {
        if !name_fits(def, rust[i], cv[i]) {
            return Some(i);
        }
    }
    None
}

/// The first type whose derived name never ends or is too long.
fn first_underived(alloc: Global, types: &[TypeDef]) -> Result<Option<usize>, Memory>
    ensures { IfOk result (IsFirst (HasDerivedName types.now) (length types.now)) }
{
    let rust = settled(alloc, rust_firsts(alloc, types)?)?;
    let cv = settled(alloc, cv_firsts(alloc, types)?)?;
    Ok(first_misfit(types, rust.as_slice(), cv.as_slice()))
}

/// Whether the name is good and a path.
fn is_good_path(alloc: Global, name: &Name) -> Result<bool, Memory>
    ensures { IfOk result (λ good. Decides good (IsGoodName name.now × IsTrue (is_path name.now))) }
{
    let good = is_good_name(alloc, name)?;
    Ok(good && is_path(name))
}

/// The first static whose name is not good, or no path.
fn first_static_10(alloc: Global, statics: &[Static]) -> Result<Option<usize>, Memory>
    ensures { IfOk result (IsFirst (HoldsAt HasPathName statics.now) (length statics.now)) }
{
    for (i, fixed) in statics.iter().enumerate() {
        if !is_good_path(alloc, &fixed.name)? {
            return Ok(Some(i));
        }
    }
    Ok(None)
}

/// The first function whose name is not good, or no path.
fn first_func_10(alloc: Global, funcs: &[Func]) -> Result<Option<usize>, Memory>
    ensures { IfOk result (IsFirst (HoldsAt IsNamedByPath funcs.now) (length funcs.now)) }
{
    for (i, func) in funcs.iter().enumerate() {
        if !is_good_path(alloc, &func.name)? {
            return Ok(Some(i));
        }
    }
    Ok(None)
}

/// The first type without a good name, or with the name of an earlier one.
fn first_named_ill(alloc: Global, types: &[TypeDef]) -> Result<Option<usize>, Memory>
    requires { AreNamed types.now }
    ensures { IfOk result (IsFirst (λ i. HoldsAt HasGoodName types.now i × IsNewName types.now i) (length types.now)) }
{
    // Names are told apart by their texts.
    one_rust_name();
    let misnamed = first_misnamed(alloc, types)?;
    let texts = rust_texts(alloc, types)?;
    let again = first_repeated(alloc, texts.as_slice())?;
    Ok(earlier(misnamed, again))
}

/// The first type of which law 10 is false.
fn first_def_10(alloc: Global, types: &[TypeDef]) -> Result<Option<usize>, Memory>
    requires { AreNamed types.now }
    ensures { IfOk result (IsFirst (λ i. (HoldsAt HasGoodName types.now i × IsNewName types.now i) × HasDerivedName types.now i) (length types.now)) }
{
    let named = first_named_ill(alloc, types)?;
    let derived = first_underived(alloc, types)?;
    Ok(earlier(named, derived))
}

/// Law 10: names are Rust's, short, of the right shapes and new, and derived names are short.
pub fn law_10(alloc: Global, set: &Set) -> Result<(), CheckErr>
    requires { IsSet set.now }
    ensures { Found set.now 10 (Law10 set.now) result }
{
    let def = first_def_10(alloc, set.types.as_slice())?;
    let fixed = first_static_10(alloc, set.statics.as_slice())?;
    let func = first_func_10(alloc, set.funcs.as_slice())?;
    breach(10, true, def, fixed, func)
}
