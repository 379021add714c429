//! Small calls on CodeView's types.
use crate::wanted::{code_in, primitive_of};
use case_words::lines::number;
use case_words::mistake::Mistake;
use case_words::words::first;
use cv_type_defs::{
    enum_text, is_closed, is_enum_name, is_forward, is_helper_name, is_unit_name, modulo,
    of_halves, pointed_at, pointer_kind, primitive_at, put_constant_name, put_helper_name,
    put_variants_name,
};
use rv_io::Buf;
use std::alloc::Global;

/// Of `CALL WORD ..` what the call gives.
pub fn answer(alloc: Global, row: &str) -> Result<String, Mistake> {
    let (call, words) = first(row)?;
    match call {
        "primitive" => primitive(alloc, words),
        "pointed" => pointed(alloc, words),
        "pointer" => pointer(alloc, words),
        "forward" => forward(alloc, words),
        "modulo" => remainder(alloc, words),
        "halves" => halves(alloc, words),
        _ => of_name(alloc, call, words),
    }
}

/// The calls on names.
fn of_name(alloc: Global, call: &str, words: &str) -> Result<String, Mistake> {
    match call {
        "kinds" => kinds(alloc, words),
        "enum-text" => Ok(String::from_utf8_lossy(alloc, enum_text(words.as_bytes()))?),
        "helper" => helper(alloc, words),
        "variants" => variants(alloc, words),
        "constant" => constant(alloc, words),
        _ => Err(Mistake::NotOfTheForm),
    }
}

/// A number of 32 bits of `0x` and hexadecimal digits.
fn index_in(word: &str) -> Result<u32, Mistake> {
    u32::try_from(code_in(word)?).map_err(|_| Mistake::NotOfTheForm)
}

/// Of `INDEX` the primitive of a simple type.
fn primitive(alloc: Global, index: &str) -> Result<String, Mistake> {
    let found = primitive_at(index_in(index)?);
    Ok(format!(in alloc; "{found:?}")?)
}

/// Of `INDEX` the primitive to which a simple type points.
fn pointed(alloc: Global, index: &str) -> Result<String, Mistake> {
    let found = pointed_at(index_in(index)?);
    Ok(format!(in alloc; "{found:?}")?)
}

/// Of `ATTRIBUTES` the kind of the pointer.
fn pointer(alloc: Global, attributes: &str) -> Result<String, Mistake> {
    let found = pointer_kind(index_in(attributes)?);
    Ok(format!(in alloc; "{found:?}")?)
}

/// Of `PROPERTY` whether the record stands for another.
fn forward(alloc: Global, property: &str) -> Result<String, Mistake> {
    let Ok(property) = u16::try_from(code_in(property)?) else {
        return Err(Mistake::NotOfTheForm);
    };
    let found = is_forward(property);
    Ok(format!(in alloc; "{found}")?)
}

/// Of `TYPE NUMBER` the number of the type.
fn remainder(alloc: Global, words: &str) -> Result<String, Mistake> {
    let (prim, n) = first(words)?;
    let found = modulo(primitive_of(prim)?, number::<i128>(n)?);
    Ok(format!(in alloc; "{found}")?)
}

/// Of `LOW HIGH` the number of these halves.
fn halves(alloc: Global, words: &str) -> Result<String, Mistake> {
    let (low, high) = first(words)?;
    let found = of_halves(number::<i128>(low)?, number::<i128>(high)?);
    Ok(format!(in alloc; "{found}")?)
}

/// Of a name which of the four kinds it is of.
fn kinds(alloc: Global, name: &str) -> Result<String, Mistake> {
    let name = name.as_bytes();
    let mut text = String::new(alloc);
    if is_enum_name(name) {
        text.push_str("enum ")?;
    }
    if is_closed(name) {
        text.push_str("closed ")?;
    }
    if is_helper_name(name) {
        text.push_str("helper ")?;
    }
    if is_unit_name(name) {
        text.push_str("unit ")?;
    }
    text.push_str("name")?;
    Ok(text)
}

/// Of `NUMBER NAME` the name of the helper.
fn helper(alloc: Global, words: &str) -> Result<String, Mistake> {
    let (n, name) = first(words)?;
    let mut out = Buf::new(alloc);
    put_helper_name(&mut out, name.as_bytes(), number::<u32>(n)?)?;
    Ok(String::from_utf8_lossy(alloc, out.as_bytes())?)
}

/// Of a name that of the variants' names.
fn variants(alloc: Global, name: &str) -> Result<String, Mistake> {
    let mut out = Buf::new(alloc);
    put_variants_name(&mut out, name.as_bytes())?;
    Ok(String::from_utf8_lossy(alloc, out.as_bytes())?)
}

/// Of `MEMBER HELPER` the name of the constant.
fn constant(alloc: Global, words: &str) -> Result<String, Mistake> {
    let (member, helper) = first(words)?;
    let mut out = Buf::new(alloc);
    put_constant_name(&mut out, helper.as_bytes(), member.as_bytes())?;
    Ok(String::from_utf8_lossy(alloc, out.as_bytes())?)
}
