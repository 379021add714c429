//! How answers are shown.
use case_words::mistake::Mistake;
use layout_set::{Primitive, TypeRef};

/// Adds ` breaks RULE`, where one is broken.
pub fn put_rule(text: &mut String, rule: Option<u8>) -> Result<(), Mistake> {
    if let Some(rule) = rule {
        write!(text, " breaks {rule}")?;
    }
    Ok(())
}

/// Adds ` PRIMITIVE`.
pub fn put_primitive(text: &mut String, prim: Primitive) -> Result<(), Mistake> {
    write!(text, " {prim:?}")?;
    Ok(())
}

/// Adds ` PRIMITIVE`, ` type PLACE` or ` nothing`.
pub fn put_type(text: &mut String, ty: Option<TypeRef>) -> Result<(), Mistake> {
    match ty {
        Some(TypeRef::Prim(prim)) => put_primitive(text, prim)?,
        Some(TypeRef::User(place)) => write!(text, " type {place}")?,
        None => text.push_str(" nothing")?,
    }
    Ok(())
}
