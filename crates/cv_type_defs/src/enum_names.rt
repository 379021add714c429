//! The names of enums and of their helpers.
ghost use Rattle.std.specs.Prelude.{◌≡◌, ◌++◌, length, take, OnOk, OnErr};
ghost use Rattle.cv_type_defs.specs.EnumNames.{helper_name, variants_name, constant_name};
ghost use Rattle.cv_type_defs.specs.Numbering.{is_enum_name, is_closed, is_helper_name, is_unit_name};
ghost use Rattle.cv_type_defs.specs.Texts.{enum_text};

use rv_io::{Buf, Memory};

/// What the names of enums and of their helpers begin with.
const ENUM: &[u8] = b"enum2$<";

/// The name of the unit.
const UNIT: &[u8] = b"tuple$<>";

/// Whether the name begins as that of an enum does. Takes no memory.
pub fn is_enum_name(name: &[u8]) -> bool
    ensures { result ≡ is_enum_name name.now }
{
    name.starts_with(ENUM)
}

/// Whether the name ends as that of an enum does. Takes no memory.
pub fn is_closed(name: &[u8]) -> bool
    ensures { result ≡ is_closed name.now }
{
    name.ends_with(b">")
}

/// Whether the name is that of a helper, which goes on after the enum's own. Takes no memory.
pub fn is_helper_name(name: &[u8]) -> bool
    ensures { result ≡ is_helper_name name.now }
{
    is_enum_name(name) && !is_closed(name)
}

/// Whether an LF_STRUCTURE of this name is the unit. Takes no memory.
pub fn is_unit_name(name: &[u8]) -> bool
    ensures { result ≡ is_unit_name name.now }
{
    name == UNIT
}

/// The text of an LF_UNION or LF_ENUM of this name: X of `enum2$<X>`, without one space at its end, and
/// the name itself where it is no such. Takes no memory.
pub fn enum_text(name: &[u8]) -> &[u8]
    ensures { result.now ≡ enum_text name.now }
{
    let Some(opened) = name.strip_suffix(b">") else {
        return name;
    };
    let Some(inner) = opened.strip_prefix(ENUM) else {
        return name;
    };
    match inner.strip_suffix(b" ") {
        Some(text) => text,
        None => inner,
    }
}

/// Appends the name of the helper of a variant of the enum that has this name: `enum2$<X>::VariantN`.
pub fn put_helper_name(out: &mut Buf, name: &[u8], number: u32) -> Result<(), Memory>
    ensures put { OnOk result (out.new ≡ out.old ++ helper_name name.now number) }
    ensures front { OnErr result (take (length out.old) out.new ≡ out.old) }
{
    out.put(name)?;
    out.put(b"::Variant")?;
    out.put_decimal(u128::from(number))
}

/// Appends the name of the LF_ENUM of the variants' names: `enum2$<X>::VariantNames`.
pub fn put_variants_name(out: &mut Buf, name: &[u8]) -> Result<(), Memory>
    ensures put { OnOk result (out.new ≡ out.old ++ variants_name name.now) }
    ensures front { OnErr result (take (length out.old) out.new ≡ out.old) }
{
    out.put(name)?;
    out.put(b"::VariantNames")
}

/// Appends the name of the constant of a static member of the helper that has this name.
pub fn put_constant_name(out: &mut Buf, helper: &[u8], member: &[u8]) -> Result<(), Memory>
    ensures put { OnOk result (out.new ≡ out.old ++ constant_name helper.now member.now) }
    ensures front { OnErr result (take (length out.old) out.new ≡ out.old) }
{
    out.put(helper)?;
    out.put(b"::")?;
    out.put(member)
}
