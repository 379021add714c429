//! The lines of types and statics, written.
ghost use Rattle.std.specs.Prelude.{◌≡◌, ◌++◌, ◌∷◌, [], map, length, take, IfSome, OnOk, OnErr};
ghost use Rattle.std.specs.Fmt.{decimal};
ghost use Rattle.std.specs.List.{flat_map, All};
ghost use Rattle.readers.specs.Lines.{with_end};
ghost use Rattle.readers.specs.Hex.{hex_text};
ghost use Rattle.layout_set.specs.DerivedNames.{name_of};
ghost use Rattle.layout_set.specs.IsSet.{IsNamed, AreNamed};
ghost use Rattle.layout_words.specs.Spellings.{reference_text, address_text, name_text, IsReference, IsAddress, IsName};
ghost use Rattle.layout_words.specs.Forms.{behind};
ghost use Rattle.layout_lines.specs.Lines.{line_text, line_rest, kind_of_type, type_rest, kind_of_selector, selector_rest, sized_form, thin_form, fat_form, IsLine, IsTypeLine, IsSelector};
ghost use Rattle.layout_lines.specs.Sets.{texts, bare, type_lines, part_lines, variant_lines, tag_lines, part_text};
ghost use Rattle.layout_lines.specs.declared.line.Line.TheVariants as lines;

use itoa::Buffer;
use layout_set::{Case, Field, Param, Selector, Static, Tag, TypeDef, TypeRef, Variant};
use layout_words::{
    LineKind, SelectorKind, TypeKind, line_kind_word, pointer_word, primitive_word, put_raw,
    selector_word, type_kind_word,
};
use names::{Name, PtrKind};
use rust_names::rust_spelling;
use rv_io::{Buf, Memory};

/// Puts a number in decimal.
pub(crate) fn put_decimal(number: u128, out: &mut Buf) -> Result<(), Memory>
    ensures put { OnOk result (out.new ≡ out.old ++ decimal number) }
    ensures front { OnErr result (take (length out.old) out.new ≡ out.old) }
{
    let mut buffer = Buffer::new();
    out.put(buffer.format(number).as_bytes())
}

/// Puts a space and a word.
pub(crate) fn put_word(word: &[u8], out: &mut Buf) -> Result<(), Memory>
    ensures put { OnOk result (out.new ≡ out.old ++ 32 ∷ word.now) }
    ensures front { OnErr result (take (length out.old) out.new ≡ out.old) }
{
    out.put(b" ")?;
    out.put(word)
}

/// Puts a space and a number in decimal.
pub(crate) fn put_number(number: u128, out: &mut Buf) -> Result<(), Memory>
    ensures put { OnOk result (out.new ≡ out.old ++ 32 ∷ decimal number) }
    ensures front { OnErr result (take (length out.old) out.new ≡ out.old) }
{
    out.put(b" ")?;
    put_decimal(number, out)
}

/// Puts a space and a reference to a type.
pub(crate) fn put_reference(ty: TypeRef, out: &mut Buf) -> Result<(), Memory>
    ensures put { OnOk result (out.new ≡ out.old ++ 32 ∷ reference_text ty) }
    ensures front { OnErr result (take (length out.old) out.new ≡ out.old) }
    ensures is { IsReference ty }
{
    match ty {
        TypeRef::Prim(primitive) => put_word(primitive_word(primitive), out),
        TypeRef::User(number) => {
            out.put(b" #")?;
            put_decimal(u128::from(number), out)
        }
    }
}

/// Puts a space and an address, or `none`.
fn put_address(addr: Option<u64>, out: &mut Buf) -> Result<(), Memory>
    ensures put { OnOk result (out.new ≡ out.old ++ 32 ∷ address_text addr) }
    ensures front { OnErr result (take (length out.old) out.new ≡ out.old) }
    ensures is { IsAddress addr }
{
    match addr {
        None => out.put(b" none"),
        Some(at) => put_hexadecimal(at, out),
    }
}

pub(crate) fn put_hexadecimal(at: u64, out: &mut Buf) -> Result<(), Memory>
    ensures put { OnOk result (out.new ≡ out.old ++ 32 ∷ hex_text at) }
    ensures front { OnErr result (take (length out.old) out.new ≡ out.old) }
{
    let text = format!(in out.alloc(); " 0x{at:x}")?;
    out.put(text.as_bytes())
}

/// Puts a proper name in Rust's spelling, or a raw name quoted and escaped.
pub(crate) fn put_text_of_name(name: &Name, out: &mut Buf) -> Result<(), Memory>
    ensures put { OnOk result (out.new ≡ out.old ++ name_text name.now) }
    ensures front { OnErr result (take (length out.old) out.new ≡ out.old) }
    ensures name { OnOk result (IsNamed name.now → IsName name.now) }
{
    match name {
        Name::Raw(bytes) => put_raw(bytes.as_bytes(), out),
        _ => rust_spelling(name, out),
    }
}

/// Puts a space and a name.
pub(crate) fn put_spaced_name(name: &Name, out: &mut Buf) -> Result<(), Memory>
    ensures put { OnOk result (out.new ≡ out.old ++ 32 ∷ name_text name.now) }
    ensures front { OnErr result (take (length out.old) out.new ≡ out.old) }
    ensures name { OnOk result (IsNamed name.now → IsName name.now) }
{
    out.put(b" ")?;
    put_text_of_name(name, out)
}

/// Puts the end of a line.
pub(crate) fn put_end(out: &mut Buf) -> Result<(), Memory>
    ensures put { OnOk result (out.new ≡ out.old ++ 10 ∷ []) }
    ensures front { OnErr result (take (length out.old) out.new ≡ out.old) }
{
    out.put(b"\n")
}

fn put_param(param: &Param, out: &mut Buf) -> Result<(), Memory>
    ensures put { OnOk result (out.new ≡ out.old ++ part_text (lines.Param param.now)) }
    ensures front { OnErr result (take (length out.old) out.new ≡ out.old) }
    ensures line { OnOk result (IsLine (lines.Param param.now)) }
{
    out.put(line_kind_word(LineKind::Param))?;
    put_word(param.name.as_bytes(), out)?;
    put_reference(param.ty, out)?;
    put_end(out)
}

fn put_field_words(field: &Field, out: &mut Buf) -> Result<(), Memory>
    ensures put { OnOk result (out.new ≡ out.old ++ behind (line_rest 0 (lines.Field field.now))) }
    ensures front { OnErr result (take (length out.old) out.new ≡ out.old) }
    ensures line { OnOk result (IsLine (lines.Field field.now)) }
{
    put_word(field.name.as_bytes(), out)?;
    put_number(u128::from(field.off), out)?;
    put_reference(field.ty, out)
}

fn put_field(field: &Field, out: &mut Buf) -> Result<(), Memory>
    ensures put { OnOk result (out.new ≡ out.old ++ part_text (lines.Field field.now)) }
    ensures front { OnErr result (take (length out.old) out.new ≡ out.old) }
    ensures line { OnOk result (IsLine (lines.Field field.now)) }
{
    out.put(line_kind_word(LineKind::Field))?;
    put_field_words(field, out)?;
    put_end(out)
}

fn put_case(case: &Case, out: &mut Buf) -> Result<(), Memory>
    ensures put { OnOk result (out.new ≡ out.old ++ part_text (lines.Case case.now)) }
    ensures front { OnErr result (take (length out.old) out.new ≡ out.old) }
    ensures line { OnOk result (IsLine (lines.Case case.now)) }
{
    out.put(line_kind_word(LineKind::Case))?;
    put_word(case.name.as_bytes(), out)?;
    put_number(u128::from(case.number), out)?;
    put_end(out)
}

fn put_tag(tag: Option<Tag>, out: &mut Buf) -> Result<(), Memory>
    ensures put { OnOk result (out.new ≡ out.old ++ flat_map part_text (tag_lines tag)) }
    ensures front { OnErr result (take (length out.old) out.new ≡ out.old) }
    ensures lines { All IsLine (tag_lines tag) }
{
    match tag {
        None => Ok(()),
        Some(tag) => put_tag_line(tag, out),
    }
}

fn put_tag_line(tag: Tag, out: &mut Buf) -> Result<(), Memory>
    ensures put { OnOk result (out.new ≡ out.old ++ part_text (lines.Tag tag)) }
    ensures front { OnErr result (take (length out.old) out.new ≡ out.old) }
    ensures line { IsLine (lines.Tag tag) }
{
    out.put(line_kind_word(LineKind::Tag))?;
    put_number(u128::from(tag.off), out)?;
    put_word(primitive_word(tag.prim), out)?;
    put_end(out)
}

fn kind_of_selector(sel: Selector) -> SelectorKind
    ensures { result ≡ kind_of_selector sel }
{
    match sel {
        Selector::Exact(_) => SelectorKind::Exact,
        Selector::Span(_, _) => SelectorKind::Span,
        Selector::Only => SelectorKind::Only,
    }
}

/// Puts the numbers that choose a variant.
fn put_numbers(sel: Selector, out: &mut Buf) -> Result<(), Memory>
    ensures put { OnOk result (out.new ≡ out.old ++ behind (selector_rest sel)) }
    ensures front { OnErr result (take (length out.old) out.new ≡ out.old) }
    ensures is { IsSelector sel }
{
    match sel {
        Selector::Exact(number) => put_number(number, out),
        Selector::Span(first, last) => {
            put_number(first, out)?;
            put_number(last, out)
        }
        Selector::Only => Ok(()),
    }
}

fn put_variant_line(word: &[u8], sel: Selector, out: &mut Buf) -> Result<(), Memory>
    ensures put { OnOk result (out.new ≡ out.old ++ part_text (lines.Variant word.now sel)) }
    ensures front { OnErr result (take (length out.old) out.new ≡ out.old) }
    ensures is { IsSelector sel }
{
    out.put(line_kind_word(LineKind::Variant))?;
    put_word(word, out)?;
    put_word(selector_word(kind_of_selector(sel)), out)?;
    put_numbers(sel, out)?;
    put_end(out)
}

fn put_params(params: &[Param], out: &mut Buf) -> Result<(), Memory>
    ensures put { OnOk result (out.new ≡ out.old ++ flat_map part_text (map (λ p. lines.Param p) params.now)) }
    ensures front { OnErr result (take (length out.old) out.new ≡ out.old) }
    ensures lines { OnOk result (All IsLine (map (λ p. lines.Param p) params.now)) }
{
    for param in params {
        put_param(param, out)?;
    }
    Ok(())
}

fn put_fields(fields: &[Field], out: &mut Buf) -> Result<(), Memory>
    ensures put { OnOk result (out.new ≡ out.old ++ flat_map part_text (map (λ f. lines.Field f) fields.now)) }
    ensures front { OnErr result (take (length out.old) out.new ≡ out.old) }
    ensures lines { OnOk result (All IsLine (map (λ f. lines.Field f) fields.now)) }
{
    for field in fields {
        put_field(field, out)?;
    }
    Ok(())
}

fn put_cases(cases: &[Case], out: &mut Buf) -> Result<(), Memory>
    ensures put { OnOk result (out.new ≡ out.old ++ flat_map part_text (map (λ c. lines.Case c) cases.now)) }
    ensures front { OnErr result (take (length out.old) out.new ≡ out.old) }
    ensures lines { OnOk result (All IsLine (map (λ c. lines.Case c) cases.now)) }
{
    for case in cases {
        put_case(case, out)?;
    }
    Ok(())
}

/// Puts a variant with its fields.
fn put_variant(variant: &Variant, out: &mut Buf) -> Result<(), Memory>
    ensures put { OnOk result (out.new ≡ out.old ++ flat_map part_text (variant_lines variant.now)) }
    ensures front { OnErr result (take (length out.old) out.new ≡ out.old) }
    ensures lines { OnOk result (All IsLine (variant_lines variant.now)) }
{
    put_variant_line(variant.name.as_bytes(), variant.sel, out)?;
    put_fields(variant.fields.as_slice(), out)
}

fn put_variants(variants: &[Variant], out: &mut Buf) -> Result<(), Memory>
    ensures put { OnOk result (out.new ≡ out.old ++ flat_map part_text (flat_map variant_lines variants.now)) }
    ensures front { OnErr result (take (length out.old) out.new ≡ out.old) }
    ensures lines { OnOk result (All IsLine (flat_map variant_lines variants.now)) }
{
    for variant in variants {
        put_variant(variant, out)?;
    }
    Ok(())
}

/// Puts the lines of a type's parts.
fn put_parts(def: &TypeDef, out: &mut Buf) -> Result<(), Memory>
    ensures put { OnOk result (out.new ≡ out.old ++ flat_map part_text (part_lines def.now)) }
    ensures front { OnErr result (take (length out.old) out.new ≡ out.old) }
    ensures lines { OnOk result (All IsLine (part_lines def.now)) }
{
    match def {
        TypeDef::Struct { params, fields, .. } => {
            put_params(params.as_slice(), out)?;
            put_fields(fields.as_slice(), out)
        }
        TypeDef::CLike { cases, .. } => put_cases(cases.as_slice(), out),
        TypeDef::Enum {
            params,
            tag,
            variants,
            ..
        } => {
            put_params(params.as_slice(), out)?;
            put_tag(*tag, out)?;
            put_variants(variants.as_slice(), out)
        }
        _ => Ok(()),
    }
}

fn kind_of_type(def: &TypeDef) -> TypeKind
    ensures { result ≡ kind_of_type def.now }
{
    match def {
        TypeDef::Struct { .. } => TypeKind::Struct,
        TypeDef::Array { .. } => TypeKind::Array,
        TypeDef::Thin { .. } => TypeKind::Thin,
        TypeDef::Slice { .. } => TypeKind::Slice,
        TypeDef::Str { .. } => TypeKind::Str,
        TypeDef::Dyn { .. } => TypeKind::Dyn,
        TypeDef::FnPtr => TypeKind::Function,
        TypeDef::CLike { .. } => TypeKind::CLike,
        TypeDef::Enum { .. } => TypeKind::Enum,
        TypeDef::Bytes { .. } => TypeKind::Bytes,
    }
}

/// Puts a size, an align and a name.
fn put_sized(size: u32, align: u32, name: &Name, out: &mut Buf) -> Result<(), Memory>
    ensures put { OnOk result (out.new ≡ out.old ++ behind (sized_form.text (size, (align, name.now)))) }
    ensures front { OnErr result (take (length out.old) out.new ≡ out.old) }
    ensures is { OnOk result (IsNamed name.now → sized_form.Is (size, (align, name.now))) }
{
    put_number(u128::from(size), out)?;
    put_number(u128::from(align), out)?;
    put_spaced_name(name, out)
}

/// Puts a kind of pointer and what it points to.
fn put_pointer(kind: PtrKind, to: TypeRef, out: &mut Buf) -> Result<(), Memory>
    ensures put { OnOk result (out.new ≡ out.old ++ behind (thin_form.text (kind, (to, tt)))) }
    ensures front { OnErr result (take (length out.old) out.new ≡ out.old) }
    ensures is { IsReference to }
{
    put_word(pointer_word(kind), out)?;
    put_reference(to, out)
}

/// Puts a kind of pointer, what it points to, and a name.
fn put_fat(kind: PtrKind, to: TypeRef, name: &Name, out: &mut Buf) -> Result<(), Memory>
    ensures put { OnOk result (out.new ≡ out.old ++ behind (fat_form.text (kind, (to, name.now)))) }
    ensures front { OnErr result (take (length out.old) out.new ≡ out.old) }
    ensures is { OnOk result (IsNamed name.now → fat_form.Is (kind, (to, name.now))) }
{
    put_word(pointer_word(kind), out)?;
    put_reference(to, out)?;
    put_spaced_name(name, out)
}

/// Puts what follows a type's kind in its line.
fn put_type_rest(def: &TypeDef, out: &mut Buf) -> Result<(), Memory>
    ensures put { OnOk result (out.new ≡ out.old ++ behind (type_rest def.now)) }
    ensures front { OnErr result (take (length out.old) out.new ≡ out.old) }
    ensures line { OnOk result (IfSome (name_of def.now) IsNamed → IsTypeLine (bare def.now)) }
{
    match def {
        TypeDef::Struct {
            name,
            size,
            align,
            ..
        } => put_sized(*size, *align, name, out),
        TypeDef::Array { elem, count } => {
            put_number(u128::from(*count), out)?;
            put_reference(*elem, out)
        }
        TypeDef::Thin { kind, to } => put_pointer(*kind, *to, out),
        TypeDef::Slice { name, kind, ptr } => put_fat(*kind, *ptr, name, out),
        TypeDef::Str { name, kind, ptr } => put_fat(*kind, *ptr, name, out),
        TypeDef::Dyn {
            name,
            kind,
            ptr,
            vtable,
        } => {
            put_pointer(*kind, *ptr, out)?;
            put_reference(*vtable, out)?;
            put_spaced_name(name, out)
        }
        TypeDef::FnPtr => Ok(()),
        TypeDef::CLike { name, tag, .. } => {
            put_word(primitive_word(*tag), out)?;
            put_spaced_name(name, out)
        }
        TypeDef::Enum {
            name,
            size,
            align,
            ..
        } => put_sized(*size, *align, name, out),
        TypeDef::Bytes { name, size, align } => put_sized(*size, *align, name, out),
    }
}

/// Puts a type's number, its kind, and what follows.
fn put_type_words(number: usize, def: &TypeDef, out: &mut Buf) -> Result<(), Memory>
    ensures put { OnOk result (out.new ≡ out.old ++ behind (line_rest number (lines.Type def.now))) }
    ensures front { OnErr result (take (length out.old) out.new ≡ out.old) }
    ensures line { OnOk result (IfSome (name_of def.now) IsNamed → IsTypeLine (bare def.now)) }
{
    put_number(number as u128, out)?;
    put_word(type_kind_word(kind_of_type(def)), out)?;
    put_type_rest(def, out)
}

fn put_type_line(number: usize, def: &TypeDef, out: &mut Buf) -> Result<(), Memory>
    ensures put { OnOk result (out.new ≡ out.old ++ with_end (line_text number (lines.Type def.now))) }
    ensures front { OnErr result (take (length out.old) out.new ≡ out.old) }
    ensures line { OnOk result (IfSome (name_of def.now) IsNamed → IsTypeLine (bare def.now)) }
{
    out.put(line_kind_word(LineKind::Type))?;
    put_type_words(number, def, out)?;
    put_end(out)
}

/// Puts the lines of a type and of its parts.
fn put_type(number: usize, def: &TypeDef, out: &mut Buf) -> Result<(), Memory>
    ensures put { OnOk result (out.new ≡ out.old ++ texts number (type_lines def.now)) }
    ensures front { OnErr result (take (length out.old) out.new ≡ out.old) }
    ensures lines { OnOk result (IfSome (name_of def.now) IsNamed → All IsLine (type_lines def.now)) }
{
    put_type_line(number, def, out)?;
    put_parts(def, out)
}

/// Puts the lines of types and of their parts.
pub(crate) fn put_types(types: &[TypeDef], out: &mut Buf) -> Result<(), Memory>
    ensures put { OnOk result (out.new ≡ out.old ++ texts 0 (flat_map type_lines types.now)) }
    ensures front { OnErr result (take (length out.old) out.new ≡ out.old) }
    ensures lines { OnOk result (AreNamed types.now → All IsLine (flat_map type_lines types.now)) }
{
    for (number, def) in types.iter().enumerate() {
        put_type(number, def, out)?;
    }
    Ok(())
}

fn put_static_words(item: &Static, out: &mut Buf) -> Result<(), Memory>
    ensures put { OnOk result (out.new ≡ out.old ++ behind (line_rest 0 (lines.Static item.now))) }
    ensures front { OnErr result (take (length out.old) out.new ≡ out.old) }
    ensures line { OnOk result (IsNamed item.now.name → IsLine (lines.Static item.now)) }
{
    put_address(item.addr, out)?;
    put_reference(item.ty, out)?;
    put_spaced_name(&item.name, out)
}

fn put_static(item: &Static, out: &mut Buf) -> Result<(), Memory>
    ensures put { OnOk result (out.new ≡ out.old ++ part_text (lines.Static item.now)) }
    ensures front { OnErr result (take (length out.old) out.new ≡ out.old) }
    ensures line { OnOk result (IsNamed item.now.name → IsLine (lines.Static item.now)) }
{
    out.put(line_kind_word(LineKind::Static))?;
    put_static_words(item, out)?;
    put_end(out)
}

pub(crate) fn put_statics(statics: &[Static], out: &mut Buf) -> Result<(), Memory>
    ensures put { OnOk result (out.new ≡ out.old ++ flat_map part_text (map (λ s. lines.Static s) statics.now)) }
    ensures front { OnErr result (take (length out.old) out.new ≡ out.old) }
    ensures lines { OnOk result (All (λ s. IsNamed s.name) statics.now → All IsLine (map (λ s. lines.Static s) statics.now)) }
{
    for item in statics {
        put_static(item, out)?;
    }
    Ok(())
}
