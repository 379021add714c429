//! Type records of CodeView.
use crate::shown::{or_none, part, put_name, refusal};
use case_words::mistake::Mistake;
use case_words::named::Named;
use case_words::words::bytes_of;
use cv_type_records::{Member, TypeKind, TypeRec, read_types};
use rv_io::{List, Text};
use std::alloc::Global;

/// How many bytes a section of a row has at most.
const LONGEST: usize = 0x10_0000;

/// Of the bytes of `.debug$T` its records, each as `OFFSET RECORD`, or the error.
pub fn outcome(alloc: Global, files: &[Named], row: &str) -> Result<String, Mistake> {
    let bytes = bytes_of(alloc, files, row)?;
    if bytes.len() > LONGEST {
        return Err(Mistake::NotOfTheForm);
    }
    match read_types(alloc, bytes.as_slice()) {
        Ok(records) => or_none(alloc, text_of(alloc, &records)?),
        Err(e) => refusal(alloc, e),
    }
}

/// All records.
fn text_of(alloc: Global, records: &List<TypeRec>) -> Result<String, Mistake> {
    let mut text = String::new(alloc);
    for record in records.as_slice() {
        part(&mut text)?;
        let offset = record.offset;
        write!(text, "{offset} ")?;
        put_record(&mut text, alloc, &record.kind)?;
    }
    Ok(text)
}

/// Adds what a record says.
fn put_record(text: &mut String, alloc: Global, kind: &TypeKind) -> Result<(), Mistake> {
    match kind {
        TypeKind::Modifier { ty, modifiers } => write!(text, "modifier {ty:#x} {modifiers:#x}")?,
        TypeKind::Pointer { ty, attributes } => write!(text, "pointer {ty:#x} {attributes:#x}")?,
        TypeKind::Procedure {
            result,
            call,
            options,
            count,
            args,
        } => write!(
            text,
            "procedure {result:#x} {call:#x} {options:#x} {count} {args:#x}"
        )?,
        TypeKind::ArgList { types } => put_arguments(text, types.as_slice())?,
        TypeKind::FieldList { members } => put_members(text, alloc, members.as_slice())?,
        TypeKind::Array {
            elem,
            index,
            size,
            name,
        } => {
            write!(text, "array {elem:#x} {index:#x} {size}")?;
            put_name(text, alloc, name)?;
        }
        kind => put_named(text, alloc, kind)?,
    }
    Ok(())
}

/// Adds what a structure, a union or an enumeration says, or the number of another record's kind.
fn put_named(text: &mut String, alloc: Global, kind: &TypeKind) -> Result<(), Mistake> {
    match kind {
        TypeKind::Structure {
            count,
            property,
            fields,
            derived,
            vshape,
            size,
            name,
            unique,
        } => {
            write!(
                text,
                "structure {count} {property:#x} {fields:#x} {derived:#x} {vshape:#x} {size}"
            )?;
            put_names(text, alloc, name, unique)
        }
        TypeKind::Union {
            count,
            property,
            fields,
            size,
            name,
            unique,
        } => {
            write!(text, "union {count} {property:#x} {fields:#x} {size}")?;
            put_names(text, alloc, name, unique)
        }
        TypeKind::Enum {
            count,
            property,
            ty,
            fields,
            name,
            unique,
        } => {
            write!(text, "enum {count} {property:#x} {ty:#x} {fields:#x}")?;
            put_names(text, alloc, name, unique)
        }
        TypeKind::Other(kind) => {
            write!(text, "other {kind:#x}")?;
            Ok(())
        }
        _ => Err(Mistake::NotOfTheForm),
    }
}

/// Adds the name, and the unique one if there is one.
fn put_names(
    text: &mut String,
    alloc: Global,
    name: &Text,
    unique: &Option<Text>,
) -> Result<(), Mistake> {
    put_name(text, alloc, name)?;
    match unique {
        Some(unique) => put_name(text, alloc, unique),
        None => Ok(()),
    }
}

/// Adds the types of arguments.
fn put_arguments(text: &mut String, types: &[u32]) -> Result<(), Mistake> {
    text.push_str("arguments")?;
    for ty in types {
        write!(text, " {ty:#x}")?;
    }
    Ok(())
}

/// Adds the members of a field list.
fn put_members(text: &mut String, alloc: Global, members: &[Member]) -> Result<(), Mistake> {
    text.push_str("fields")?;
    for member in members {
        put_member(text, alloc, member)?;
    }
    Ok(())
}

/// Adds a member after a comma.
fn put_member(text: &mut String, alloc: Global, member: &Member) -> Result<(), Mistake> {
    match member {
        Member::Index { zero, fields } => {
            write!(text, ", index {zero} {fields:#x}")?;
            Ok(())
        }
        Member::Enumerate {
            attributes,
            number,
            name,
        } => {
            write!(text, ", enumerate {attributes:#x} {number}")?;
            put_name(text, alloc, name)
        }
        Member::Field {
            attributes,
            ty,
            offset,
            name,
        } => {
            write!(text, ", field {attributes:#x} {ty:#x} {offset}")?;
            put_name(text, alloc, name)
        }
        Member::Static {
            attributes,
            ty,
            name,
        } => {
            write!(text, ", static {attributes:#x} {ty:#x}")?;
            put_name(text, alloc, name)
        }
        Member::Nest { zero, ty, name } => {
            write!(text, ", nest {zero} {ty:#x}")?;
            put_name(text, alloc, name)
        }
    }
}
