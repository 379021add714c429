//! The members of field lists are appended.
ghost use Rattle.std.specs.Prelude.{◌≡◌, ◌++◌, OnOk};
ghost use Rattle.std.specs.List.{All};
ghost use Rattle.cv_parts.specs.Puts.{Puts, IsName};
ghost use Rattle.cv_record_writer.specs.Contents.{IsNumeric};
ghost use Rattle.cv_type_records.specs.Members.{index, enumerate, field, static_member, nest};
ghost use Rattle.cv_type_records.specs.declared.kinds.Member.{Member};
ghost use Rattle.cv_type_writer.specs.MemberBytes.{index_bytes, enumerate_bytes, field_bytes, static_bytes, nest_bytes, member_fields};
ghost use Rattle.cv_type_writer.specs.Forms.{MemberHasForm};
ghost use Rattle.cv_type_writer.specs.Appended.{fields_form, PutsMember, PutsMembers};

use crate::leaves::leaf_number;
use crate::pads::put_pads;
use cv_parts::put_name;
use cv_type_records::Member;
use rv_bytes::{put_numeric, put_u16, put_u32};
use rv_io::{Buf, Memory, Text};

/// Appends the fields of LF_INDEX.
fn put_index(out: &mut Buf, zero: u16, fields: u32) -> Result<(), Memory>
    ensures { OnOk result (Puts index (Member.Index zero fields) (index_bytes zero fields) out.old out.new) }
{
    put_u16(out, zero)?;
    put_u32(out, fields)
}

/// Appends the fields of LF_ENUMERATE.
fn put_enumerate(out: &mut Buf, attributes: u16, number: i128, name: &Text) -> Result<(), Memory>
    requires number { IsNumeric number }
    requires name { IsName name.now }
    ensures { OnOk result (Puts enumerate (Member.Enumerate attributes number name.now) (enumerate_bytes attributes number name.now) out.old out.new) }
{
    put_u16(out, attributes)?;
    put_numeric(out, number)?;
    put_name(out, name)
}

/// Appends the fields of LF_MEMBER.
fn put_field(
    out: &mut Buf,
    attributes: u16,
    ty: u32,
    offset: i128,
    name: &Text,
) -> Result<(), Memory>
    requires offset { IsNumeric offset }
    requires name { IsName name.now }
    ensures { OnOk result (Puts field (Member.Field attributes ty offset name.now) (field_bytes attributes ty offset name.now) out.old out.new) }
{
    put_u16(out, attributes)?;
    put_u32(out, ty)?;
    put_numeric(out, offset)?;
    put_name(out, name)
}

/// Appends the fields of LF_STMEMBER.
fn put_static(out: &mut Buf, attributes: u16, ty: u32, name: &Text) -> Result<(), Memory>
    requires { IsName name.now }
    ensures { OnOk result (Puts static_member (Member.Static attributes ty name.now) (static_bytes attributes ty name.now) out.old out.new) }
{
    put_u16(out, attributes)?;
    put_u32(out, ty)?;
    put_name(out, name)
}

/// Appends the fields of LF_NESTTYPE.
fn put_nest(out: &mut Buf, zero: u16, ty: u32, name: &Text) -> Result<(), Memory>
    requires { IsName name.now }
    ensures { OnOk result (Puts nest (Member.Nest zero ty name.now) (nest_bytes zero ty name.now) out.old out.new) }
{
    put_u16(out, zero)?;
    put_u32(out, ty)?;
    put_name(out, name)
}

/// Appends the fields of a member, by its leaf.
fn put_member_fields(out: &mut Buf, member: &Member) -> Result<(), Memory>
    requires { MemberHasForm member.now }
    ensures { OnOk result (Puts (fields_form member.now) member.now (member_fields member.now) out.old out.new) }
{
    match member {
        Member::Index { zero, fields } => put_index(out, *zero, *fields),
        Member::Enumerate {
            attributes,
            number,
            name,
        } => put_enumerate(out, *attributes, *number, name),
        Member::Field {
            attributes,
            ty,
            offset,
            name,
        } => put_field(out, *attributes, *ty, *offset, name),
        Member::Static {
            attributes,
            ty,
            name,
        } => put_static(out, *attributes, *ty, name),
        Member::Nest { zero, ty, name } => put_nest(out, *zero, *ty, name),
    }
}

/// Appends a member: its leaf, its fields, and the pad that brings it to a multiple of 4.
fn put_member(out: &mut Buf, member: &Member) -> Result<(), Memory>
    requires { MemberHasForm member.now }
    ensures { OnOk result (PutsMember member.now out.old out.new) }
{
    let start = out.as_bytes().len();
    put_u16(out, leaf_number(member))?;
    put_member_fields(out, member)?;
    let end = out.as_bytes().len();
    put_pads(out, end - start)
}

/// Appends members, one after the other, each with its pad.
pub(crate) fn put_members(out: &mut Buf, members: &[Member]) -> Result<(), Memory>
    requires { All MemberHasForm members.now }
    ensures { OnOk result (PutsMembers members.now out.old out.new) }
{
    for member in members {
        put_member(out, member)?;
    }
    Ok(())
}
