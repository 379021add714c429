//! Type records of CodeView that are written, with their pads.
ghost use Rattle.std.specs.Prelude.{◌≤◌, length};
ghost use Rattle.cv_type_writer.specs.Forms.{HasForm};
ghost use Rattle.cv_type_writer.specs.TypeRecords.{type_content};

use cv_records::{Member, TypeKind, put_type};
use rv_io::{Buf, List, Text};
use std::alloc::Global;
use std::test::Fail;

/// What is appended for a record.
fn written(alloc: Global, kind: &TypeKind) -> Result<Buf, Fail>
    requires form { HasForm kind.now }
    requires fits { length (type_content kind.now) ≤ 65535 }
{
    let mut out = Buf::new(alloc);
    put_type(&mut out, kind)?;
    Ok(out)
}

#[test]
fn a_pointer_has_no_pad(rt: HostRuntime) -> Result<(), Fail> {
    let kind = TypeKind::Pointer {
        ty: 0x74,
        attributes: 0x1042c,
    };
    let out = written(rt.alloc(), &kind)?;
    assert_eq!(rt;
        out.as_bytes(),
        b"\x0a\0\x02\x10\x74\0\0\0\x2c\x04\x01\0".as_slice()
    );
    Ok(())
}

#[test]
fn a_modifier_has_a_pad_of_two(rt: HostRuntime) -> Result<(), Fail> {
    let kind = TypeKind::Modifier {
        ty: 0x1003,
        modifiers: 1,
    };
    let out = written(rt.alloc(), &kind)?;
    assert_eq!(rt;
        out.as_bytes(),
        b"\x0a\0\x01\x10\x03\x10\0\0\x01\0\xf2\xf1".as_slice()
    );
    Ok(())
}

#[test]
fn an_array_without_a_name_has_a_pad_of_three(rt: HostRuntime) -> Result<(), Fail> {
    let kind = TypeKind::Array {
        elem: 0x20,
        index: 0x23,
        size: 40_000,
        name: Text::from_bytes(rt.alloc(), b"")?,
    };
    let out = written(rt.alloc(), &kind)?;
    assert_eq!(rt;
        out.as_bytes(),
        b"\x12\0\x03\x15\x20\0\0\0\x23\0\0\0\x02\x80\x40\x9c\0\xf3\xf2\xf1".as_slice()
    );
    Ok(())
}

#[test]
fn a_member_has_a_pad_of_its_own(rt: HostRuntime) -> Result<(), Fail> {
    let mut members = List::new(rt.alloc());
    members.push(Member::Enumerate {
        attributes: 3,
        number: -1,
        name: Text::from_bytes(rt.alloc(), b"a")?,
    })?;
    members.push(Member::Index {
        zero: 0,
        fields: 0x1000,
    })?;
    let kind = TypeKind::FieldList { members };
    let out = written(rt.alloc(), &kind)?;
    assert_eq!(rt;
        out.as_bytes(),
        b"\x16\0\x03\x12\x02\x15\x03\0\0\x80\xff\x61\0\xf3\xf2\xf1\x04\x14\0\0\0\x10\0\0".as_slice()
    );
    Ok(())
}
