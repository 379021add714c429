//! Type records are appended.
ghost use Rattle.std.specs.Prelude.{◌≡◌, ◌≤◌, length, OnOk, OnErr};
ghost use Rattle.cv_type_writer.specs.Forms.{HasForm};
ghost use Rattle.cv_type_writer.specs.TypeRecords.{type_content};
ghost use Rattle.cv_type_writer.specs.Appended.{PutsType};

use crate::fields::put_fields;
use crate::leaves::type_number;
use crate::pads::put_pads;
use cv_record_writer::put_record;
use cv_type_records::TypeKind;
use rv_bytes::put_u16;
use rv_io::{Buf, Memory};

/// Appends a type record: its length, its kind, its fields, and the pad that brings it to a multiple of 4.
///
/// Out of memory, the buffer is as it was.
pub fn put_type(out: &mut Buf, kind: &TypeKind) -> Result<(), Memory>
    requires form { HasForm kind.now }
    requires fits { length (type_content kind.now) ≤ 65535 }
    ensures appended { OnOk result (PutsType kind.now out.old out.new) }
    ensures same { OnErr result (out.new ≡ out.old) }
{
    let mut content = Buf::new(out.alloc());
    put_u16(&mut content, type_number(kind))?;
    put_fields(&mut content, kind)?;
    let len = content.as_bytes().len();
    put_pads(&mut content, 2 + len)?;
    put_record(out, content.as_bytes())
}
