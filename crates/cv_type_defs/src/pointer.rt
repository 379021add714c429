//! The attributes of LF_POINTER.
ghost use Rattle.std.specs.Prelude.{◌≡◌};
ghost use Rattle.cv_type_defs.specs.PointerAttributes.{kind_of_mode, pointer_kind};

use names::PtrKind;

const KIND: u32 = 0x1f;

const MODE: u32 = 0xe0;

const IS_CONST: u32 = 0x400;

const SIZE_FROM: u32 = 13;

/// The kind of 64-bit pointers.
const NEAR_64: u32 = 0x0c;

const RAW: u32 = 0x00;

const REFERENCE: u32 = 0x20;

const BOXED: u32 = 0x80;

/// The kind of a pointer by its mode.
#[tactic(auto, unfolding(crate::specs::PointerAttributes::kind_of_mode))]
fn kind_of_mode(mode: u32, is_const: bool) -> Option<PtrKind>
    ensures { result ≡ kind_of_mode mode is_const }
{
    match (mode, is_const) {
        (RAW, true) => Some(PtrKind::Const),
        (RAW, false) => Some(PtrKind::Mut),
        (REFERENCE, true) => Some(PtrKind::Ref),
        (REFERENCE, false) => Some(PtrKind::RefMut),
        (BOXED, _) => Some(PtrKind::Boxed),
        _ => None,
    }
}

/// The kind of the pointer with these attributes; None where it is no 64-bit pointer of 8 bytes, or its
/// mode is neither that of a raw pointer, of a reference nor of a box. Takes no memory.
pub fn pointer_kind(attributes: u32) -> Option<PtrKind>
    ensures { result ≡ pointer_kind attributes }
{
    if attributes & KIND == NEAR_64 && attributes >> SIZE_FROM == 8 {
        kind_of_mode(attributes & MODE, attributes & IS_CONST != 0)
    } else {
        None
    }
}
