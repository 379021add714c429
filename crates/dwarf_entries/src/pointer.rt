//! The kinds of pointers, by their names.
ghost use Rattle.std.specs.Prelude.{◌≡◌};
ghost use Rattle.dwarf_entries.specs.Pointers.{kind_of_name};

use names::PtrKind;

/// The kind of a pointer by how its name begins, the whole joined text: `&mut `, else `&`, `*const `,
/// `*mut ` or `alloc::boxed::Box<`. What follows isn't compared, and another name is that of a
/// mutable raw pointer. Takes no memory.
#[tactic(auto, unfolding(crate::specs::Pointers::kind_of_name))]
pub fn kind_of_name(text: &[u8]) -> PtrKind
    ensures { result ≡ kind_of_name text.now }
{
    if text.starts_with(b"&mut ") {
        PtrKind::RefMut
    } else if text.starts_with(b"&") {
        PtrKind::Ref
    } else if text.starts_with(b"*const ") {
        PtrKind::Const
    } else if text.starts_with(b"*mut ") {
        PtrKind::Mut
    } else if text.starts_with(b"alloc::boxed::Box<") {
        PtrKind::Boxed
    } else {
        PtrKind::Mut
    }
}
