//! What the kinds of pointers promise.
ghost use Rattle.std.specs.Prelude.{◌≡◌};
ghost use Rattle.names.specs.Pointers.{is_non_null};

use crate::name::PtrKind;

impl PtrKind {
    /// References and boxes are never null. Takes no memory.
    pub fn is_non_null(self) -> bool
        ensures { result ≡ is_non_null self }
    {
        matches!(self, PtrKind::Ref | PtrKind::RefMut | PtrKind::Boxed)
    }
}
