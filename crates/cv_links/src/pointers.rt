//! Where thin pointers lead.
ghost use Rattle.std.specs.Prelude.{◌≡◌, [], option_map};
ghost use Rattle.cv_type_defs.specs.FatPointers.{leads_to_function, pointee};
ghost use Rattle.cv_links.specs.Pointers.{pointee_at, simple_pointee};
ghost use Rattle.cv_links.specs.Seen.{target_seen};

use crate::links::Links;
use crate::target::Target;
use cv_type_defs::primitive_at;
use cv_type_records::TypeKind;

/// The first 64-bit pointer to a simple type, that to 0.
const POINTERS: u32 = 0x600;

/// Where the 64-bit pointer leads that a simple type is.
fn simple_pointee(index: u32) -> Option<Target>
    ensures { option_map target_seen result ≡ simple_pointee [] index }
{
    if index < POINTERS {
        return None;
    }
    let to = index - POINTERS;
    primitive_at(to)?;
    Some(Target::Simple(to))
}

impl<'a> Links<'a> {
    /// Whether a link leads to a function: to an LF_PROCEDURE. Takes no memory.
    pub fn leads_to_function(&self, to: Target) -> bool
        ensures { result ≡ leads_to_function self.now (target_seen to) }
    {
        let Target::Record(place) = to else {
            return false;
        };
        matches!(self.kind(place), Some(TypeKind::Procedure { .. }))
    }

    /// Where the LF_POINTER at a place leads; None where it leads to a function, and where there is none.
    fn pointee_at(&self, place: usize) -> Option<Target>
        ensures { option_map target_seen result ≡ pointee_at self.now place }
    {
        let Some(TypeKind::Pointer { ty, .. }) = self.kind(place) else {
            return None;
        };
        let to = self.target(place, *ty);
        if self.leads_to_function(to) {
            None
        } else {
            Some(to)
        }
    }

    /// Where the thin pointer leads to which a link leads; None where it leads to none. Takes no memory.
    pub fn pointee(&self, to: Target) -> Option<Target>
        ensures { option_map target_seen result ≡ pointee self.now (target_seen to) }
    {
        match to {
            Target::Simple(index) => simple_pointee(index),
            Target::Record(place) => self.pointee_at(place),
            Target::Broken(_) => None,
        }
    }
}
