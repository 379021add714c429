//! Derived names as texts. A type without a name of its own has one over the name of what it leads to.
ghost use Rattle.std.specs.Prelude.{◌≡◌, length, take, OnOk, OnErr};
ghost use Rattle.layout_set.specs.Law1.{IsWithin};
ghost use Rattle.layout_set.specs.Laws.{IsLawful};
ghost use Rattle.layout_derived.specs.DerivedTexts.{AppendsDerived, HasDerived, StandInOrder};

use crate::own::put_own;
use crate::step::{before, put_after, step_of};
use layout_set::{Set, TypeDef, TypeRef};
use rv_io::{Buf, Memory};

/// Appends the derived name of a type of the set, in the spelling of Rust: a primitive's word, a type's own name, or that of a
/// pointer, an array or a function over the names of what it leads to. Out of memory, the buffer is as before.
pub fn put_derived_name(set: &Set, ty: TypeRef, out: &mut Buf) -> Result<(), Memory>
    requires lawful { IsLawful set.now }
    requires within { IsWithin (length set.now.types) ty }

    // The text of the name is appended.
    ensures put { OnOk result (AppendsDerived set.now.types ty out.old out.new) }

    // Out of memory, nothing has changed.
    ensures same { OnErr result (out.new ≡ out.old) }
{
    let len = out.as_bytes().len();
    match put_name(set.types.as_slice(), ty, out) {
        Ok(()) => Ok(()),
        Err(memory) => {
            out.truncate(len);
            Err(memory)
        }
    }
}

/// Appends the derived name of what is referred to. Out of memory, what stood before stays in front.
fn put_name(types: &[TypeDef], ty: TypeRef, out: &mut Buf) -> Result<(), Memory>
    requires named { HasDerived types.now ty }
    requires ordered { StandInOrder types.now }
    ensures put { OnOk result (AppendsDerived types.now ty out.old out.new) }
    ensures front { OnErr result (take (length out.old) out.new ≡ out.old) }
{
    match step_of(types, ty) {
        None => put_own(types, ty, out),
        Some(step) => {
            out.put(before(step.around))?;
            put_name(types, step.to, out)?;
            put_after(step.around, out)
        }
    }
}
