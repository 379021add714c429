//! The value of a type, read from its image.
ghost use Rattle.std.specs.Prelude.{◌≡◌, ◌≤◌, IfOk};
ghost use Rattle.image_view.specs.Places.{part_of};
ghost use Rattle.layout_set.specs.HasSizes.{HasSizes};
ghost use Rattle.layout_values.specs.Contexts.{context_of};
ghost use Rattle.layout_values.specs.Outcomes.{IsOutcome, IsOnlyValue, HasTexts};
ghost use Rattle.value_reader.specs.OutcomesIn.{outcome_of, HasNames};

use crate::checked::{Checked, WalkErr};
use crate::context::Context;
use crate::outcome_in::OutcomeIn;
use crate::walk::Walk;
use bumpalo::Bump;
use image_view::Image;
use layout_set::{Set, TypeRef};
use layout_values::Outcome;
use rust_value::copy_out;
use rv_io::Memory;
use snapshot_file::Mem;
use std::alloc::Global;

/// How many nodes a value may have.
const MOST_NODES: u64 = 65536;

/// What the image holds, of a type of the set, in the arena. References and boxes are followed so deep, and of each sequence
/// so many elements are shown at most. The image has the type's size.
pub fn read_in<'b>(
    bump: &'b Bump,
    set: &Set,
    ty: TypeRef,
    image: Image<'_>,
    mem: &Mem,
    depth: u32,
    width: u32,
) -> Result<OutcomeIn<'b>, Memory>
    requires sizes { HasSizes set.now }
    requires shallow { depth ≤ 4 }

    // The outcome is the first that holds, and a value is the only one that has the image.
    ensures outcome { IfOk result (λ o. IsOutcome (context_of set.now mem.now width) depth ty
        (part_of image.entry) (outcome_of o)) }
    ensures only { IfOk result (λ o. IsOnlyValue (context_of set.now mem.now width) depth ty
        (part_of image.entry) (outcome_of o)) }

    // The value's texts are UTF-8, and its names are words.
    ensures texts { IfOk result (λ o. HasTexts (outcome_of o)) }
    ensures names { IfOk result (λ o. HasNames (outcome_of o)) }
{
    let mut walk = Walk {
        bump,
        context: Context { set, mem, width },
        left: MOST_NODES,
    };
    match walk.read(ty, &image, depth, 257 * (depth + 1)) {
        Ok(Checked::Valid(value)) => Ok(OutcomeIn::Value(value.into_inner())),
        Ok(Checked::Invalid) => Ok(OutcomeIn::Invalid),
        Ok(Checked::Missing) => Ok(OutcomeIn::Unavailable),
        Err(WalkErr::TooLarge) => Ok(OutcomeIn::TooLarge),
        Err(WalkErr::Memory) => Err(Memory),
    }
}

/// What the image holds, of a type of the set. References and boxes are followed so deep, and of each sequence so many
/// elements are shown at most. The image has the type's size.
pub fn read_value(
    alloc: Global,
    set: &Set,
    ty: TypeRef,
    image: Image<'_>,
    mem: &Mem,
    depth: u32,
    width: u32,
) -> Result<Outcome, Memory>
    requires sizes { HasSizes set.now }
    requires shallow { depth ≤ 4 }

    // The outcome is the first that holds, and a value is the only one that has the image.
    ensures outcome { IfOk result (IsOutcome (context_of set.now mem.now width) depth ty (part_of image.entry)) }
    ensures texts { IfOk result HasTexts }
    ensures only { IfOk result (IsOnlyValue (context_of set.now mem.now width) depth ty (part_of image.entry)) }
{
    let bump = Bump::new(alloc);
    match read_in(&bump, set, ty, image, mem, depth, width)? {
        OutcomeIn::Value(value) => Ok(Outcome::Value(copy_out(alloc, &value)?)),
        OutcomeIn::Unavailable => Ok(Outcome::Unavailable),
        OutcomeIn::Invalid => Ok(Outcome::Invalid),
        OutcomeIn::TooLarge => Ok(Outcome::TooLarge),
    }
}
