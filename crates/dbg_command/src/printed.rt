//! The printed lines: the program counter, the statics, and then the functions.
ghost use Rattle.std.specs.Prelude.{◌≡◌, ◌++◌, ◌<◌, ◌≤◌, ℕ, List, OnOk, OnErr, IfOk, HoldsAt, length, take};
ghost use Rattle.image_view.specs.Places.{part_of};
ghost use Rattle.layout_values.specs.Contexts.{context_of};
ghost use Rattle.layout_set.specs.HasSizes.{HasSizes};
ghost use Rattle.layout_set.specs.Law1.{IsWithin};
ghost use Rattle.layout_values.specs.Outcomes.{HasTexts, IsOutcome};
ghost use Rattle.value_reader.specs.OutcomesIn.{outcome_of};
ghost use Rattle.layout_values.specs.Shown.{IsShownAt};
ghost use Rattle.dbg_command.specs.Lines.{AreEach, IsStaticLine, Prints, pc_line, static_line};

use crate::shown::put_outcome;
use crate::view::View;
use bumpalo::Bump;
use image_view::Image;
use layout_file::put_name;
use layout_set::{Set, Static, TypeRef, size_of};
use rv_io::{Buf, Memory};
use snapshot_file::Snapshot;
use std::alloc::Global;
use value_reader::{OutcomeIn, read_in};

/// Appends all that is printed of a set over a snapshot. References and boxes are followed so deep, and of each sequence so
/// many elements are shown at most. When out of memory the buffer is as before.
pub fn lines(
    alloc: Global,
    set: &Set,
    snap: &Snapshot,
    depth: u32,
    width: u32,
    out: &mut Buf,
) -> Result<(), Memory>
    requires sizes { HasSizes set.now }
    requires shallow { depth ≤ 4 }
    ensures put { OnOk result ((text : List ℕ) × (out.new ≡ out.old ++ text)
        × Prints set.now depth width snap.now text) }
    ensures same { OnErr result (out.new ≡ out.old) }
{
    let len = out.as_bytes().len();
    let view = View {
        set,
        snap,
        depth,
        width,
    };
    let done = view.put_lines(alloc, out);
    if done.is_err() {
        out.truncate(len);
    }
    done
}

/// The line of the program counter.
fn put_pc(alloc: Global, pc: u64, out: &mut Buf) -> Result<(), Memory>
    ensures put { OnOk result (out.new ≡ out.old ++ pc_line pc) }
    ensures front { OnErr result (take (length out.old) out.new ≡ out.old) }
{
    let line = format!(in alloc; "pc 0x{pc:x}\n")?;
    out.put(line.as_bytes())
}

impl View<'_> {
    fn put_lines(&self, alloc: Global, out: &mut Buf) -> Result<(), Memory>
        requires sizes { HasSizes self.now.set.now }
        requires shallow { self.now.depth ≤ 4 }
        ensures put { OnOk result ((text : List ℕ) × (out.new ≡ out.old ++ text)
            × Prints self.now.set.now self.now.depth self.now.width self.now.snap.now text) }
        ensures front { OnErr result (take (length out.old) out.new ≡ out.old) }
    {
        put_pc(alloc, self.snap.pc, out)?;
        self.put_statics(alloc, out)?;
        self.put_funcs(alloc, out)
    }

    /// A line for each static.
    fn put_statics(&self, alloc: Global, out: &mut Buf) -> Result<(), Memory>
        requires sizes { HasSizes self.now.set.now }
        requires shallow { self.now.depth ≤ 4 }
        ensures put { OnOk result ((text : List ℕ) × (out.new ≡ out.old ++ text) × AreEach
            (IsStaticLine (context_of self.now.set.now self.now.snap.now.mem self.now.width)
            self.now.depth) self.now.set.now.statics text) }
        ensures front { OnErr result (take (length out.old) out.new ≡ out.old) }
    {
        for index in 0..self.set.statics.as_slice().len() {
            self.put_static_at(alloc, index, out)?;
        }
        Ok(())
    }

    /// The line of the static at this place.
    fn put_static_at(&self, alloc: Global, index: usize, out: &mut Buf) -> Result<(), Memory>
        requires within { index < length self.now.set.now.statics }
        requires sizes { HasSizes self.now.set.now }
        requires shallow { self.now.depth ≤ 4 }
        ensures put { OnOk result ((line : List ℕ) × (out.new ≡ out.old ++ line) × HoldsAt (λ s.
            IsStaticLine (context_of self.now.set.now self.now.snap.now.mem self.now.width)
            self.now.depth s line) self.now.set.now.statics index) }
        ensures front { OnErr result (take (length out.old) out.new ≡ out.old) }
    {
        let item = &self.set.statics.as_slice()[index];
        let bump = Bump::new(alloc);
        let outcome = self.outcome_at(&bump, item.ty, item.addr)?;
        put_static(item, outcome, out)
    }

    /// What is shown of a static of this type at this address, in the arena.
    fn outcome_at<'b>(
        &self,
        bump: &'b Bump,
        ty: TypeRef,
        addr: Option<u64>,
    ) -> Result<OutcomeIn<'b>, Memory>
        requires sizes { HasSizes self.now.set.now }
        requires within { IsWithin (length self.now.set.now.types) ty }
        requires shallow { self.now.depth ≤ 4 }
        ensures outcome { IfOk result (λ o. IsShownAt
            (context_of self.now.set.now self.now.snap.now.mem self.now.width) self.now.depth ty
            addr (outcome_of o)) }
        ensures texts { IfOk result (λ o. HasTexts (outcome_of o)) }
    {
        match addr {
            Some(at) => {
                let image = Image::of_mem(&self.snap.mem, at, size_of(self.set, ty));
                self.outcome_in(bump, ty, image)
            }
            None => Ok(OutcomeIn::Unavailable),
        }
    }

    /// What is shown of an image of this type, in the arena.
    pub(crate) fn outcome_in<'b>(
        &self,
        bump: &'b Bump,
        ty: TypeRef,
        image: Image<'_>,
    ) -> Result<OutcomeIn<'b>, Memory>
        requires sizes { HasSizes self.now.set.now }
        requires shallow { self.now.depth ≤ 4 }
        ensures outcome { IfOk result (λ o. IsOutcome
            (context_of self.now.set.now self.now.snap.now.mem self.now.width) self.now.depth ty
            (part_of image.entry) (outcome_of o)) }
        ensures texts { IfOk result (λ o. HasTexts (outcome_of o)) }
    {
        read_in(
            bump,
            self.set,
            ty,
            image,
            &self.snap.mem,
            self.depth,
            self.width,
        )
    }
}

/// The line of a static of which this is shown.
fn put_static(item: &Static, outcome: OutcomeIn<'_>, out: &mut Buf) -> Result<(), Memory>
    requires { HasTexts (outcome_of outcome) }
    ensures put { OnOk result (out.new ≡ out.old ++ static_line item.now (outcome_of outcome.entry)) }
    ensures front { OnErr result (take (length out.old) out.new ≡ out.old) }
{
    out.put(b"static ")?;
    put_name(&item.name, out)?;
    out.put(b" = ")?;
    put_outcome(outcome, out)?;
    out.put(b"\n")
}
