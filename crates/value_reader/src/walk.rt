//! The walk over what a type reaches in a part, read in one pass and counted on the way.
ghost use Rattle.std.specs.Prelude.{map, Some};
ghost use Rattle.image_view.specs.Places.{part_of};
ghost use Rattle.layout_set.specs.HasSizes.{HasSizes};
ghost use Rattle.layout_values.specs.Contexts.{element_part, far_part, tag_number, number_at};
ghost use Rattle.layout_values.specs.Walk.{go_field, go_elements, go_thin, go_slice, go_str, go_enum, go_variant, go_def};
ghost use Rattle.layout_values.specs.Reached.{counting, total, named_total};
ghost use Rattle.value_reader.specs.Reads.{reading, read, nodes, checked_parts, all_checked};
ghost use Rattle.value_reader.specs.Walking.{context_in, Reads};

use crate::checked::{
    Checked, WalkErr, checked_bytes, content_of, count, pointer_of, push_part, push_value, seq_of,
    slice_of, str_of, struct_of, text_at, variant_of,
};
use crate::context::Context;
use crate::held::{Content, Held, Parts, ShownText, Values};
use crate::lookups::{far_image, lookup, offset, size_in};
use crate::numbers::{read_case, read_dyn, read_function, read_prim};
use crate::parts::{bytes_in, part_at, tag_number, word_at};
use crate::pointers::{below, may_point, may_span, pointee};
use crate::selecting::chosen;
use bumpalo::Bump;
use image_view::Image;
use layout_set::{Field, Tag, TypeDef, TypeRef, Variant};
use names::PtrKind;

/// How many items room is made for at most before they are read.
const MOST_ROOM: u64 = 256;

/// A walk: the arena that values are made in, what parts are read in, and how many nodes may still come.
#[derive(Drop)]
pub(crate) struct Walk<'a, 'b> {
    pub(crate) bump: &'b Bump,
    pub(crate) context: Context<'a>,
    pub(crate) left: u64,
}

impl<'b> Walk<'_, 'b> {
    /// How many items room is made for at first: those that are shown, as far as nodes may still come, and few enough that
    /// nested sequences take no room that they do not fill.
    fn room(&self, count: u64) -> usize {
        self.left.min(count).min(MOST_ROOM) as usize
    }

    /// Reads a type at most so many levels down.
    #[cycle(read)]
    #[tactic(auto, using(crate::proofs::Levels::nodes_positive))]
    pub(crate) fn read(
        &mut self,
        ty: TypeRef,
        image: &Image<'_>,
        depth: u32,
        levels: u32,
    ) -> Result<Checked<Held<'b>>, WalkErr>
        requires { HasSizes self.old.context.set.now }
        ensures { let c = context_in self.old.context in Reads
            (read c levels depth ty (part_of image.now))
            (nodes c levels depth ty (part_of image.now))
            self.old self.new result }
    {
        count(&mut self.left, 1)?;
        if levels == 0 {
            return Ok(Checked::Invalid);
        }
        let set = self.context.set;
        match ty {
            TypeRef::Prim(prim) => Ok(read_prim(prim, image)),
            TypeRef::User(i) => match lookup(set.types.as_slice(), i) {
                None => Ok(Checked::Invalid),
                Some(def) => self.read_def(def, image, depth, levels - 1),
            },
        }
    }

    /// Reads a type of the set.
    #[cycle(read)]
    #[tactic(auto, unfolding(layout_values::specs::Walk::go_def))]
    fn read_def(
        &mut self,
        def: &TypeDef,
        image: &Image<'_>,
        depth: u32,
        levels: u32,
    ) -> Result<Checked<Held<'b>>, WalkErr>
        requires { HasSizes self.old.context.set.now }
        ensures { let c = context_in self.old.context in Reads
            (go_def reading c (read c levels) depth (Some def.now) (part_of image.now))
            (go_def counting c (nodes c levels) depth (Some def.now) (part_of image.now))
            self.old self.new result }
    {
        let set = self.context.set;
        match def {
            TypeDef::Struct { fields, .. } => {
                let parts = self.read_fields(fields.as_slice(), image, depth, levels)?;
                Ok(struct_of(parts))
            }
            TypeDef::Array { elem, count } => {
                let shown = self.read_array(*elem, *count, image, depth, levels)?;
                Ok(seq_of(*count, shown))
            }
            TypeDef::Thin { kind, to } => match word_at(image, 0) {
                None => Ok(Checked::Missing),
                Some(at) => self.read_thin(*kind, *to, at, depth, levels),
            },
            TypeDef::Slice { kind, ptr, .. } => match pointee(set.types.as_slice(), *ptr) {
                None => Ok(Checked::Invalid),
                Some(elem) => self.read_slice(*kind, elem, image, depth, levels),
            },
            TypeDef::Str { kind, .. } => self.read_str(*kind, image, depth, levels),
            TypeDef::Dyn { kind, .. } => Ok(read_dyn(*kind, image)),
            TypeDef::FnPtr => Ok(read_function(image)),
            TypeDef::CLike { tag, cases, .. } => Ok(read_case(self.bump, *tag, cases, image)?),
            TypeDef::Enum { tag, variants, .. } => {
                self.read_enum(tag, variants.as_slice(), image, depth, levels)
            }
            TypeDef::Bytes { size, .. } => {
                count(&mut self.left, u64::from(*size))?;
                Ok(checked_bytes(bytes_in(self.bump, image)?))
            }
        }
    }

    /// Reads fields.
    #[cycle(read)]
    fn read_fields(
        &mut self,
        fields: &[Field],
        image: &Image<'_>,
        depth: u32,
        levels: u32,
    ) -> Result<Checked<Parts<'b>>, WalkErr>
        requires { HasSizes self.old.context.set.now }
        ensures { let c = context_in self.old.context in Reads
            (checked_parts
            (map (go_field reading c (read c levels) depth (part_of image.now)) fields.now))
            (named_total
            (map (go_field counting c (nodes c levels) depth (part_of image.now)) fields.now))
            self.old self.new result }
    {
        let set = self.context.set;
        let room = self.room(fields.len() as u64);
        let mut parts = Checked::Valid(Parts::with_room(self.bump, room)?);
        for field in fields {
            let place = part_at(image, u64::from(field.off), size_in(set, field.ty));
            let value = self.read(field.ty, &place, depth, levels)?;
            parts = push_part(self.bump, parts, &field.name, value)?;
        }
        Ok(parts)
    }

    /// Reads an array's elements, as far as they are shown.
    #[cycle(read)]
    fn read_array(
        &mut self,
        elem: TypeRef,
        count: u64,
        image: &Image<'_>,
        depth: u32,
        levels: u32,
    ) -> Result<Checked<Values<'b>>, WalkErr>
        requires { HasSizes self.old.context.set.now }
        ensures { let c = context_in self.old.context in Reads
            (all_checked
            (go_elements reading c (read c levels) depth elem
            (element_part c elem (part_of image.now)) count))
            (total
            (go_elements counting c (nodes c levels) depth elem
            (element_part c elem (part_of image.now)) count))
            self.old self.new result }
    {
        let size = size_in(self.context.set, elem);
        let shown = count.min(u64::from(self.context.width)) as u32;
        let room = self.room(u64::from(shown));
        let mut values = Checked::Valid(Values::with_room(self.bump, room)?);
        for i in 0..shown {
            let place = part_at(image, offset(i, size), size);
            let value = self.read(elem, &place, depth, levels)?;
            values = push_value(values, value)?;
        }
        Ok(values)
    }

    /// Reads a thin pointer with this number.
    #[cycle(read)]
    fn read_thin(
        &mut self,
        kind: PtrKind,
        to: TypeRef,
        at: u64,
        depth: u32,
        levels: u32,
    ) -> Result<Checked<Held<'b>>, WalkErr>
        requires { HasSizes self.old.context.set.now }
        ensures { let c = context_in self.old.context in Reads
            (go_thin reading c (read c levels) depth kind to (Some at))
            (go_thin counting c (nodes c levels) depth kind to (Some at))
            self.old self.new result }
    {
        if !may_point(kind, at) {
            return Ok(Checked::Invalid);
        }
        match below(kind, depth) {
            None => Ok(Checked::Valid(Held::pointer(kind, at, Content::none()))),
            Some(less) => {
                let mem = self.context.mem;
                let target = Image::of_mem(mem, at, size_in(self.context.set, to));
                let value = self.read(to, &target, less, levels)?;
                let content = content_of(self.bump, value)?;
                Ok(pointer_of(kind, at, content))
            }
        }
    }

    /// Reads a pointer to a slice.
    #[cycle(read)]
    fn read_slice(
        &mut self,
        kind: PtrKind,
        elem: TypeRef,
        image: &Image<'_>,
        depth: u32,
        levels: u32,
    ) -> Result<Checked<Held<'b>>, WalkErr>
        requires { HasSizes self.old.context.set.now }
        ensures { let c = context_in self.old.context in Reads
            (go_slice reading c (read c levels) depth kind (Some elem)
            (number_at (part_of image.now) 0 8) (number_at (part_of image.now) 8 8))
            (go_slice counting c (nodes c levels) depth kind (Some elem)
            (number_at (part_of image.now) 0 8) (number_at (part_of image.now) 8 8))
            self.old self.new result }
    {
        match (word_at(image, 0), word_at(image, 8)) {
            (Some(at), Some(len)) => self.read_span(kind, elem, at, len, depth, levels),
            _ => Ok(Checked::Missing),
        }
    }

    /// Reads a pointer to a slice with these numbers.
    #[cycle(read)]
    fn read_span(
        &mut self,
        kind: PtrKind,
        elem: TypeRef,
        at: u64,
        len: u64,
        depth: u32,
        levels: u32,
    ) -> Result<Checked<Held<'b>>, WalkErr>
        requires { HasSizes self.old.context.set.now }
        ensures { let c = context_in self.old.context in Reads
            (go_slice reading c (read c levels) depth kind (Some elem) (Some at) (Some len))
            (go_slice counting c (nodes c levels) depth kind (Some elem) (Some at) (Some len))
            self.old self.new result }
    {
        if !may_span(kind, size_in(self.context.set, elem), at, len) {
            return Ok(Checked::Invalid);
        }
        match below(kind, depth) {
            None => Ok(Checked::Valid(Held::slice(kind, at, len, Content::none()))),
            Some(less) => {
                count(&mut self.left, 1)?;
                let shown = self.read_far(elem, at, len, less, levels)?;
                let content = content_of(self.bump, seq_of(len, shown))?;
                Ok(slice_of(kind, at, len, content))
            }
        }
    }

    /// Reads the elements from an address on, as far as they are shown.
    #[cycle(read)]
    fn read_far(
        &mut self,
        elem: TypeRef,
        at: u64,
        len: u64,
        depth: u32,
        levels: u32,
    ) -> Result<Checked<Values<'b>>, WalkErr>
        requires { HasSizes self.old.context.set.now }
        ensures { let c = context_in self.old.context in Reads
            (all_checked
            (go_elements reading c (read c levels) depth elem (far_part c elem at) len))
            (total (go_elements counting c (nodes c levels) depth elem (far_part c elem at) len))
            self.old self.new result }
    {
        let mem = self.context.mem;
        let size = size_in(self.context.set, elem);
        let shown = len.min(u64::from(self.context.width)) as u32;
        let room = self.room(u64::from(shown));
        let mut values = Checked::Valid(Values::with_room(self.bump, room)?);
        for i in 0..shown {
            let target = far_image(mem, at, offset(i, size), size);
            let value = self.read(elem, &target, depth, levels)?;
            values = push_value(values, value)?;
        }
        Ok(values)
    }

    /// Reads a pointer to a text.
    fn read_str(
        &mut self,
        kind: PtrKind,
        image: &Image<'_>,
        depth: u32,
        levels: u32,
    ) -> Result<Checked<Held<'b>>, WalkErr>
        requires { HasSizes self.old.context.set.now }
        ensures { let c = context_in self.old.context in Reads
            (go_str reading c (read c levels) depth kind (number_at (part_of image.now) 0 8)
            (number_at (part_of image.now) 8 8))
            (go_str counting c (nodes c levels) depth kind (number_at (part_of image.now) 0 8)
            (number_at (part_of image.now) 8 8))
            self.old self.new result }
    {
        match (word_at(image, 0), word_at(image, 8)) {
            (Some(at), Some(len)) => self.read_text(kind, at, len, depth, levels),
            _ => Ok(Checked::Missing),
        }
    }

    /// Reads a pointer to a text with these numbers.
    fn read_text(
        &mut self,
        kind: PtrKind,
        at: u64,
        len: u64,
        depth: u32,
        levels: u32,
    ) -> Result<Checked<Held<'b>>, WalkErr>
        requires { HasSizes self.old.context.set.now }
        ensures { let c = context_in self.old.context in Reads
            (go_str reading c (read c levels) depth kind (Some at) (Some len))
            (go_str counting c (nodes c levels) depth kind (Some at) (Some len))
            self.old self.new result }
    {
        if !may_span(kind, 1, at, len) {
            return Ok(Checked::Invalid);
        }
        match below(kind, depth) {
            None => Ok(Checked::Valid(Held::text(kind, at, len, ShownText::none()))),
            Some(_) => {
                count(&mut self.left, len)?;
                Ok(str_of(
                    kind,
                    at,
                    len,
                    text_at(self.bump, self.context.mem, at, len)?,
                ))
            }
        }
    }

    /// Reads an enum.
    #[cycle(read)]
    fn read_enum(
        &mut self,
        tag: &Option<Tag>,
        variants: &[Variant],
        image: &Image<'_>,
        depth: u32,
        levels: u32,
    ) -> Result<Checked<Held<'b>>, WalkErr>
        requires { HasSizes self.old.context.set.now }
        ensures { let c = context_in self.old.context in Reads
            (go_enum reading c (read c levels) depth variants.now (part_of image.now)
            (tag_number 8 tag.now (part_of image.now)))
            (go_enum counting c (nodes c levels) depth variants.now (part_of image.now)
            (tag_number 8 tag.now (part_of image.now)))
            self.old self.new result }
    {
        match tag_number(tag, image) {
            None => Ok(Checked::Missing),
            Some(number) => match chosen(variants, number) {
                None => Ok(Checked::Invalid),
                Some(variant) => self.read_variant(variant, image, depth, levels),
            },
        }
    }

    /// Reads an enum of this variant.
    #[cycle(read)]
    fn read_variant(
        &mut self,
        variant: &Variant,
        image: &Image<'_>,
        depth: u32,
        levels: u32,
    ) -> Result<Checked<Held<'b>>, WalkErr>
        requires { HasSizes self.old.context.set.now }
        ensures { let c = context_in self.old.context in Reads
            (go_variant reading c (read c levels) depth (part_of image.now) (Some variant.now))
            (go_variant counting c (nodes c levels) depth (part_of image.now) (Some variant.now))
            self.old self.new result }
    {
        let parts = self.read_fields(variant.fields.as_slice(), image, depth, levels)?;
        Ok(variant_of(self.bump, &variant.name, parts)?)
    }
}
