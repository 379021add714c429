//! Values in an arena, as the walk makes them: each of their names is a word.
ghost use Rattle.std.specs.Prelude.{◌≡◌, ◌++◌, ◌∷◌, [], map, None, Some, IfOk, OnOk};
ghost use Rattle.names.specs.Words.{IsWord};
ghost use Rattle.rust_value.specs.declared.value.Val.TheVariants as vals;
ghost use Rattle.rust_value.specs.Held.{value_of, part_of};
ghost use Rattle.rust_value.specs.Named.{HasWords, AreWords, together, part_names, names_of};
ghost use Rattle.value_reader.specs.Reads.{named};

use bumpalo::Bump;
use bumpalo::collections::into_bump_slice;
use names::{PtrKind, Word};
use rust_value::{PartIn, ValIn};
use rv_io::Memory;
use std::marker::Model;

/// A value in an arena.
#[derive(Drop)]
pub(crate) struct Held<'b> {
    val: ValIn<'b>,
}

impl<'b> Model for Held<'b> {
    ghost use Rattle.rust_value.specs.contracts.value.Val as val_row;
    ghost use Rattle.std.specs.Coded.{codes};
    ghost use Rattle.rust_value.specs.declared.value.Val.{Val};
    ghost use Rattle.rust_value.specs.Held.{value_of};
    ghost use Rattle.rust_value.specs.Named.{HasWords};

    ghost Value = { Val };

    ghost coded = { Prim.hlevel (codes, val_row.the_row.coded) };

    ghost view = { λ h. value_of h.val };

    ghost invariant = { λ h. HasWords (value_of h.val) };
}

/// Parts in an arena, to which others may come.
#[derive(Drop)]
pub(crate) struct Parts<'b> {
    parts: Vec<PartIn<'b>, &'b Bump>,
}

impl<'b> Model for Parts<'b> {
    ghost use Rattle.rust_value.specs.contracts.value.Part as part_row;
    ghost use Rattle.std.specs.Coded.{codes};
    ghost use Rattle.std.specs.Prelude.{List, map};
    ghost use Rattle.rust_value.specs.declared.value.Part.{Part};
    ghost use Rattle.rust_value.specs.Held.{part_of};
    ghost use Rattle.rust_value.specs.Named.{AreWords, together, part_names};

    ghost Value = { List Part };

    ghost coded = { Prim.hlevel (codes, part_row.the_row.coded) };

    ghost view = { λ p. map part_of p.parts.items };

    ghost invariant = { λ p. AreWords (together (map part_names (map part_of p.parts.items))) };
}

/// Values in an arena, to which others may come.
#[derive(Drop)]
pub(crate) struct Values<'b> {
    values: Vec<ValIn<'b>, &'b Bump>,
}

impl<'b> Model for Values<'b> {
    ghost use Rattle.rust_value.specs.contracts.value.Val as val_row;
    ghost use Rattle.std.specs.Coded.{codes};
    ghost use Rattle.std.specs.Prelude.{List, map};
    ghost use Rattle.rust_value.specs.declared.value.Val.{Val};
    ghost use Rattle.rust_value.specs.Held.{value_of};
    ghost use Rattle.rust_value.specs.Named.{AreWords, together, names_of};

    ghost Value = { List Val };

    ghost coded = { Prim.hlevel (codes, val_row.the_row.coded) };

    ghost view = { λ v. map value_of v.values.items };

    ghost invariant = { λ v. AreWords (together (map names_of (map value_of v.values.items))) };
}

/// What a pointer leads to, in an arena, if it is shown.
#[derive(Drop)]
pub(crate) struct Content<'b> {
    to: Option<&'b ValIn<'b>>,
}

impl<'b> Model for Content<'b> {
    ghost use Rattle.rust_value.specs.contracts.value.Val as val_row;
    ghost use Rattle.std.specs.Coded.{codes};
    ghost use Rattle.std.specs.Prelude.{Option, option_map};
    ghost use Rattle.rust_value.specs.declared.value.Val.{Val};
    ghost use Rattle.rust_value.specs.Held.{value_of, led};
    ghost use Rattle.rust_value.specs.Named.{AreWords, content_names, names_of};

    ghost Value = { Option Val };

    ghost coded = { Prim.hlevel (codes, val_row.the_row.coded) };

    ghost view = { λ c. option_map value_of (led c.to) };

    ghost invariant = { λ c. AreWords (content_names (option_map names_of (option_map value_of (led c.to)))) };
}

/// The text that a pointer leads to, in an arena, if it is shown.
#[derive(Drop)]
pub(crate) struct ShownText<'b> {
    text: Option<&'b [u8]>,
}

impl<'b> Model for ShownText<'b> {
    ghost use Rattle.std.specs.Prelude.{Option, List, ℕ};
    ghost use Rattle.rust_value.specs.Held.{led};

    ghost Value = { Option (List ℕ) };

    ghost view = { λ t. led t.text };
}

impl<'b> Parts<'b> {
    /// No parts, with room for so many.
    pub(crate) fn with_room(bump: &'b Bump, count: usize) -> Result<Parts<'b>, Memory>
        ensures { IfOk result (λ parts. parts ≡ []) }
    {
        Ok(Parts {
            parts: Vec::with_capacity(bump, count)?,
        })
    }

    /// One more part, under this name.
    pub(crate) fn push(
        &mut self,
        bump: &'b Bump,
        name: &Word,
        value: Held<'b>,
    ) -> Result<(), Memory>
        ensures { OnOk result (self.new ≡ self.old ++ named name.now value.entry ∷ []) }
    {
        let name = bump.try_alloc_slice_copy(name.as_bytes())?;
        self.parts.push(value.into_part(name))?;
        Ok(())
    }

    /// All parts, which stay in the arena.
    fn into_slice(self) -> &'b [PartIn<'b>]
        ensures parts { map part_of result.now ≡ self.entry }
        ensures words { AreWords (together (map part_names self.entry)) }
    {
        let Parts { parts } = self;
        into_bump_slice(parts)
    }
}

impl<'b> Values<'b> {
    /// No values, with room for so many.
    pub(crate) fn with_room(bump: &'b Bump, count: usize) -> Result<Values<'b>, Memory>
        ensures { IfOk result (λ values. values ≡ []) }
    {
        Ok(Values {
            values: Vec::with_capacity(bump, count)?,
        })
    }

    /// One more value.
    pub(crate) fn push(&mut self, value: Held<'b>) -> Result<(), Memory>
        ensures { OnOk result (self.new ≡ self.old ++ value.entry ∷ []) }
    {
        self.values.push(value.val)?;
        Ok(())
    }

    /// All values, which stay in the arena.
    fn into_slice(self) -> &'b [ValIn<'b>]
        ensures values { map value_of result.now ≡ self.entry }
        ensures words { AreWords (together (map names_of self.entry)) }
    {
        let Values { values } = self;
        into_bump_slice(values)
    }
}

impl<'b> Content<'b> {
    /// What a pointer leads to that is not followed.
    pub(crate) fn none() -> Content<'b>
        ensures { result ≡ None }
    {
        Content { to: None }
    }

    /// What a pointer leads to that is followed.
    pub(crate) fn some(bump: &'b Bump, value: Held<'b>) -> Result<Content<'b>, Memory>
        ensures { IfOk result (λ content. content ≡ Some value.entry) }
    {
        match bump.try_alloc(value.val) {
            Ok(to) => Ok(Content { to: Some(to) }),
            Err(_) => Err(Memory),
        }
    }
}

impl<'b> ShownText<'b> {
    /// The text of a pointer that is not followed.
    pub(crate) fn none() -> ShownText<'b>
        ensures { result ≡ None }
    {
        ShownText { text: None }
    }

    /// The text of a pointer that is followed: a copy of these bytes.
    pub(crate) fn some(bump: &'b Bump, bytes: &[u8]) -> Result<ShownText<'b>, Memory>
        ensures { IfOk result (λ text. text ≡ Some bytes.now) }
    {
        let text = bump.try_alloc_slice_copy(bytes)?;
        Ok(ShownText { text: Some(text) })
    }
}

impl<'b> Held<'b> {
    /// What is held.
    pub(crate) fn into_inner(self) -> ValIn<'b>
        ensures value { value_of result ≡ self.entry }
        ensures words { HasWords self.entry }
    {
        self.val
    }

    /// What is held, as a part of this name.
    #[tactic(auto, using(rust_value::proofs::HeldLevels::part_value, rust_value::proofs::HeldLevels::words_of_part))]
    fn into_part(self, name: &'b [u8]) -> PartIn<'b>
        requires { IsWord name.now }
        ensures part { part_of result ≡ named name.now self.entry }
        ensures words { AreWords (part_names (part_of result)) }
    {
        PartIn {
            name,
            val: self.val,
        }
    }

    #[tactic(auto, using(crate::proofs::Scalars::words_unit))]
    pub(crate) fn unit() -> Held<'b>
        ensures { result ≡ vals.Unit }
    {
        Held { val: ValIn::Unit }
    }

    #[tactic(auto, using(crate::proofs::Scalars::words_bool))]
    pub(crate) fn boolean(b: bool) -> Held<'b>
        ensures { result ≡ vals.Bool b }
    {
        Held {
            val: ValIn::Bool(b),
        }
    }

    #[tactic(auto, using(crate::proofs::Scalars::words_char))]
    pub(crate) fn character(c: char) -> Held<'b>
        ensures { result ≡ vals.Char c }
    {
        Held {
            val: ValIn::Char(c),
        }
    }

    #[tactic(auto, using(crate::proofs::Scalars::words_unsigned))]
    pub(crate) fn unsigned(n: u128) -> Held<'b>
        ensures { result ≡ vals.Unsigned n }
    {
        Held {
            val: ValIn::Unsigned(n),
        }
    }

    #[tactic(auto, using(crate::proofs::Scalars::words_signed))]
    pub(crate) fn signed(n: i128) -> Held<'b>
        ensures { result ≡ vals.Signed n }
    {
        Held {
            val: ValIn::Signed(n),
        }
    }

    /// An `f32` of these bits.
    #[tactic(auto, using(crate::proofs::Scalars::words_float32))]
    pub(crate) fn float32(bits: u32) -> Held<'b>
        ensures { result ≡ vals.Float32 bits }
    {
        Held {
            val: ValIn::Float32(bits),
        }
    }

    /// An `f64` of these bits.
    #[tactic(auto, using(crate::proofs::Scalars::words_float64))]
    pub(crate) fn float64(bits: u64) -> Held<'b>
        ensures { result ≡ vals.Float64 bits }
    {
        Held {
            val: ValIn::Float64(bits),
        }
    }

    /// A struct of these parts.
    #[tactic(auto, using(rust_value::proofs::HeldLevels::value_fields, rust_value::proofs::HeldLevels::names_fields))]
    pub(crate) fn fields(parts: Parts<'b>) -> Held<'b>
        ensures { result ≡ vals.Fields parts.entry }
    {
        Held {
            val: ValIn::Fields(parts.into_slice()),
        }
    }

    /// A variant of this name with these parts.
    #[tactic(auto, using(rust_value::proofs::HeldLevels::value_variant, rust_value::proofs::HeldLevels::names_variant))]
    pub(crate) fn variant(bump: &'b Bump, name: &Word, parts: Parts<'b>) -> Result<Held<'b>, Memory>
        ensures { IfOk result (λ held. held ≡ vals.Variant name.now parts.entry) }
    {
        let name = bump.try_alloc_slice_copy(name.as_bytes())?;
        Ok(Held {
            val: ValIn::Variant(name, parts.into_slice()),
        })
    }

    /// A sequence of this length, of which these values are shown.
    #[tactic(auto, using(rust_value::proofs::HeldLevels::value_seq, rust_value::proofs::HeldLevels::names_seq))]
    pub(crate) fn sequence(count: u64, shown: Values<'b>) -> Held<'b>
        ensures { result ≡ vals.Seq count shown.entry }
    {
        Held {
            val: ValIn::Seq(count, shown.into_slice()),
        }
    }

    /// A thin pointer with this content.
    #[tactic(auto, using(rust_value::proofs::HeldLevels::value_pointer, rust_value::proofs::HeldLevels::names_pointer))]
    pub(crate) fn pointer(kind: PtrKind, at: u64, content: Content<'b>) -> Held<'b>
        ensures { result ≡ vals.Pointer kind at content.entry }
    {
        Held {
            val: ValIn::Pointer(kind, at, content.to),
        }
    }

    /// A pointer to a slice with this content.
    #[tactic(auto, using(rust_value::proofs::HeldLevels::value_slice, rust_value::proofs::HeldLevels::names_slice))]
    pub(crate) fn slice(kind: PtrKind, at: u64, len: u64, content: Content<'b>) -> Held<'b>
        ensures { result ≡ vals.Slice kind at len content.entry }
    {
        Held {
            val: ValIn::Slice(kind, at, len, content.to),
        }
    }

    /// A pointer to a text with this content.
    #[tactic(auto, using(rust_value::proofs::HeldLevels::value_str, crate::proofs::Scalars::words_str))]
    pub(crate) fn text(kind: PtrKind, at: u64, len: u64, text: ShownText<'b>) -> Held<'b>
        ensures { result ≡ vals.Str kind at len text.entry }
    {
        Held {
            val: ValIn::Str(kind, at, len, text.text),
        }
    }

    /// A pointer to a trait object.
    #[tactic(auto, using(crate::proofs::Scalars::words_dyn))]
    pub(crate) fn dynamic(kind: PtrKind, at: u64, vtable: u64) -> Held<'b>
        ensures { result ≡ vals.Dyn kind at vtable }
    {
        Held {
            val: ValIn::Dyn(kind, at, vtable),
        }
    }

    /// A pointer to the function at an address.
    #[tactic(auto, using(crate::proofs::Scalars::words_function))]
    pub(crate) fn function(at: u64) -> Held<'b>
        ensures { result ≡ vals.Function at }
    {
        Held {
            val: ValIn::Function(at),
        }
    }

    /// Bytes of a type that is not told.
    #[tactic(auto, using(crate::proofs::Scalars::words_bytes))]
    pub(crate) fn bytes(bytes: &'b [u8]) -> Held<'b>
        ensures { result ≡ vals.Bytes bytes.now }
    {
        Held {
            val: ValIn::Bytes(bytes),
        }
    }
}
