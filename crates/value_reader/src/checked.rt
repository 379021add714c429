//! What is read of a part, and of several together.
ghost use Rattle.std.specs.Prelude.{◌≡◌, ◌+◌, ◌<◌, IfOk, Some};
ghost use Rattle.rust_value.specs.declared.value.Val.TheVariants as vals;
ghost use Rattle.rust_value.specs.Held.{led};
ghost use Rattle.snapshot_file.specs.Memory.{bytes_of, items_at};
ghost use Rattle.value_reader.specs.Checking.{map_checked, push_checked};
ghost use Rattle.value_reader.specs.Reads.{named, Counts, or_missing, checked_text};

use crate::held::{Content, Held, Parts, ShownText, Values};
use bumpalo::Bump;
use names::{PtrKind, Word};
use readers::is_text;
use rv_io::Memory;
use snapshot_file::Mem;

/// What is read of a part.
#[derive(Drop)]
pub(crate) enum Checked<T> {
    /// It has this value.
    Valid(T),
    /// All that is needed is there, and no value has it as its image.
    Invalid,
    /// An item that is needed is missing.
    Missing,
}

/// Why reading stops.
#[derive(Clone, Copy, Debug, PartialEq, Eq)]
pub(crate) enum WalkErr {
    /// There are more nodes than a value may have.
    TooLarge,
    /// Out of memory.
    Memory,
}

impl From<Memory> for WalkErr {
    ghost use Rattle.value_reader.specs.declared.checked.WalkErr.TheVariants.{Memory as OutOfMemory};

    ghost from_gives = { λ _ e. e ≡ OutOfMemory };

    fn from(_e: Memory) -> WalkErr {
        WalkErr::Memory
    }
}

/// Takes nodes off those that may still come.
pub(crate) fn count(left: &mut u64, nodes: u64) -> Result<(), WalkErr>
    ensures { Counts nodes left.old left.new result }
{
    if *left < nodes {
        return Err(WalkErr::TooLarge);
    }
    *left -= nodes;
    Ok(())
}

/// One more value after those that were read.
pub(crate) fn push_value<'b>(
    values: Checked<Values<'b>>,
    value: Checked<Held<'b>>,
) -> Result<Checked<Values<'b>>, Memory>
    ensures { IfOk result (λ s. s ≡ push_checked values.entry value.entry) }
{
    match values {
        Checked::Valid(mut items) => match value {
            Checked::Valid(value) => {
                items.push(value)?;
                Ok(Checked::Valid(items))
            }
            Checked::Invalid => Ok(Checked::Invalid),
            Checked::Missing => Ok(Checked::Missing),
        },
        Checked::Invalid => match value {
            Checked::Valid(_) | Checked::Invalid => Ok(Checked::Invalid),
            Checked::Missing => Ok(Checked::Missing),
        },
        Checked::Missing => Ok(Checked::Missing),
    }
}

/// One more part after those that were read, under the name of its field.
pub(crate) fn push_part<'b>(
    bump: &'b Bump,
    parts: Checked<Parts<'b>>,
    name: &Word,
    value: Checked<Held<'b>>,
) -> Result<Checked<Parts<'b>>, Memory>
    ensures { IfOk result (λ s. s ≡ push_checked parts.entry (map_checked (named name.now) value.entry)) }
{
    match parts {
        Checked::Valid(mut items) => match value {
            Checked::Valid(value) => {
                items.push(bump, name, value)?;
                Ok(Checked::Valid(items))
            }
            Checked::Invalid => Ok(Checked::Invalid),
            Checked::Missing => Ok(Checked::Missing),
        },
        Checked::Invalid => match value {
            Checked::Valid(_) | Checked::Invalid => Ok(Checked::Invalid),
            Checked::Missing => Ok(Checked::Missing),
        },
        Checked::Missing => Ok(Checked::Missing),
    }
}

/// A struct of these parts.
pub(crate) fn struct_of<'b>(parts: Checked<Parts<'b>>) -> Checked<Held<'b>>
    ensures { result ≡ map_checked vals.Fields parts.entry }
{
    match parts {
        Checked::Valid(parts) => Checked::Valid(Held::fields(parts)),
        Checked::Invalid => Checked::Invalid,
        Checked::Missing => Checked::Missing,
    }
}

/// A variant of this name with these parts.
pub(crate) fn variant_of<'b>(
    bump: &'b Bump,
    name: &Word,
    parts: Checked<Parts<'b>>,
) -> Result<Checked<Held<'b>>, Memory>
    ensures { IfOk result (λ s. s ≡ map_checked (vals.Variant name.now) parts.entry) }
{
    match parts {
        Checked::Valid(parts) => Ok(Checked::Valid(Held::variant(bump, name, parts)?)),
        Checked::Invalid => Ok(Checked::Invalid),
        Checked::Missing => Ok(Checked::Missing),
    }
}

/// A sequence of this length, of which these values are shown.
pub(crate) fn seq_of<'b>(count: u64, shown: Checked<Values<'b>>) -> Checked<Held<'b>>
    ensures { result ≡ map_checked (vals.Seq count) shown.entry }
{
    match shown {
        Checked::Valid(shown) => Checked::Valid(Held::sequence(count, shown)),
        Checked::Invalid => Checked::Invalid,
        Checked::Missing => Checked::Missing,
    }
}

/// What a pointer leads to.
pub(crate) fn content_of<'b>(
    bump: &'b Bump,
    value: Checked<Held<'b>>,
) -> Result<Checked<Content<'b>>, Memory>
    ensures { IfOk result (λ s. s ≡ map_checked Some value.entry) }
{
    match value {
        Checked::Valid(value) => Ok(Checked::Valid(Content::some(bump, value)?)),
        Checked::Invalid => Ok(Checked::Invalid),
        Checked::Missing => Ok(Checked::Missing),
    }
}

/// A thin pointer with this content.
pub(crate) fn pointer_of<'b>(
    kind: PtrKind,
    at: u64,
    content: Checked<Content<'b>>,
) -> Checked<Held<'b>>
    ensures { result ≡ map_checked (vals.Pointer kind at) content.entry }
{
    match content {
        Checked::Valid(content) => Checked::Valid(Held::pointer(kind, at, content)),
        Checked::Invalid => Checked::Invalid,
        Checked::Missing => Checked::Missing,
    }
}

/// A pointer to a slice with this content.
pub(crate) fn slice_of<'b>(
    kind: PtrKind,
    at: u64,
    len: u64,
    content: Checked<Content<'b>>,
) -> Checked<Held<'b>>
    ensures { result ≡ map_checked (vals.Slice kind at len) content.entry }
{
    match content {
        Checked::Valid(content) => Checked::Valid(Held::slice(kind, at, len, content)),
        Checked::Invalid => Checked::Invalid,
        Checked::Missing => Checked::Missing,
    }
}

/// A pointer to a text with this content.
pub(crate) fn str_of<'b>(
    kind: PtrKind,
    at: u64,
    len: u64,
    content: Checked<ShownText<'b>>,
) -> Checked<Held<'b>>
    ensures { result ≡ map_checked (vals.Str kind at len) content.entry }
{
    match content {
        Checked::Valid(content) => Checked::Valid(Held::text(kind, at, len, content)),
        Checked::Invalid => Checked::Invalid,
        Checked::Missing => Checked::Missing,
    }
}

/// Reads bytes.
pub(crate) fn checked_bytes<'b>(bytes: Option<&'b [u8]>) -> Checked<Held<'b>>
    ensures { result ≡ map_checked vals.Bytes (or_missing (led bytes.entry)) }
{
    match bytes {
        None => Checked::Missing,
        Some(bytes) => Checked::Valid(Held::bytes(bytes)),
    }
}

/// Reads the text of so many bytes from an address on.
pub(crate) fn text_at<'b>(
    bump: &'b Bump,
    mem: &Mem,
    at: u64,
    len: u64,
) -> Result<Checked<ShownText<'b>>, Memory>
    ensures { IfOk result (λ s. s ≡ checked_text (bytes_of (items_at mem.now at len))) }
{
    match mem.bytes(at, len) {
        None => Ok(Checked::Missing),
        Some(bytes) => {
            if is_text(bytes) {
                Ok(Checked::Valid(ShownText::some(bump, bytes)?))
            } else {
                Ok(Checked::Invalid)
            }
        }
    }
}
