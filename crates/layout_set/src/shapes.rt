//! The shapes of names: paths, names of structs, and names of fat pointers.
ghost use Rattle.std.specs.Prelude.{◌≡◌, Some};
ghost use Rattle.std.specs.Bool.{Decides};
ghost use Rattle.layout_set.specs.NameShapes.{is_raw, is_path, is_struct_name, fat_content, is_called, is_plain, content_of_args, is_box, box_content, fat_of};

use names::{Name, PtrKind, Seg};

/// What a fat pointer leads to.
#[derive(Clone, Copy, Debug, PartialEq, Eq)]
pub enum FatContent {
    OfSlice,
    OfStr,
    OfDyn,
}

/// Whether the name is a raw text.
pub fn is_raw(name: &Name) -> bool
    ensures { result ≡ is_raw name.now }
{
    matches!(name, Name::Raw(_))
}

/// Whether the name is a path.
pub fn is_path(name: &Name) -> bool
    ensures { result ≡ is_path name.now }
{
    matches!(name, Name::Path(_))
}

/// A path, a tuple of at least one part or a `Dyn`.
pub fn is_struct_name(name: &Name) -> bool
    ensures { result ≡ is_struct_name name.now }
{
    match name {
        Name::Path(_) | Name::Dyn(_) => true,
        Name::Tuple(parts) => !parts.as_slice().is_empty(),
        _ => false,
    }
}

/// What a fat pointer to something of this name leads to.
fn fat_content(name: &Name) -> Option<FatContent>
    ensures { result ≡ fat_content name.now }
{
    match name {
        Name::Slice(_) => Some(FatContent::OfSlice),
        Name::Str => Some(FatContent::OfStr),
        Name::Dyn(_) => Some(FatContent::OfDyn),
        _ => None,
    }
}

/// Whether the segment is this word, without a number.
fn is_called(seg: &Seg, word: &[u8]) -> bool
    ensures { result ≡ is_called word.now seg.now }
{
    seg.word.as_bytes() == word && seg.number.is_none()
}

/// Whether the segment is this word, without a number or args.
fn is_plain(seg: &Seg, word: &[u8]) -> bool
    ensures { result ≡ is_plain word.now seg.now }
{
    is_called(seg, word) && seg.args.as_slice().is_empty()
}

/// What a fat pointer leads to whose content is the first of these.
fn content_of_args(args: &[Name]) -> Option<FatContent>
    ensures { result ≡ content_of_args args.now }
{
    match args.first() {
        Some(first) => fat_content(first),
        None => None,
    }
}

/// Whether the segments are those of `alloc::boxed::Box`.
fn is_box(segs: &[Seg]) -> bool
    ensures { result ≡ is_box segs.now }
{
    segs.len() == 3
        && is_plain(&segs[0], b"alloc")
        && is_plain(&segs[1], b"boxed")
        && is_called(&segs[2], b"Box")
}

/// What `alloc::boxed::Box` of these segments leads to, where its first arg has no size.
fn box_content(segs: &[Seg]) -> Option<FatContent>
    ensures { result ≡ box_content segs.now }
{
    if !is_box(segs) {
        return None;
    }
    content_of_args(segs[2].args.as_slice())
}

/// The kind of a fat name, and what it leads to.
pub fn fat_of(name: &Name) -> Option<(PtrKind, FatContent)>
    ensures { result ≡ fat_of name.now }
{
    let (kind, content) = match name {
        Name::Pointer(kind, to) => (*kind, fat_content(to.get())),
        Name::Path(segs) => (PtrKind::Boxed, box_content(segs.as_slice())),
        _ => return None,
    };
    match content {
        Some(content) => Some((kind, content)),
        None => None,
    }
}

/// Whether the name is a fat name of this kind to this content.
pub fn is_fat(name: &Name, kind: PtrKind, content: FatContent) -> bool
    ensures { Decides result (fat_of name.now ≡ Some (kind, content)) }
{
    match fat_of(name) {
        Some((its_kind, its_content)) => its_kind == kind && its_content == content,
        None => false,
    }
}
