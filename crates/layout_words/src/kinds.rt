//! The words by which lines are told apart.
ghost use Rattle.std.specs.Prelude.{◌≡◌};
ghost use Rattle.layout_words.specs.Kinds.{named_in, line_kind_word, line_kind_of, type_kind_word, type_kind_of, selector_word, selector_kind_of, pointer_word, pointer_of, primitive_word, primitive_of};

use layout_set::Primitive;
use names::PtrKind;

/// What a line is, as its first word says.
#[derive(Clone, Copy, Debug, PartialEq, Eq)]
pub enum LineKind {
    Version,
    Target,
    Type,
    Param,
    Field,
    Case,
    Tag,
    Variant,
    Static,
    Func,
    Scope,
    Var,
    Arg,
    At,
    Piece,
}

/// What a type is, as the third word of its line says.
#[derive(Clone, Copy, Debug, PartialEq, Eq)]
pub enum TypeKind {
    Struct,
    Array,
    Thin,
    Slice,
    Str,
    Dyn,
    Function,
    CLike,
    Enum,
    Bytes,
}

/// What chooses a variant, as the third word of its line says.
#[derive(Clone, Copy, Debug, PartialEq, Eq)]
pub enum SelectorKind {
    Exact,
    Span,
    Only,
}

/// Where a variable or a piece of it is, as a word of its line says.
#[derive(Clone, Copy, Debug, PartialEq, Eq)]
pub enum PlaceKind {
    Reg,
    Mem,
    Fixed,
    Value,
    Expr,
    /// In pieces, which only an entry may be.
    Pieces,
    /// Nowhere, which only a piece may be.
    Nowhere,
}

/// An operation that has a number in its word.
#[derive(Clone, Copy, Debug, PartialEq, Eq)]
pub enum NumberedOp {
    Const,
    Deref,
    Pick,
    Plus,
    Reg,
}

const LINE_KINDS: [LineKind; 15] = [
    LineKind::Version,
    LineKind::Target,
    LineKind::Type,
    LineKind::Param,
    LineKind::Field,
    LineKind::Case,
    LineKind::Tag,
    LineKind::Variant,
    LineKind::Static,
    LineKind::Func,
    LineKind::Scope,
    LineKind::Var,
    LineKind::Arg,
    LineKind::At,
    LineKind::Piece,
];

const TYPE_KINDS: [TypeKind; 10] = [
    TypeKind::Struct,
    TypeKind::Array,
    TypeKind::Thin,
    TypeKind::Slice,
    TypeKind::Str,
    TypeKind::Dyn,
    TypeKind::Function,
    TypeKind::CLike,
    TypeKind::Enum,
    TypeKind::Bytes,
];

const SELECTOR_KINDS: [SelectorKind; 3] = [
    SelectorKind::Exact,
    SelectorKind::Span,
    SelectorKind::Only,
];

const POINTERS: [PtrKind; 5] = [
    PtrKind::Ref,
    PtrKind::RefMut,
    PtrKind::Const,
    PtrKind::Mut,
    PtrKind::Boxed,
];

/// All primitives, in the order of their declaration.
const PRIMITIVES: [Primitive; 17] = [
    Primitive::Unit,
    Primitive::Bool,
    Primitive::Char,
    Primitive::I8,
    Primitive::I16,
    Primitive::I32,
    Primitive::I64,
    Primitive::I128,
    Primitive::Isize,
    Primitive::U8,
    Primitive::U16,
    Primitive::U32,
    Primitive::U64,
    Primitive::U128,
    Primitive::Usize,
    Primitive::F32,
    Primitive::F64,
];

/// The kind of a line with this first word.
pub fn line_kind_of(word: &[u8]) -> Option<LineKind>
    ensures { result ≡ line_kind_of word.now }
{
    line_kind_in(&LINE_KINDS, word)
}

#[tactic(auto, using(rv_io::proofs::Steps::drop_step))]
fn line_kind_in(kinds: &[LineKind], word: &[u8]) -> Option<LineKind>
    ensures { result ≡ named_in line_kind_word kinds.now word.now }
{
    for kind in kinds {
        if word == line_kind_word(*kind) {
            return Some(*kind);
        }
    }
    None
}

/// The kind of a type with this third word.
pub fn type_kind_of(word: &[u8]) -> Option<TypeKind>
    ensures { result ≡ type_kind_of word.now }
{
    type_kind_in(&TYPE_KINDS, word)
}

#[tactic(auto, using(rv_io::proofs::Steps::drop_step))]
fn type_kind_in(kinds: &[TypeKind], word: &[u8]) -> Option<TypeKind>
    ensures { result ≡ named_in type_kind_word kinds.now word.now }
{
    for kind in kinds {
        if word == type_kind_word(*kind) {
            return Some(*kind);
        }
    }
    None
}

/// The kind of a variant with this third word.
pub fn selector_kind_of(word: &[u8]) -> Option<SelectorKind>
    ensures { result ≡ selector_kind_of word.now }
{
    selector_kind_in(&SELECTOR_KINDS, word)
}

#[tactic(auto, using(rv_io::proofs::Steps::drop_step))]
fn selector_kind_in(kinds: &[SelectorKind], word: &[u8]) -> Option<SelectorKind>
    ensures { result ≡ named_in selector_word kinds.now word.now }
{
    for kind in kinds {
        if word == selector_word(*kind) {
            return Some(*kind);
        }
    }
    None
}

/// The kind of pointer with this word.
pub fn pointer_of(word: &[u8]) -> Option<PtrKind>
    ensures { result ≡ pointer_of word.now }
{
    pointer_in(&POINTERS, word)
}

#[tactic(auto, using(rv_io::proofs::Steps::drop_step))]
fn pointer_in(kinds: &[PtrKind], word: &[u8]) -> Option<PtrKind>
    ensures { result ≡ named_in pointer_word kinds.now word.now }
{
    for kind in kinds {
        if word == pointer_word(*kind) {
            return Some(*kind);
        }
    }
    None
}

/// The primitive with this name.
pub fn primitive_of(word: &[u8]) -> Option<Primitive>
    ensures { result ≡ primitive_of word.now }
{
    primitive_in(&PRIMITIVES, word)
}

#[tactic(auto, using(rv_io::proofs::Steps::drop_step))]
fn primitive_in(primitives: &[Primitive], word: &[u8]) -> Option<Primitive>
    ensures { result ≡ named_in primitive_word primitives.now word.now }
{
    for primitive in primitives {
        if word == primitive_word(*primitive) {
            return Some(*primitive);
        }
    }
    None
}

/// The first word of a line.
pub fn line_kind_word(kind: LineKind) -> &'static [u8]
    ensures { result.now ≡ line_kind_word kind }
{
    match kind {
        LineKind::Version => b"rdbg-layout",
        LineKind::Target => b"target",
        LineKind::Type => b"type",
        LineKind::Param => b"param",
        LineKind::Field => b"field",
        LineKind::Case => b"case",
        LineKind::Tag => b"tag",
        LineKind::Variant => b"variant",
        LineKind::Static => b"static",
        LineKind::Func => b"fn",
        LineKind::Scope => b"scope",
        LineKind::Var => b"var",
        LineKind::Arg => b"arg",
        LineKind::At => b"at",
        LineKind::Piece => b"piece",
    }
}

/// The third word of a type's line.
pub fn type_kind_word(kind: TypeKind) -> &'static [u8]
    ensures { result.now ≡ type_kind_word kind }
{
    match kind {
        TypeKind::Struct => b"struct",
        TypeKind::Array => b"array",
        TypeKind::Thin => b"thin",
        TypeKind::Slice => b"slice",
        TypeKind::Str => b"str",
        TypeKind::Dyn => b"dyn",
        TypeKind::Function => b"fn",
        TypeKind::CLike => b"clike",
        TypeKind::Enum => b"enum",
        TypeKind::Bytes => b"bytes",
    }
}

/// The third word of a variant's line.
pub fn selector_word(kind: SelectorKind) -> &'static [u8]
    ensures { result.now ≡ selector_word kind }
{
    match kind {
        SelectorKind::Exact => b"exact",
        SelectorKind::Span => b"span",
        SelectorKind::Only => b"only",
    }
}

/// The word of a kind of pointer.
pub fn pointer_word(kind: PtrKind) -> &'static [u8]
    ensures { result.now ≡ pointer_word kind }
{
    match kind {
        PtrKind::Ref => b"ref",
        PtrKind::RefMut => b"refmut",
        PtrKind::Const => b"const",
        PtrKind::Mut => b"mut",
        PtrKind::Boxed => b"box",
    }
}

/// The name of a primitive, as in Rust.
pub fn primitive_word(primitive: Primitive) -> &'static [u8]
    ensures { result.now ≡ primitive_word primitive }
{
    match primitive {
        Primitive::Unit => b"()",
        Primitive::Bool => b"bool",
        Primitive::Char => b"char",
        Primitive::I8 => b"i8",
        Primitive::I16 => b"i16",
        Primitive::I32 => b"i32",
        Primitive::I64 => b"i64",
        Primitive::I128 => b"i128",
        Primitive::Isize => b"isize",
        Primitive::U8 => b"u8",
        Primitive::U16 => b"u16",
        Primitive::U32 => b"u32",
        Primitive::U64 => b"u64",
        Primitive::U128 => b"u128",
        Primitive::Usize => b"usize",
        Primitive::F32 => b"f32",
        Primitive::F64 => b"f64",
    }
}
