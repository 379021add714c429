//! Names of types.
use crate::word::Word;
use rv_io::{Boxed, List, Text};

/// The kinds of pointers.
#[derive(Clone, Copy, Debug, PartialEq, Eq)]
pub enum PtrKind {
    /// `&X`
    Ref,
    /// `&mut X`
    RefMut,
    /// `*const X`
    Const,
    /// `*mut X`
    Mut,
    /// A box, which no pointer name has.
    Boxed,
}

/// A segment of a path.
#[cycle(name)]
#[derive(Debug, Drop)]
pub struct Seg {
    /// What the segment is called.
    pub word: Word,
    /// Tells segments of one word apart, as those of closures.
    pub number: Option<u32>,
    /// The args in angle brackets; none where there are no brackets.
    pub args: List<Name>,
}

/// The name of a type, or a text in its place.
#[cycle(name)]
#[derive(Debug, Drop)]
pub enum Name {
    /// Segments, as `a::B<C>`.
    Path(List<Seg>),
    /// A pointer of a kind other than `Boxed`.
    Pointer(PtrKind, Boxed<Name>),
    /// `[X]`
    Slice(Boxed<Name>),
    /// `[X; n]`
    Array(Boxed<Name>, u64),
    /// `(X, Y)`
    Tuple(List<Name>),
    /// `str`
    Str,
    /// `dyn A + B`, whose members are paths.
    Dyn(List<Name>),
    /// `fn(X, Y) -> R`: the types of the parameters, and that of the result.
    Fn(List<Name>, Boxed<Name>),
    /// A number as an arg: whether it is negative, and its magnitude.
    Number(bool, u128),
    /// `WORD=X` as an arg.
    Bind(Word, Boxed<Name>),
    /// A text that is no name's.
    Raw(Text),
}
