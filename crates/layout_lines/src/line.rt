//! The lines of types, statics and functions.
ghost use Rattle.std.specs.Prelude.{◌≡◌};
ghost use Rattle.layout_lines.specs.Lines.{kind_of_line};

use layout_set::{
    Case, Field, Func, Param, Piece, Place, Scope, Selector, Static, Tag, TypeDef, Var,
};
use layout_words::LineKind;
use names::Word;

/// A line of a layout file behind its first two.
#[derive(Drop)]
pub enum Line {
    /// A type, without the parts that have lines of their own.
    Type(TypeDef),
    Param(Param),
    Field(Field),
    Case(Case),
    Tag(Tag),
    /// A variant, without its fields.
    Variant(Word, Selector),
    Static(Static),
    /// A function, without its scopes.
    Func(Func),
    /// A scope, without its variables.
    Scope(Scope),
    /// A variable or a parameter, without its entries.
    Var(Var),
    /// An entry of one place: the first address, the one past the last, and the place.
    Whole(u64, u64, Place),
    /// An entry of so many pieces: the first address, the one past the last, and the number of lines of pieces that follow.
    Pieces(u64, u64, u32),
    /// A piece of the entry before.
    Piece(Piece),
}

/// What the line is.
pub fn kind_of(line: &Line) -> LineKind
    ensures { result ≡ kind_of_line line.now }
{
    match line {
        Line::Type(_) => LineKind::Type,
        Line::Param(_) => LineKind::Param,
        Line::Field(_) => LineKind::Field,
        Line::Case(_) => LineKind::Case,
        Line::Tag(_) => LineKind::Tag,
        Line::Variant(_, _) => LineKind::Variant,
        Line::Static(_) => LineKind::Static,
        Line::Func(_) => LineKind::Func,
        Line::Scope(_) => LineKind::Scope,
        Line::Var(var) => {
            if var.param {
                LineKind::Arg
            } else {
                LineKind::Var
            }
        }
        Line::Whole(_, _, _) | Line::Pieces(_, _, _) => LineKind::At,
        Line::Piece(_) => LineKind::Piece,
    }
}
