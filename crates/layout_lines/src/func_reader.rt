//! The lines of functions, read by their forms.
ghost use Rattle.std.specs.Prelude.{◌≡◌};
ghost use Rattle.layout_words.specs.declared.kinds.LineKind.TheVariants as firsts;
ghost use Rattle.layout_lines.specs.ReadLines.{rest_of, var_of, at_of, entry_of, place_of, piece_place_of, piece_of};
ghost use Rattle.layout_words.specs.Steps.{Read};

use crate::line::Line;
use layout_set::{Func, Piece, Place, Scope, Var};
use layout_words::{PlaceKind, Stop, Words};
use rv_io::List;
use std::alloc::Global;

/// `REG NAME`, `none NAME`
pub(crate) fn func_of(alloc: Global, mut words: Words) -> Result<Line, Stop>
    ensures { Read (rest_of 0 firsts.Func words.entry) result }
{
    let frame = words.frame()?;
    let name = words.name(alloc)?;
    let scopes = List::new(alloc);
    Ok(Line::Func(Func {
        name,
        frame,
        scopes,
    }))
}

/// `DEPTH H..H ..`
pub(crate) fn scope_of(alloc: Global, mut words: Words) -> Result<Line, Stop>
    ensures { Read (rest_of 0 firsts.Scope words.entry) result }
{
    let depth = words.number_u32()?;
    let zones = words.zones(alloc)?;
    let vars = List::new(alloc);
    Ok(Line::Scope(Scope { depth, zones, vars }))
}

/// `WORD T`, of a parameter or of a variable.
pub(crate) fn var_of(alloc: Global, param: bool, mut words: Words) -> Result<Line, Stop>
    ensures { Read (var_of param words.entry) result }
{
    let name = words.word(alloc)?;
    let ty = words.reference()?;
    words.end()?;
    let entries = List::new(alloc);
    Ok(Line::Var(Var {
        name,
        ty,
        param,
        entries,
    }))
}

/// `H H KIND`, and what follows
pub(crate) fn at_of(alloc: Global, mut words: Words) -> Result<Line, Stop>
    ensures { Read (at_of words.entry) result }
{
    let lo = words.hex()?;
    let hi = words.hex()?;
    let kind = words.entry_kind()?;
    entry_of(alloc, lo, hi, kind, words)
}

/// The entry of such a kind.
fn entry_of(
    alloc: Global,
    lo: u64,
    hi: u64,
    kind: PlaceKind,
    mut words: Words,
) -> Result<Line, Stop>
    ensures { Read (entry_of lo hi kind words.entry) result }
{
    match kind {
        PlaceKind::Pieces => {
            let count = words.number_u32()?;
            words.end()?;
            Ok(Line::Pieces(lo, hi, count))
        }
        _ => {
            let place = place_of(alloc, kind, words)?;
            Ok(Line::Whole(lo, hi, place))
        }
    }
}

/// The place of such a kind.
fn place_of(alloc: Global, kind: PlaceKind, mut words: Words) -> Result<Place, Stop>
    ensures { Read (place_of kind words.entry) result }
{
    match kind {
        PlaceKind::Reg => {
            let reg = words.register()?;
            words.end()?;
            Ok(Place::Reg(reg))
        }
        PlaceKind::Mem => {
            let reg = words.register()?;
            let offset = words.signed()?;
            words.end()?;
            Ok(Place::Mem(reg, offset))
        }
        PlaceKind::Fixed => {
            let at = words.hex()?;
            words.end()?;
            Ok(Place::Fixed(at))
        }
        PlaceKind::Value => {
            let bytes = words.digits(alloc)?;
            words.end()?;
            Ok(Place::Value(bytes))
        }
        PlaceKind::Expr => {
            let ops = words.operations(alloc)?;
            Ok(Place::Expr(ops))
        }
        PlaceKind::Pieces | PlaceKind::Nowhere => Err(Stop::Unfit),
    }
}

/// `SIZE KIND`, and what follows
pub(crate) fn piece_of(alloc: Global, mut words: Words) -> Result<Line, Stop>
    ensures { Read (piece_of words.entry) result }
{
    let size = words.number_u32()?;
    let kind = words.piece_kind()?;
    let place = piece_place_of(alloc, kind, words)?;
    Ok(Line::Piece(Piece { size, place }))
}

/// The place of a piece, or none.
fn piece_place_of(alloc: Global, kind: PlaceKind, words: Words) -> Result<Option<Place>, Stop>
    ensures { Read (piece_place_of kind words.entry) result }
{
    match kind {
        PlaceKind::Nowhere => {
            words.end()?;
            Ok(None)
        }
        _ => {
            let place = place_of(alloc, kind, words)?;
            Ok(Some(place))
        }
    }
}
