//! Sets with one line more.
ghost use Rattle.std.specs.Prelude.{◌≡◌, IfOk};
ghost use Rattle.layout_builder.specs.Additions.{added, settled, piece_added};

use crate::func_addition::{add_entry, add_scope, add_var};
use crate::type_addition::add_part;
use layout_lines::{Line, OpenEntry};
use layout_set::{Entry, Loc, Piece, Set};
use rv_io::{List, Memory};
use std::alloc::Global;

/// The set and the entry that stands open with the line.
pub fn added(
    alloc: Global,
    set: Set,
    open_entry: Option<OpenEntry>,
    line: Line,
) -> Result<(Set, Option<OpenEntry>), Memory>
    ensures { IfOk result (λ d. d ≡ added set open_entry line) }
{
    let mut set = set;
    match line {
        Line::Type(def) => {
            set.types.push(def)?;
            Ok((set, open_entry))
        }
        Line::Static(item) => {
            set.statics.push(item)?;
            Ok((set, open_entry))
        }
        Line::Func(func) => {
            set.funcs.push(func)?;
            Ok((set, open_entry))
        }
        Line::Scope(scope) => {
            add_scope(&mut set.funcs, scope)?;
            Ok((set, open_entry))
        }
        Line::Var(var) => {
            add_var(&mut set.funcs, var)?;
            Ok((set, open_entry))
        }
        Line::Whole(lo, hi, place) => {
            let loc = Loc::Whole(place);
            add_entry(&mut set.funcs, Entry { lo, hi, loc })?;
            Ok((set, open_entry))
        }
        Line::Pieces(lo, hi, count) => {
            let pieces = List::new(alloc);
            settled(
                set,
                OpenEntry {
                    lo,
                    hi,
                    count,
                    pieces,
                },
            )
        }
        Line::Piece(piece) => piece_added(set, open_entry, piece),
        part => {
            add_part(alloc, &mut set.types, part)?;
            Ok((set, open_entry))
        }
    }
}

/// The set with the entry, if no piece of it is missing, or both.
fn settled(set: Set, open_entry: OpenEntry) -> Result<(Set, Option<OpenEntry>), Memory>
    ensures { IfOk result (λ d. d ≡ settled set open_entry) }
{
    if open_entry.pieces.as_slice().len() != open_entry.count as usize {
        return Ok((set, Some(open_entry)));
    }
    let mut set = set;
    let OpenEntry { lo, hi, pieces, .. } = open_entry;
    let loc = Loc::Pieces(pieces);
    add_entry(&mut set.funcs, Entry { lo, hi, loc })?;
    Ok((set, None))
}

/// The set and the entry that stands open with one more piece of it.
fn piece_added(
    set: Set,
    open_entry: Option<OpenEntry>,
    piece: Piece,
) -> Result<(Set, Option<OpenEntry>), Memory>
    ensures { IfOk result (λ d. d ≡ piece_added set open_entry piece) }
{
    let Some(mut open_entry) = open_entry else {
        return Ok((set, None));
    };
    open_entry.pieces.push(piece)?;
    settled(set, open_entry)
}
