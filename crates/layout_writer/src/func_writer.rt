//! The lines of functions, written.
ghost use Rattle.std.specs.Prelude.{◌≡◌, ◌++◌, ◌∷◌, ◌<◌, ◌≤◌, ◌^◌, map, length, take, OnOk, OnErr};
ghost use Rattle.std.specs.List.{All, flat_map, sum_by};
ghost use Rattle.readers.specs.Hex.{hex_text};
ghost use Rattle.layout_words.specs.Kinds.{line_kind_word};
ghost use Rattle.layout_set.specs.Counts.{entry_parts, var_parts, scope_parts, func_parts};
ghost use Rattle.layout_set.specs.IsSet.{IsNamed};
ghost use Rattle.layout_words.specs.PlaceSpellings.{frame_text, zone, zone_text, IsZone};
ghost use Rattle.layout_words.specs.Forms.{behind, words_text};
ghost use Rattle.layout_lines.specs.Lines.{line_rest, kind_of_line, param_form, scope_form, func_form, IsLine};
ghost use Rattle.layout_lines.specs.Sets.{part_text, func_lines, scope_lines, var_lines, entry_lines, loc_lines};
ghost use Rattle.layout_words.specs.declared.kinds.LineKind.TheVariants as firsts;
ghost use Rattle.layout_lines.specs.declared.line.Line.TheVariants as lines;

use crate::line_writer::{
    put_end, put_hexadecimal, put_number, put_reference, put_spaced_name, put_word,
};
use crate::place_writer::{put_place, put_place_if};
use layout_set::{Entry, Func, Loc, Piece, Place, Scope, Var, Zone};
use layout_words::{LineKind, PlaceKind, line_kind_word, place_word};
use rv_io::{Buf, Memory};
use snapshot_file::Reg;

/// Puts a space and a register, or `none`.
fn put_frame(frame: Option<Reg>, out: &mut Buf) -> Result<(), Memory>
    ensures put { OnOk result (out.new ≡ out.old ++ 32 ∷ frame_text frame) }
    ensures front { OnErr result (take (length out.old) out.new ≡ out.old) }
{
    match frame {
        None => out.put(b" none"),
        Some(reg) => put_word(reg.name(), out),
    }
}

/// Puts a space and a zone.
fn put_zone(zone: &Zone, out: &mut Buf) -> Result<(), Memory>
    ensures put { OnOk result (out.new ≡ out.old ++ 32 ∷ zone_text zone.now) }
    ensures front { OnErr result (take (length out.old) out.new ≡ out.old) }
    ensures zone { IsZone zone.now }
{
    let Zone { lo, hi } = *zone;
    let text = format!(in out.alloc(); " 0x{lo:x}..0x{hi:x}")?;
    out.put(text.as_bytes())
}

/// Puts zones, each behind a space.
fn put_zones(zones: &[Zone], out: &mut Buf) -> Result<(), Memory>
    ensures put { OnOk result (out.new ≡ out.old ++ behind (words_text zone zones.now)) }
    ensures front { OnErr result (take (length out.old) out.new ≡ out.old) }
    ensures zones { OnOk result (All IsZone zones.now) }
{
    for zone in zones {
        put_zone(zone, out)?;
    }
    Ok(())
}

fn put_piece(piece: &Piece, out: &mut Buf) -> Result<(), Memory>
    ensures put { OnOk result (out.new ≡ out.old ++ part_text (lines.Piece piece.now)) }
    ensures front { OnErr result (take (length out.old) out.new ≡ out.old) }
    ensures line { OnOk result (IsLine (lines.Piece piece.now)) }
{
    out.put(line_kind_word(LineKind::Piece))?;
    put_number(u128::from(piece.size), out)?;
    put_place_if(&piece.place, out)?;
    put_end(out)
}

fn put_pieces(pieces: &[Piece], out: &mut Buf) -> Result<(), Memory>
    ensures put { OnOk result (out.new ≡ out.old ++ flat_map part_text (map (λ p. lines.Piece p) pieces.now)) }
    ensures front { OnErr result (take (length out.old) out.new ≡ out.old) }
    ensures lines { OnOk result (All IsLine (map (λ p. lines.Piece p) pieces.now)) }
{
    for piece in pieces {
        put_piece(piece, out)?;
    }
    Ok(())
}

/// Puts the first word of an entry's line, and where the entry begins and ends.
fn put_range(lo: u64, hi: u64, out: &mut Buf) -> Result<(), Memory>
    ensures put { OnOk result (out.new ≡ out.old ++ (line_kind_word firsts.At ++ (32 ∷ hex_text lo ++ 32 ∷ hex_text hi))) }
    ensures front { OnErr result (take (length out.old) out.new ≡ out.old) }
{
    out.put(line_kind_word(LineKind::At))?;
    put_hexadecimal(lo, out)?;
    put_hexadecimal(hi, out)
}

fn put_whole(lo: u64, hi: u64, place: &Place, out: &mut Buf) -> Result<(), Memory>
    ensures put { OnOk result (out.new ≡ out.old ++ part_text (lines.Whole lo hi place.now)) }
    ensures front { OnErr result (take (length out.old) out.new ≡ out.old) }
    ensures line { OnOk result (IsLine (lines.Whole lo hi place.now)) }
{
    put_range(lo, hi, out)?;
    put_place(place, out)?;
    put_end(out)
}

fn put_count(lo: u64, hi: u64, count: usize, out: &mut Buf) -> Result<(), Memory>
    ensures put { OnOk result (out.new ≡ out.old ++ part_text (lines.Pieces lo hi count)) }
    ensures front { OnErr result (take (length out.old) out.new ≡ out.old) }
    ensures line { OnOk result (count < 2 ^ 32 → IsLine (lines.Pieces lo hi count)) }
{
    put_range(lo, hi, out)?;
    put_word(place_word(PlaceKind::Pieces), out)?;
    put_number(count as u128, out)?;
    put_end(out)
}

/// Puts the lines of an entry.
fn put_entry(entry: &Entry, out: &mut Buf) -> Result<(), Memory>
    ensures put { OnOk result (out.new ≡ out.old ++ flat_map part_text (entry_lines entry.now)) }
    ensures front { OnErr result (take (length out.old) out.new ≡ out.old) }
    ensures lines { OnOk result (entry_parts entry.now ≤ 40000 → All IsLine (entry_lines entry.now)) }
{
    match &entry.loc {
        Loc::Whole(place) => put_whole(entry.lo, entry.hi, place, out),
        Loc::Pieces(pieces) => {
            let pieces = pieces.as_slice();
            put_count(entry.lo, entry.hi, pieces.len(), out)?;
            put_pieces(pieces, out)
        }
    }
}

fn put_entries(entries: &[Entry], out: &mut Buf) -> Result<(), Memory>
    ensures put { OnOk result (out.new ≡ out.old ++ flat_map part_text (flat_map entry_lines entries.now)) }
    ensures front { OnErr result (take (length out.old) out.new ≡ out.old) }
    ensures lines { OnOk result (sum_by entry_parts entries.now ≤ 40000 → All IsLine (flat_map entry_lines entries.now)) }
{
    for entry in entries {
        put_entry(entry, out)?;
    }
    Ok(())
}

/// What the line of a variable is.
fn kind_of_var(var: &Var) -> LineKind
    ensures { result ≡ kind_of_line (lines.Var var.now) }
{
    if var.param {
        LineKind::Arg
    } else {
        LineKind::Var
    }
}

/// Puts a variable's name and type.
fn put_var_words(var: &Var, out: &mut Buf) -> Result<(), Memory>
    ensures put { OnOk result (out.new ≡ out.old ++ behind (line_rest 0 (lines.Var var.now))) }
    ensures front { OnErr result (take (length out.old) out.new ≡ out.old) }
    ensures words { OnOk result (param_form.Is (var.now.name, (var.now.ty, tt))) }
{
    put_word(var.name.as_bytes(), out)?;
    put_reference(var.ty, out)
}

fn put_var_line(var: &Var, out: &mut Buf) -> Result<(), Memory>
    ensures put { OnOk result (out.new ≡ out.old ++ part_text (lines.Var var.now)) }
    ensures front { OnErr result (take (length out.old) out.new ≡ out.old) }
    ensures words { OnOk result (param_form.Is (var.now.name, (var.now.ty, tt))) }
{
    out.put(line_kind_word(kind_of_var(var)))?;
    put_var_words(var, out)?;
    put_end(out)
}

/// Puts the lines of a variable and of its entries.
fn put_var(var: &Var, out: &mut Buf) -> Result<(), Memory>
    ensures put { OnOk result (out.new ≡ out.old ++ flat_map part_text (var_lines var.now)) }
    ensures front { OnErr result (take (length out.old) out.new ≡ out.old) }
    ensures lines { OnOk result (var_parts var.now ≤ 40000 → All IsLine (var_lines var.now)) }
{
    put_var_line(var, out)?;
    put_entries(var.entries.as_slice(), out)
}

fn put_vars(vars: &[Var], out: &mut Buf) -> Result<(), Memory>
    ensures put { OnOk result (out.new ≡ out.old ++ flat_map part_text (flat_map var_lines vars.now)) }
    ensures front { OnErr result (take (length out.old) out.new ≡ out.old) }
    ensures lines { OnOk result (sum_by var_parts vars.now ≤ 40000 → All IsLine (flat_map var_lines vars.now)) }
{
    for var in vars {
        put_var(var, out)?;
    }
    Ok(())
}

/// Puts a scope's depth and its zones.
fn put_scope_words(scope: &Scope, out: &mut Buf) -> Result<(), Memory>
    ensures put { OnOk result (out.new ≡ out.old ++ behind (line_rest 0 (lines.Scope scope.now))) }
    ensures front { OnErr result (take (length out.old) out.new ≡ out.old) }
    ensures words { OnOk result (scope_form.Is (scope.now.depth, scope.now.zones)) }
{
    put_number(u128::from(scope.depth), out)?;
    put_zones(scope.zones.as_slice(), out)
}

fn put_scope_line(scope: &Scope, out: &mut Buf) -> Result<(), Memory>
    ensures put { OnOk result (out.new ≡ out.old ++ part_text (lines.Scope scope.now)) }
    ensures front { OnErr result (take (length out.old) out.new ≡ out.old) }
    ensures words { OnOk result (scope_form.Is (scope.now.depth, scope.now.zones)) }
{
    out.put(line_kind_word(LineKind::Scope))?;
    put_scope_words(scope, out)?;
    put_end(out)
}

/// Puts the lines of a scope and of its variables.
fn put_scope(scope: &Scope, out: &mut Buf) -> Result<(), Memory>
    ensures put { OnOk result (out.new ≡ out.old ++ flat_map part_text (scope_lines scope.now)) }
    ensures front { OnErr result (take (length out.old) out.new ≡ out.old) }
    ensures lines { OnOk result (scope_parts scope.now ≤ 40000 → All IsLine (scope_lines scope.now)) }
{
    put_scope_line(scope, out)?;
    put_vars(scope.vars.as_slice(), out)
}

fn put_scopes(scopes: &[Scope], out: &mut Buf) -> Result<(), Memory>
    ensures put { OnOk result (out.new ≡ out.old ++ flat_map part_text (flat_map scope_lines scopes.now)) }
    ensures front { OnErr result (take (length out.old) out.new ≡ out.old) }
    ensures lines { OnOk result (sum_by scope_parts scopes.now ≤ 40000 → All IsLine (flat_map scope_lines scopes.now)) }
{
    for scope in scopes {
        put_scope(scope, out)?;
    }
    Ok(())
}

/// Puts the register of a function's frame, and its name.
fn put_func_words(func: &Func, out: &mut Buf) -> Result<(), Memory>
    ensures put { OnOk result (out.new ≡ out.old ++ behind (line_rest 0 (lines.Func func.now))) }
    ensures front { OnErr result (take (length out.old) out.new ≡ out.old) }
    ensures words { OnOk result (IsNamed func.now.name → func_form.Is (func.now.frame, func.now.name)) }
{
    put_frame(func.frame, out)?;
    put_spaced_name(&func.name, out)
}

fn put_func_line(func: &Func, out: &mut Buf) -> Result<(), Memory>
    ensures put { OnOk result (out.new ≡ out.old ++ part_text (lines.Func func.now)) }
    ensures front { OnErr result (take (length out.old) out.new ≡ out.old) }
    ensures words { OnOk result (IsNamed func.now.name → func_form.Is (func.now.frame, func.now.name)) }
{
    out.put(line_kind_word(LineKind::Func))?;
    put_func_words(func, out)?;
    put_end(out)
}

/// Puts the lines of a function and of its scopes.
fn put_func(func: &Func, out: &mut Buf) -> Result<(), Memory>
    ensures put { OnOk result (out.new ≡ out.old ++ flat_map part_text (func_lines func.now)) }
    ensures front { OnErr result (take (length out.old) out.new ≡ out.old) }
    ensures lines { OnOk result (IsNamed func.now.name → func_parts func.now ≤ 40000 → All IsLine (func_lines func.now)) }
{
    put_func_line(func, out)?;
    put_scopes(func.scopes.as_slice(), out)
}

/// Puts the lines of functions and of what is in them.
pub(crate) fn put_funcs(funcs: &[Func], out: &mut Buf) -> Result<(), Memory>
    ensures put { OnOk result (out.new ≡ out.old ++ flat_map part_text (flat_map func_lines funcs.now)) }
    ensures front { OnErr result (take (length out.old) out.new ≡ out.old) }
    ensures lines { OnOk result (All (λ f. IsNamed f.name) funcs.now → sum_by func_parts funcs.now ≤ 40000 → All IsLine (flat_map func_lines funcs.now)) }
{
    for func in funcs {
        put_func(func, out)?;
    }
    Ok(())
}
