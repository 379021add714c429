//! Which rule a line breaks that spells nothing that may stand there.
ghost use Rattle.std.specs.Prelude.{◌≡◌, IfOk, Some, Ok, ◌∷◌};
ghost use Rattle.layout_rules.specs.Faults.{front_of, next_number, is_rest, is_optional, fits, type_slots, selector_slots, place_slots, second_word, third_word, places_of};
ghost use Rattle.layout_rules.specs.LineRules.{may_stand, lowest_broken, rule_of_words, rule_of_kind, rule_of};
ghost use Rattle.layout_words.specs.declared.kinds.LineKind.TheVariants as firsts;
ghost use Rattle.layout_words.specs.declared.slot.Slot.TheVariants as slots;
ghost use Rattle.layout_words.specs.Steps.{lent, seen};

use crate::fault::Front;
use crate::lowest_words::{broken, cut, lower};
use layout_lines::may_follow;
use layout_words::{
    LineKind, PlaceKind, SelectorKind, Slot, TypeKind, entry_kind_of, line_kind_of, piece_kind_of,
    selector_kind_of, type_kind_of,
};
use readers::is_text;
use rv_io::Memory;
use std::alloc::Global;

/// The lowest rule that the line breaks, if it breaks one.
#[tactic(auto, unfolding(crate::specs::LineRules::rule_of))]
pub fn rule_of(alloc: Global, front: Front, line: &[u8]) -> Result<Option<u8>, Memory>
    ensures { IfOk result (λ r. r ≡ rule_of (front_of front.entry) line.now) }
{
    if !is_text(line) {
        return Ok(Some(1));
    }
    let (first, left) = cut(line);
    match line_kind_of(first) {
        Some(kind) => rule_of_kind(alloc, front, kind, left),
        None => Ok(Some(2)),
    }
}

fn rule_of_kind(
    alloc: Global,
    front: Front,
    kind: LineKind,
    left: Option<&[u8]>,
) -> Result<Option<u8>, Memory>
    ensures { IfOk result (λ r. r ≡ rule_of_kind (front_of front.entry) (lent left.entry) (Some kind)) }
{
    if !may_stand(front, kind) {
        return Ok(Some(2));
    }
    match places_of(kind, left) {
        Ok(places) => rule_of_words(alloc, next_number(front), places, left),
        Err(rule) => Ok(Some(rule)),
    }
}

/// Whether a line of such a kind may stand there.
fn may_stand(front: Front, kind: LineKind) -> bool
    ensures { result ≡ may_stand (front_of front.entry) kind }
{
    match front {
        Front::First => matches!(kind, LineKind::Version),
        Front::Second => matches!(kind, LineKind::Target),
        Front::Behind(set, begun) => may_follow(set, begun, kind),
    }
}

/// The number of the next type.
fn next_number(front: Front) -> usize
    ensures { result ≡ next_number (front_of front.entry) }
{
    match front {
        Front::First | Front::Second => 0,
        Front::Behind(set, _) => set.types.as_slice().len(),
    }
}

/// The lowest rule above 2 that is broken.
fn rule_of_words(
    alloc: Global,
    next: usize,
    places: &[Slot],
    left: Option<&[u8]>,
) -> Result<Option<u8>, Memory>
    ensures { IfOk result (λ r. r ≡ rule_of_words next (lent left.entry) (Ok places.now)) }
{
    if fits(places, left) {
        lowest_broken(alloc, next, places, left)
    } else {
        Ok(Some(3))
    }
}

/// Whether all that is left of the line is at such a place.
fn is_rest(place: Slot) -> bool
    ensures { result ≡ is_rest place }
{
    matches!(place, Slot::Name | Slot::Zones | Slot::Operations)
}

/// Whether there may be nothing at such a place.
fn is_optional(place: Slot) -> bool
    ensures { result ≡ is_optional place }
{
    matches!(place, Slot::Zones)
}

/// Whether there are as many words as places.
fn fits(places: &[Slot], left: Option<&[u8]>) -> bool
    ensures { result ≡ fits places.now (lent left.entry) }
{
    let mut left = left;
    for place in places {
        let Some(line) = left else {
            return is_optional(*place);
        };
        if is_rest(*place) {
            return true;
        }
        left = cut(line).1;
    }
    left.is_none()
}

/// The lowest rule that words break at their places.
fn lowest_broken(
    alloc: Global,
    next: usize,
    places: &[Slot],
    left: Option<&[u8]>,
) -> Result<Option<u8>, Memory>
    ensures { IfOk result (λ r. r ≡ lowest_broken next places.now (lent left.entry)) }
{
    let mut left = left;
    let mut lowest = None;
    for place in places {
        let Some(line) = left else {
            return Ok(lowest);
        };
        if is_rest(*place) {
            return Ok(lower(lowest, broken(alloc, next, *place, line)?));
        }
        let (word, more) = cut(line);
        lowest = lower(lowest, broken(alloc, next, *place, word)?);
        left = more;
    }
    Ok(lowest)
}

/// What must stand behind the first word, or the rule that is broken where that can't be known.
fn places_of(kind: LineKind, left: Option<&[u8]>) -> Result<&'static [Slot], u8>
    ensures { seen result ≡ places_of kind (lent left.entry) }
{
    match kind {
        LineKind::Version => Ok(&[Slot::Version]),
        LineKind::Target => Ok(&[Slot::Number(8)]),
        LineKind::Type => type_places(left),
        LineKind::Param => Ok(&[Slot::Word, Slot::Reference]),
        LineKind::Field => Ok(&[Slot::Word, Slot::Number(32), Slot::Reference]),
        LineKind::Case => Ok(&[Slot::Word, Slot::Number(64)]),
        LineKind::Tag => Ok(&[Slot::Number(32), Slot::Primitive]),
        LineKind::Variant => variant_places(left),
        LineKind::Static => Ok(&[Slot::Address, Slot::Reference, Slot::Name]),
        LineKind::Func => Ok(&[Slot::Frame, Slot::Name]),
        LineKind::Scope => Ok(&[Slot::Number(32), Slot::Zones]),
        LineKind::Var | LineKind::Arg => Ok(&[Slot::Word, Slot::Reference]),
        LineKind::At => entry_places(left),
        LineKind::Piece => piece_places(left),
    }
}

/// The second of the words that are left, if there is one.
fn second_word(left: Option<&[u8]>) -> Option<&[u8]>
    ensures { lent result ≡ second_word (lent left.entry) }
{
    let behind = cut(left?).1;
    let (second, _) = cut(behind?);
    Some(second)
}

/// The third of the words that are left, if there is one.
fn third_word(left: Option<&[u8]>) -> Option<&[u8]>
    ensures { lent result ≡ third_word (lent left.entry) }
{
    second_word(cut(left?).1)
}

fn type_places(left: Option<&[u8]>) -> Result<&'static [Slot], u8>
    ensures { seen result ≡ places_of firsts.Type (lent left.entry) }
{
    let Some(word) = second_word(left) else {
        return Err(3);
    };
    match type_kind_of(word) {
        Some(kind) => Ok(type_slots(kind)),
        None => Err(2),
    }
}

fn variant_places(left: Option<&[u8]>) -> Result<&'static [Slot], u8>
    ensures { seen result ≡ places_of firsts.Variant (lent left.entry) }
{
    let Some(word) = second_word(left) else {
        return Err(3);
    };
    match selector_kind_of(word) {
        Some(kind) => Ok(variant_slots(kind)),
        None => Err(2),
    }
}

/// What must stand behind `type`.
fn type_slots(kind: TypeKind) -> &'static [Slot]
    ensures { result.now ≡ slots.Next ∷ slots.Kind ∷ type_slots kind }
{
    match kind {
        TypeKind::Struct | TypeKind::Enum | TypeKind::Bytes => &[
            Slot::Next,
            Slot::Kind,
            Slot::Number(32),
            Slot::Number(32),
            Slot::Name,
        ],
        TypeKind::Array => &[Slot::Next, Slot::Kind, Slot::Number(64), Slot::Reference],
        TypeKind::Thin => &[Slot::Next, Slot::Kind, Slot::Pointer, Slot::Reference],
        TypeKind::Slice | TypeKind::Str => &[
            Slot::Next,
            Slot::Kind,
            Slot::Pointer,
            Slot::Reference,
            Slot::Name,
        ],
        TypeKind::Dyn => &[
            Slot::Next,
            Slot::Kind,
            Slot::Pointer,
            Slot::Reference,
            Slot::Reference,
            Slot::Name,
        ],
        TypeKind::Function => &[Slot::Next, Slot::Kind],
        TypeKind::CLike => &[Slot::Next, Slot::Kind, Slot::Primitive, Slot::Name],
    }
}

/// What must stand behind `variant`.
fn variant_slots(kind: SelectorKind) -> &'static [Slot]
    ensures { result.now ≡ slots.Word ∷ slots.Kind ∷ selector_slots kind }
{
    match kind {
        SelectorKind::Exact => &[Slot::Word, Slot::Kind, Slot::Number(128)],
        SelectorKind::Span => &[Slot::Word, Slot::Kind, Slot::Number(128), Slot::Number(128)],
        SelectorKind::Only => &[Slot::Word, Slot::Kind],
    }
}

fn entry_places(left: Option<&[u8]>) -> Result<&'static [Slot], u8>
    ensures { seen result ≡ places_of firsts.At (lent left.entry) }
{
    let Some(word) = third_word(left) else {
        return Err(3);
    };
    match entry_kind_of(word) {
        Some(kind) => Ok(entry_slots(kind)),
        None => Err(2),
    }
}

fn piece_places(left: Option<&[u8]>) -> Result<&'static [Slot], u8>
    ensures { seen result ≡ places_of firsts.Piece (lent left.entry) }
{
    let Some(word) = second_word(left) else {
        return Err(3);
    };
    match piece_kind_of(word) {
        Some(kind) => Ok(piece_slots(kind)),
        None => Err(2),
    }
}

/// What must stand behind `at`.
fn entry_slots(kind: PlaceKind) -> &'static [Slot]
    ensures { result.now ≡ slots.Hex ∷ slots.Hex ∷ slots.Kind ∷ place_slots kind }
{
    match kind {
        PlaceKind::Reg => &[Slot::Hex, Slot::Hex, Slot::Kind, Slot::Register],
        PlaceKind::Mem => &[
            Slot::Hex,
            Slot::Hex,
            Slot::Kind,
            Slot::Register,
            Slot::Signed,
        ],
        PlaceKind::Fixed => &[Slot::Hex, Slot::Hex, Slot::Kind, Slot::Hex],
        PlaceKind::Value => &[Slot::Hex, Slot::Hex, Slot::Kind, Slot::Digits],
        PlaceKind::Expr => &[Slot::Hex, Slot::Hex, Slot::Kind, Slot::Operations],
        PlaceKind::Pieces => &[Slot::Hex, Slot::Hex, Slot::Kind, Slot::Number(32)],
        PlaceKind::Nowhere => &[Slot::Hex, Slot::Hex, Slot::Kind],
    }
}

/// What must stand behind `piece`.
fn piece_slots(kind: PlaceKind) -> &'static [Slot]
    ensures { result.now ≡ slots.Number 32 ∷ slots.Kind ∷ place_slots kind }
{
    match kind {
        PlaceKind::Reg => &[Slot::Number(32), Slot::Kind, Slot::Register],
        PlaceKind::Mem => &[Slot::Number(32), Slot::Kind, Slot::Register, Slot::Signed],
        PlaceKind::Fixed => &[Slot::Number(32), Slot::Kind, Slot::Hex],
        PlaceKind::Value => &[Slot::Number(32), Slot::Kind, Slot::Digits],
        PlaceKind::Expr => &[Slot::Number(32), Slot::Kind, Slot::Operations],
        PlaceKind::Pieces => &[Slot::Number(32), Slot::Kind, Slot::Number(32)],
        PlaceKind::Nowhere => &[Slot::Number(32), Slot::Kind],
    }
}
