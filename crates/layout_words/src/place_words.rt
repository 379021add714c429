//! The words of places and of operations.
ghost use Rattle.std.specs.Prelude.{◌≡◌};
ghost use Rattle.layout_words.specs.Kinds.{named_in, place_word, entry_kind_of, piece_kind_of, numbered_word, numbered_of, plain_word, plain_of};

use crate::kinds::{NumberedOp, PlaceKind};
use expr_eval::Op;

/// What an entry may be.
const ENTRY_KINDS: [PlaceKind; 6] = [
    PlaceKind::Reg,
    PlaceKind::Mem,
    PlaceKind::Fixed,
    PlaceKind::Value,
    PlaceKind::Expr,
    PlaceKind::Pieces,
];

/// What a piece may be.
const PIECE_KINDS: [PlaceKind; 6] = [
    PlaceKind::Reg,
    PlaceKind::Mem,
    PlaceKind::Fixed,
    PlaceKind::Value,
    PlaceKind::Expr,
    PlaceKind::Nowhere,
];

const NUMBERED_OPS: [NumberedOp; 5] = [
    NumberedOp::Const,
    NumberedOp::Deref,
    NumberedOp::Pick,
    NumberedOp::Plus,
    NumberedOp::Reg,
];

/// The operations that have no number in their words.
const PLAIN_OPS: [Op; 19] = [
    Op::Dup,
    Op::Drop,
    Op::Over,
    Op::Swap,
    Op::Rot,
    Op::And,
    Op::Minus,
    Op::Mul,
    Op::Neg,
    Op::Not,
    Op::Or,
    Op::Plus,
    Op::Shl,
    Op::Shr,
    Op::Shra,
    Op::Xor,
    Op::Cfa,
    Op::Entry,
    Op::StackValue,
];

/// The kind of an entry with this word.
pub fn entry_kind_of(word: &[u8]) -> Option<PlaceKind>
    ensures { result ≡ entry_kind_of word.now }
{
    place_kind_in(&ENTRY_KINDS, word)
}

/// The kind of a piece with this word.
pub fn piece_kind_of(word: &[u8]) -> Option<PlaceKind>
    ensures { result ≡ piece_kind_of word.now }
{
    place_kind_in(&PIECE_KINDS, word)
}

#[tactic(auto, using(rv_io::proofs::Steps::drop_step))]
fn place_kind_in(kinds: &[PlaceKind], word: &[u8]) -> Option<PlaceKind>
    ensures { result ≡ named_in place_word kinds.now word.now }
{
    for kind in kinds {
        if word == place_word(*kind) {
            return Some(*kind);
        }
    }
    None
}

/// The operation with a number whose word has this before the colon.
pub fn numbered_of(word: &[u8]) -> Option<NumberedOp>
    ensures { result ≡ numbered_of word.now }
{
    numbered_in(&NUMBERED_OPS, word)
}

#[tactic(auto, using(rv_io::proofs::Steps::drop_step))]
fn numbered_in(kinds: &[NumberedOp], word: &[u8]) -> Option<NumberedOp>
    ensures { result ≡ named_in numbered_word kinds.now word.now }
{
    for kind in kinds {
        if word == numbered_word(*kind) {
            return Some(*kind);
        }
    }
    None
}

/// The operation without a number with this word.
pub fn plain_of(word: &[u8]) -> Option<Op>
    ensures { result ≡ plain_of word.now }
{
    plain_in(&PLAIN_OPS, word)
}

#[tactic(auto, using(rv_io::proofs::Steps::drop_step))]
fn plain_in(ops: &[Op], word: &[u8]) -> Option<Op>
    ensures { result ≡ named_in plain_word ops.now word.now }
{
    for op in ops {
        if word == plain_word(*op) {
            return Some(*op);
        }
    }
    None
}

/// The word that says what a place is.
pub fn place_word(kind: PlaceKind) -> &'static [u8]
    ensures { result.now ≡ place_word kind }
{
    match kind {
        PlaceKind::Reg => b"reg",
        PlaceKind::Mem => b"mem",
        PlaceKind::Fixed => b"fixed",
        PlaceKind::Value => b"value",
        PlaceKind::Expr => b"expr",
        PlaceKind::Pieces => b"pieces",
        PlaceKind::Nowhere => b"none",
    }
}

/// What stands before the colon of an operation with a number.
fn numbered_word(kind: NumberedOp) -> &'static [u8]
    ensures { result.now ≡ numbered_word kind }
{
    match kind {
        NumberedOp::Const => b"const",
        NumberedOp::Deref => b"deref",
        NumberedOp::Pick => b"pick",
        NumberedOp::Plus => b"plus",
        NumberedOp::Reg => b"reg",
    }
}

/// The word of an operation without a number; nothing for one with a number.
pub fn plain_word(op: Op) -> &'static [u8]
    ensures { result.now ≡ plain_word op }
{
    match op {
        Op::Dup => b"dup",
        Op::Drop => b"drop",
        Op::Over => b"over",
        Op::Swap => b"swap",
        Op::Rot => b"rot",
        Op::And => b"and",
        Op::Minus => b"minus",
        Op::Mul => b"mul",
        Op::Neg => b"neg",
        Op::Not => b"not",
        Op::Or => b"or",
        Op::Plus => b"plus",
        Op::Shl => b"shl",
        Op::Shr => b"shr",
        Op::Shra => b"shra",
        Op::Xor => b"xor",
        Op::Cfa => b"cfa",
        Op::Entry => b"entry",
        Op::StackValue => b"value",
        _ => b"",
    }
}
