//! Functions, their scopes, and where their variables are.
use crate::set::TypeRef;
use expr_eval::Ops;
use names::{Name, Word};
use rv_io::{List, Text};
use snapshot_file::Reg;

/// Where a value, or a piece of one, is.
#[derive(Drop)]
pub enum Place {
    /// In the low bytes of a register.
    Reg(Reg),
    /// In memory, so many bytes past the number in a register, modulo 2^64.
    Mem(Reg, i32),
    /// In memory at this address.
    Fixed(u64),
    /// Nowhere: these are its bytes.
    Value(Text),
    /// Where the operations say (DWARF 5, 2.5).
    Expr(Ops),
}

/// `size` bytes of a value, and where they are, if anywhere.
#[derive(Drop)]
pub struct Piece {
    pub size: u32,
    pub place: Option<Place>,
}

/// Where a variable is: as a whole, or in pieces that follow one another.
#[derive(Drop)]
pub enum Loc {
    Whole(Place),
    Pieces(List<Piece>),
}

/// Where a variable is while the program counter is at `lo` or above, and below `hi`.
#[derive(Drop)]
pub struct Entry {
    pub lo: u64,
    pub hi: u64,
    pub loc: Loc,
}

/// A variable, or a parameter where `param` says so.
#[derive(Drop)]
pub struct Var {
    pub name: Word,
    pub ty: TypeRef,
    pub param: bool,
    pub entries: List<Entry>,
}

/// Addresses of code, from `lo` on and below `hi`.
#[derive(Clone, Copy, Debug, PartialEq, Eq)]
pub struct Zone {
    pub lo: u64,
    pub hi: u64,
}

/// A scope, which has so many scopes around it.
#[derive(Drop)]
pub struct Scope {
    pub depth: u32,
    pub zones: List<Zone>,
    pub vars: List<Var>,
}

/// A function, the register of its frame, if it is known, and its scopes in preorder, its body first.
#[derive(Drop)]
pub struct Func {
    pub name: Name,
    pub frame: Option<Reg>,
    pub scopes: List<Scope>,
}
