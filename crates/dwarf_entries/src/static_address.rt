//! Expressions that are one address (DWARF 5, 2.5.1.1 and 2.6.1.1.2).
ghost use Rattle.std.specs.Prelude.{◌≡◌, ◌<◌, length, IfSome};
ghost use Rattle.rv_bytes.specs.NumberReaders.{read_number, read_uleb};
ghost use Rattle.dwarf_entries.specs.AddressOps.{address_op_of, alone, are_nops, first_op};
ghost use Rattle.dwarf_entries.specs.declared.static_address.Address.{Address};

use rv_bytes::Cut;

/// DW_OP_addr
const ADDR: u8 = 0x03;

/// DW_OP_nop
const NOP: u8 = 0x96;

/// DW_OP_addrx
const ADDRX: u8 = 0xa1;

/// An address, or the index of one in the unit's part of `.debug_addr`.
#[derive(Clone, Copy, Debug, PartialEq, Eq)]
pub enum Address {
    Fixed(u64),
    Index(u64),
}

/// The one operation of an expression, `nop` aside, where it is one of an address; `place` counts
/// bytes from the start of the expression.
#[derive(Clone, Copy, Debug, PartialEq, Eq)]
pub struct AddressOp {
    pub place: usize,
    pub address: Address,
}

/// Whether all operations are `nop`.
fn are_nops(bytes: &[u8]) -> bool
    ensures { result ≡ are_nops bytes.now }
{
    bytes.iter().all(|op| *op == NOP)
}

/// Whether all bytes that are left are `nop`; reads them.
fn only_nops(cut: &mut Cut<'_>) -> bool
    ensures { result ≡ are_nops cut.old.rest }
{
    match cut.take(cut.left()) {
        Ok(rest) => are_nops(rest),
        Err(_) => false,
    }
}

/// The operation at this place, of the address that follows, where only `nop` is after it.
fn fixed(place: usize, cut: Cut<'_>) -> Option<AddressOp>
    ensures { result ≡ alone place Address.Fixed (read_number 8 cut.entry.at cut.entry.rest) }
{
    let mut cut = cut;
    let Ok(address) = cut.u64() else {
        return None;
    };
    if !only_nops(&mut cut) {
        return None;
    }
    Some(AddressOp {
        place,
        address: Address::Fixed(address),
    })
}

/// The operation at this place, of the index that follows, where only `nop` is after it.
fn indexed(place: usize, cut: Cut<'_>) -> Option<AddressOp>
    ensures { result ≡ alone place Address.Index (read_uleb cut.entry.at cut.entry.rest) }
{
    let mut cut = cut;
    let Ok(index) = cut.uleb() else {
        return None;
    };
    if !only_nops(&mut cut) {
        return None;
    }
    Some(AddressOp {
        place,
        address: Address::Index(index),
    })
}

/// Where the first operation is that isn't `nop`.
fn first_op(expr: &[u8]) -> Option<usize>
    ensures place { result ≡ first_op expr.now }
    ensures within { IfSome result (λ i. i < length expr.now) }
{
    expr.iter().position(|op| *op != NOP)
}

/// The one operation of an expression, `nop` aside, where it is one of an address; None for every
/// other expression, whole or cut short. Takes no memory.
pub fn address_op(expr: &[u8]) -> Option<AddressOp>
    ensures { result ≡ address_op_of expr.now }
{
    let Some(place) = first_op(expr) else {
        return None;
    };
    let cut = Cut::from_place(expr, place + 1);
    match expr[place] {
        ADDR => fixed(place, cut),
        ADDRX => indexed(place, cut),
        _ => None,
    }
}
