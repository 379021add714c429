//! Addresses by their indexes (DWARF 5, 7.27).
ghost use Rattle.std.specs.Prelude.{◌≡◌};
ghost use Rattle.expr_eval.specs.Addresses.{address_from, address_at};

use crate::lookups::little_endian;
use std::marker::Model;

/// How many bytes an address has.
const ADDRESS_SIZE: u64 = 8;

/// The addresses that expressions and lists name by an index: the whole of `.debug_addr`, and the place in it, in bytes,
/// where a unit's addresses start (its DW_AT_addr_base).
/// Contracts see the bytes and the place.
#[derive(Clone, Debug, Drop)]
pub struct Addrs<'a> {
    pub section: &'a [u8],
    pub base: Option<u64>,
}

impl<'a> Model for Addrs<'a> {
    ghost use Rattle.expr_eval.specs.Addresses.{Addresses};

    ghost Value = { Addresses };

    ghost view = { λ a. record { section = a.section.now; base = a.base } };
}

/// The address at a place of the section; None where it isn't there whole.
fn address_from(section: &[u8], at: u64) -> Option<u64>
    ensures { result ≡ address_from 8 section.now at }
{
    let end = at.checked_add(ADDRESS_SIZE)?;
    let bytes = section.get(at as usize..end as usize)?;
    Some(little_endian(bytes))
}

impl Addrs<'_> {
    /// The address at the index, of 8 bytes, low byte first. None exactly where there is no base, or the section hasn't the
    /// whole of it. Takes no memory.
    pub fn address(&self, index: u64) -> Option<u64>
        ensures { result ≡ address_at 8 self.now.section self.now.base index }
    {
        let start = self.base?;
        let place = index.checked_mul(ADDRESS_SIZE)?.checked_add(start)?;
        address_from(self.section, place)
    }
}
