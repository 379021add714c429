//! The symbols in which types are looked up.
ghost use Rattle.std.specs.Prelude.{◌≡◌, IfOk, map};
ghost use Rattle.cv_type_defs.specs.Symbols.{constant_of, outside_sites};

use crate::numbers::read_numbers;
use crate::sites::outside_sites;
use cv_symbol_records::SymRec;
use rv_io::Memory;
use std::alloc::Global;
use std::collections::BTreeMap;
use std::marker::Model;

/// The symbols outside inline sites, with the numbers of the constants among them. Contracts see their list.
#[derive(Drop)]
pub struct Symbols<'a> {
    symbols: Vec<&'a SymRec>,
    /// The number of the first S_CONSTANT of each name.
    numbers: BTreeMap<&'a [u8], i128>,
}

impl<'a> Model for Symbols<'a> {
    ghost use Rattle.std.specs.Prelude.{List, map};
    ghost use Rattle.cv_symbol_records.specs.declared.kinds.SymRec.{SymRec};
    ghost use Rattle.cv_constants.specs.Named.{AreNumbers};

    ghost Value = { List SymRec };

    ghost view = { λ s. map (λ x. x.now) s.symbols.items };

    ghost invariant = { λ s. AreNumbers (map (λ x. x.now) s.symbols.items) s.numbers };
}

/// Finds the symbols outside inline sites, S_INLINESITE to its S_INLINESITE_END, and the numbers of the
/// constants among them. Takes memory for the count of symbols, and a time that grows with it times its
/// logarithm.
pub fn read_symbols<'a>(alloc: Global, symbols: &'a [SymRec]) -> Result<Symbols<'a>, Memory>
    ensures { IfOk result (λ s. s ≡ outside_sites symbols.now) }
{
    let symbols = outside_sites(alloc, symbols)?;
    let numbers = read_numbers(alloc, symbols.as_slice())?;
    Ok(Symbols { symbols, numbers })
}

impl<'a> Symbols<'a> {
    /// The symbols, in order. Takes no memory.
    pub fn symbols(&self) -> &[&'a SymRec]
        ensures { map (λ s. s.now) result.now ≡ self.now }
    {
        self.symbols.as_slice()
    }

    /// The number of the first S_CONSTANT of this name. Takes a time that grows with the logarithm of the
    /// count of constants, and no memory.
    pub fn constant(&self, name: &'a [u8]) -> Option<i128>
        ensures { result ≡ constant_of self.now name.now }
    {
        self.numbers.get(&name).copied()
    }
}
