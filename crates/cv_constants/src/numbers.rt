//! The numbers of constants, by their names.
ghost use Rattle.std.specs.Prelude.{◌≡◌, ◌∷◌, IfOk, List, OnOk, map, option_map};
ghost use Rattle.cv_symbol_records.specs.declared.kinds.SymRec.{SymRec as Sym};
ghost use Rattle.cv_constants.specs.Named.{AreNumbers, constant_in, constant_seen, number_of};

use cv_symbol_records::{SymKind, SymRec};
use rv_io::Memory;
use std::alloc::Global;
use std::collections::BTreeMap;

/// The name and the number of an S_CONSTANT.
fn constant_in(symbol: &SymRec) -> Option<(&[u8], i128)>
    ensures { option_map constant_seen result ≡ constant_in symbol.now.kind }
{
    match &symbol.kind {
        SymKind::Constant { number, name, .. } => Some((name.as_bytes(), *number)),
        _ => None,
    }
}

/// Puts the number of a symbol in front of those behind it, if it is an S_CONSTANT.
fn put<'a>(numbers: &mut BTreeMap<&'a [u8], i128>, symbol: &'a SymRec) -> Result<(), Memory>
    ensures { OnOk result ((rest : List Sym) → AreNumbers rest numbers.old → AreNumbers (symbol.now ∷ rest) numbers.new) }
{
    if let Some((name, number)) = constant_in(symbol) {
        numbers.insert(name, number)?;
    }
    Ok(())
}

/// The number of the first S_CONSTANT of each name. Takes memory for the count of constants.
pub fn read_numbers<'a>(
    alloc: Global,
    symbols: &[&'a SymRec],
) -> Result<BTreeMap<&'a [u8], i128>, Memory>
    ensures { IfOk result (AreNumbers (map (λ s. s.now) symbols.now)) }
{
    let mut numbers = BTreeMap::new(alloc);
    for at in (0..symbols.len()).rev() {
        put(&mut numbers, symbols[at])?;
    }
    Ok(numbers)
}
