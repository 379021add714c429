//! The symbols outside inline sites, S_INLINESITE to its S_INLINESITE_END.
ghost use Rattle.std.specs.Prelude.{◌≡◌, ◌++◌, ◌∷◌, [], IfOk, List, OnOk, length, map, true, false};
ghost use Rattle.cv_symbol_records.specs.declared.kinds.SymRec.{SymRec as Sym};
ghost use Rattle.cv_type_defs.specs.Symbols.{closes_site, opens_site, outside_sites};
ghost use Rattle.cv_constants.specs.Sites.{AreShown, symbols_of};

use cv_symbol_records::{SymKind, SymRec};
use rv_io::Memory;
use std::alloc::Global;

/// S_INLINESITE.
const INLINESITE: u16 = 0x114d;

/// S_INLINESITE_END.
const INLINESITE_END: u16 = 0x114e;

/// Whether it is an S_INLINESITE.
fn opens_site(symbol: &SymRec) -> bool
    ensures { result ≡ opens_site symbol.now }
{
    match symbol.kind {
        SymKind::Other(kind) => kind == INLINESITE,
        _ => false,
    }
}

/// Whether it is an S_INLINESITE_END.
fn closes_site(symbol: &SymRec) -> bool
    ensures { result ≡ closes_site symbol.now }
{
    match symbol.kind {
        SymKind::Other(kind) => kind == INLINESITE_END,
        _ => false,
    }
}

/// The symbols outside inline sites of the last symbols, found from the last to the first.
#[derive(Drop)]
pub struct Shown<'a> {
    /// The symbols, the last first.
    symbols: Vec<&'a SymRec>,
    /// How many of these are behind each end that has no site so far, the first end last.
    ends: Vec<usize>,
}

impl<'a> Shown<'a> {
    /// Shows a symbol.
    fn show(&mut self, symbol: &'a SymRec) -> Result<(), Memory>
        ensures symbols { OnOk result (symbols_of self.new ≡ symbols_of self.old ++ symbol.now ∷ []) }
        ensures ends { OnOk result (self.new.ends.items ≡ self.old.ends.items) }
    {
        self.symbols.push(symbol)?;
        Ok(())
    }

    /// Adds an S_INLINESITE_END, which is shown unless a site before it has it as its end.
    fn close(&mut self, symbol: &'a SymRec) -> Result<(), Memory>
        ensures symbols { OnOk result (symbols_of self.new ≡ symbols_of self.old ++ symbol.now ∷ []) }
        ensures ends { OnOk result (self.new.ends.items ≡ self.old.ends.items ++ length (symbols_of self.old) ∷ []) }
    {
        self.ends.push(self.symbols.len())?;
        self.show(symbol)
    }

    /// Adds an S_INLINESITE, which hides what is up to its end, and itself; and nothing where it has none.
    fn open(&mut self, symbol: &'a SymRec) -> Result<(), Memory>
        ensures { OnOk result ((rest : List Sym) → opens_site symbol.now ≡ true → closes_site symbol.now ≡ false → AreShown rest self.old → AreShown (symbol.now ∷ rest) self.new) }
    {
        match self.ends.pop() {
            Some(shown) => {
                self.symbols.truncate(shown);
                Ok(())
            }
            None => self.show(symbol),
        }
    }

    /// Adds the symbol before those.
    fn add(&mut self, symbol: &'a SymRec) -> Result<(), Memory>
        ensures { OnOk result ((rest : List Sym) → AreShown rest self.old → AreShown (symbol.now ∷ rest) self.new) }
    {
        if closes_site(symbol) {
            self.close(symbol)
        } else if opens_site(symbol) {
            self.open(symbol)
        } else {
            self.show(symbol)
        }
    }
}

/// The symbols outside inline sites. Takes memory for the count of symbols, and a time that grows with it.
pub fn outside_sites<'a>(alloc: Global, symbols: &'a [SymRec]) -> Result<Vec<&'a SymRec>, Memory>
    ensures { IfOk result (λ shown. map (λ s. s.now) shown.items ≡ outside_sites symbols.now) }
{
    let mut shown = Shown {
        symbols: Vec::new(alloc),
        ends: Vec::new(alloc),
    };
    for at in (0..symbols.len()).rev() {
        shown.add(&symbols[at])?;
    }
    let mut outside = shown.symbols;
    outside.reverse();
    Ok(outside)
}
