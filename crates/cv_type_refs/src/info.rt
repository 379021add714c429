//! The records and the symbols in which types are looked up.
ghost use Rattle.std.specs.Prelude.{◌≡◌, ◌+◌, ◌<◌, ◌^◌, length};
ghost use Rattle.cv_type_defs.specs.Numbering.{numbered_before};
ghost use Rattle.cv_type_defs.specs.TypeRefs.{pointer_number};
ghost use Rattle.cv_type_refs.specs.Seen.{info_with};

use crate::below::count_below;
use cv_constants::Symbols;
use cv_links::Links;
use std::marker::Model;

/// All type records, the symbols outside inline sites, and the simple types to which simple pointers
/// lead that are used. Contracts see these.
#[derive(Drop)]
pub struct TypeInfo<'a> {
    links: &'a Links<'a>,
    symbols: &'a Symbols<'a>,
    used: &'a [u32],
}

impl<'a> Model for TypeInfo<'a> {
    ghost use Rattle.std.specs.Prelude.{◌+◌, ◌<◌, ◌^◌, length};
    ghost use Rattle.cv_type_defs.specs.TypeRefs.{Info};
    ghost use Rattle.cv_type_refs.specs.Seen.{info_with};

    ghost Value = { Info };

    ghost view = { λ i. info_with i.links.now i.symbols.now i.used.now };

    ghost invariant = { λ i. length i.links.now + length i.used.now < 2 ^ 32 };
}

impl<'a> TypeInfo<'a> {
    /// Looks types up in these records and symbols. Takes no memory.
    pub fn new(links: &'a Links<'a>, symbols: &'a Symbols<'a>, used: &'a [u32]) -> TypeInfo<'a>
        // The numbers of types fit 32 bits.
        requires { length links.now + length used.now < 2 ^ 32 }
        ensures { result ≡ info_with links.now symbols.now used.now }
    {
        TypeInfo {
            links,
            symbols,
            used,
        }
    }

    /// The records. Takes no memory.
    pub fn links(&self) -> &'a Links<'a>
        ensures { result.now ≡ self.now.records }
    {
        self.links
    }

    /// The symbols outside inline sites. Takes no memory.
    pub fn symbols(&self) -> &'a Symbols<'a>
        ensures { result.now ≡ self.now.symbols }
    {
        self.symbols
    }

    /// The simple types to which simple pointers lead that are used. Takes no memory.
    pub fn used(&self) -> &'a [u32]
        ensures { result.now ≡ self.now.used }
    {
        self.used
    }

    /// The number of the type whose record is at a place: how many have their records before it. Takes no
    /// memory.
    pub fn number_at(&self, place: usize) -> u32
        ensures { result ≡ numbered_before self.now.records place }
    {
        self.links.numbered_before(place) as u32
    }

    /// The number of the pointer to a simple type: it comes after the records. Takes no memory.
    pub fn pointer_number(&self, ty: u32) -> u32
        ensures { result ≡ pointer_number self.now ty }
    {
        (self.links.numbered() + count_below(self.used, ty)) as u32
    }
}
