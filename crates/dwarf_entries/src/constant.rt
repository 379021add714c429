//! Constants as whole numbers (DWARF 5, 7.5.5, the class constant).
ghost use Rattle.std.specs.Prelude.{◌≡◌};
ghost use Rattle.dwarf_abbrev.specs.Values.{val_of};
ghost use Rattle.dwarf_entries.specs.Lookups.{natural_in};

use dwarf_abbrev::Attr;

/// The number that a constant is; None for a negative one, and for a value of another class. Takes
/// no memory.
pub fn natural(value: Attr<'_>) -> Option<u128>
    ensures { result ≡ natural_in (val_of value.entry) }
{
    match value {
        Attr::Unsigned(n) => Some(u128::from(n)),
        Attr::Signed(z) if z >= 0 => Some(z as u128),
        Attr::Wide(n) => Some(n),
        _ => None,
    }
}
