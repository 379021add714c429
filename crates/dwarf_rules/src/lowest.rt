//! The lowest of three rules.
ghost use Rattle.std.specs.Prelude.{◌≡◌, [], ◌∷◌};
ghost use Rattle.dwarf_entries.specs.Items.{lowest};

use dwarf_links::lowest;

/// The lowest of three rules that are broken.
pub(crate) fn lowest_of_three(
    first: Option<u8>,
    second: Option<u8>,
    third: Option<u8>,
) -> Option<u8>
    ensures { result ≡ lowest (first ∷ second ∷ third ∷ []) }
{
    lowest(first, lowest(second, third))
}
