//! Statics (DWARF 5, 4.1).
ghost use Rattle.std.specs.Prelude.{◌≡◌};
ghost use Rattle.dwarf_entries.specs.Statics.{is_static};

use crate::passed_over::{is_in_function, is_passed};
use crate::tags::is_variable_tag;
use dwarf_dies::Die;

/// Whether an entry is a static: a variable outside functions that isn't passed over. Takes no memory.
pub fn is_static(die: &Die<'_>) -> bool
    ensures { result ≡ is_static die.now.info die.now.die }
{
    is_variable_tag(die.what()) && !is_in_function(die) && !is_passed(die)
}
