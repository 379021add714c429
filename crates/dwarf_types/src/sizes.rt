//! The sizes and the alignments of types (DWARF 5, 2.21 and 2.24).
ghost use Rattle.std.specs.Prelude.{◌≡◌, ◌<◌, ◌^◌};
ghost use Rattle.dwarf_entries.specs.Types.{alignment_of, size_of};

use dwarf_dies::Die;
use dwarf_entries::at;

/// The size of a type, in bytes; 0 where none is given. Takes no memory.
pub(crate) fn size_of(die: &Die<'_>) -> u32
    requires { size_of die.now.die < 2 ^ 32 }
    ensures { result ≡ size_of die.now.die }
{
    die.number_of(at::BYTE_SIZE).unwrap_or(0) as u32
}

/// The alignment of a type, in bytes; 0 where none is given. Takes no memory.
pub(crate) fn alignment_of(die: &Die<'_>) -> u32
    requires { alignment_of die.now.die < 2 ^ 32 }
    ensures { result ≡ alignment_of die.now.die }
{
    die.number_of(at::ALIGNMENT).unwrap_or(0) as u32
}
