//! The two members by which a structure is a fat pointer.
ghost use Rattle.std.specs.Prelude.{◌≡◌, codes};
ghost use Rattle.dwarf_entries.specs.FatPairs.{is_placed, pair_of, placed_of};

/// The name of a member, and where it lies, in bytes from the begin of the structure.
#[derive(Clone, Copy, Debug)]
pub struct Member<'a> {
    pub name: &'a [u8],
    pub offset: u64,
}

/// What stands in a fat pointer beside its address.
#[derive(Clone, Copy, Debug, PartialEq, Eq)]
pub enum FatPair {
    /// A length.
    Counted,
    /// A table of methods.
    WithTable,
}

/// Whether the member has this name, and lies there.
fn is_placed(name: &[u8], offset: u64, member: Member<'_>) -> bool
    ensures { result ≡ is_placed name.now offset (placed_of member.entry) }
{
    member.name == name && member.offset == offset
}

/// What stands in the fat pointer that has these two members, in this order; None where they are
/// those of no fat pointer. Takes no memory.
pub fn fat_pair(first: Member<'_>, second: Member<'_>) -> Option<FatPair>
    ensures { result ≡ pair_of (placed_of first.entry) (placed_of second.entry) }
{
    if is_placed(b"data_ptr", 0, first) && is_placed(b"length", 8, second) {
        Some(FatPair::Counted)
    } else if is_placed(b"pointer", 0, first) && is_placed(b"vtable", 8, second) {
        Some(FatPair::WithTable)
    } else {
        None
    }
}
