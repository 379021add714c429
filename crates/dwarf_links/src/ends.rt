//! Where links to types lead, through typedefs (DWARF 5, 5.3 and 7.5.5, the class reference).
ghost use Rattle.std.specs.Prelude.{◌≡◌};
ghost use Rattle.dwarf_entries.specs.TypeLinks.{type_end};
ghost use Rattle.dwarf_links.specs.Ends.{end_in};

use dwarf_dies::Die;
use dwarf_entries::at;
use dwarf_scopes::is_passed;
use dwarf_scopes::tags::is_typedef;

/// How many typedefs may follow one another.
const MOST_TYPEDEFS: u32 = 64;

/// Where a link leads, through at most 64 typedefs.
#[derive(Drop)]
pub enum End<'a> {
    /// To this entry, which is no typedef.
    Reached(Die<'a>),
    /// To no entry, or to one that is passed over.
    Nowhere,
    /// Through more typedefs.
    Endless,
}

/// Where the type of an entry leads. Takes no memory.
pub fn type_end<'a>(die: &Die<'a>) -> End<'a>
    ensures { result ≡ end_in die.now.info (type_end die.now.info die.now.die) }
{
    let mut at = die.linked(at::TYPE);
    let mut left = MOST_TYPEDEFS;
    while let Some(entry) = at {
        if is_passed(&entry) {
            return End::Nowhere;
        }
        if !is_typedef(entry.what()) {
            return End::Reached(entry);
        }
        if left == 0 {
            return End::Endless;
        }
        left -= 1;
        at = entry.linked(at::TYPE);
    }
    End::Nowhere
}
