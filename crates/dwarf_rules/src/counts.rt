//! How many types, parts and variables entries add to the set, and their limits.
ghost use Rattle.std.specs.Prelude.{◌≡◌, IfOk, false};
ghost use Rattle.dwarf_rules.specs.Counts.{AreOfOne, are_past, both_counts, counts_of, limit_rule};
ghost use Rattle.dwarf_rules.specs.Shapes.{shapes_of};

use crate::parts::parts_of;
use crate::shapes::Shapes;
use dwarf_dies::Die;
use dwarf_entries::rule;
use dwarf_links::is_type_of_set;
use dwarf_scopes::is_static;
use rv_io::Memory;
use std::alloc::Global;

/// The most types that a set has.
const MOST_TYPES: u64 = 1_000_000;

/// The most parts that its types have.
const MOST_PARTS: u64 = 4_000_000;

/// The most variables that it has.
const MOST_VARIABLES: u64 = 1_000_000;

/// How many types, parts and variables entries add to the set.
#[derive(Clone, Copy, Debug, PartialEq, Eq)]
pub(crate) struct Counts {
    pub types: u64,
    pub parts: u64,
    pub variables: u64,
}

/// What an entry adds to the set.
pub(crate) fn counts_of(alloc: Global, shapes: &Shapes, die: &Die<'_>) -> Result<Counts, Memory>
    requires { shapes.now.shapes ≡ shapes_of die.now.info }
    ensures counts { IfOk result (λ c. c ≡ counts_of die.now.info die.now.die) }
    ensures few { IfOk result AreOfOne }
{
    let parts = parts_of(alloc, shapes, die)?;
    Ok(Counts {
        types: u64::from(is_type_of_set(die)),
        parts,
        variables: u64::from(is_static(die)),
    })
}

impl Counts {
    /// The counts of no entry.
    pub(crate) const NONE: Counts = Counts {
        types: 0,
        parts: 0,
        variables: 0,
    };

    /// The counts with those of an entry more.
    pub(crate) fn with(self, own: Counts) -> Counts
        requires within { are_past self ≡ false }
        requires few { AreOfOne own }
        ensures { result ≡ both_counts self own }
    {
        Counts {
            types: self.types + own.types,
            parts: self.parts + own.parts,
            variables: self.variables + own.variables,
        }
    }

    /// Whether one of them is past its limit.
    fn are_past(self) -> bool
        ensures { result ≡ are_past self }
    {
        self.types > MOST_TYPES || self.parts > MOST_PARTS || self.variables > MOST_VARIABLES
    }

    /// Rule 30, where one of them is past its limit.
    pub(crate) fn limit_rule(self) -> Option<u8>
        ensures { result ≡ limit_rule self }
    {
        if self.are_past() {
            Some(rule::TOO_MANY)
        } else {
            None
        }
    }
}
