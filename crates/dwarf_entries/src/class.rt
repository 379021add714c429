//! The classes of values that attributes are looked at with, and the rules that values break by them
//! (DWARF 5, 7.5.5).
ghost use Rattle.std.specs.Prelude.{◌≡◌};
ghost use Rattle.dwarf_abbrev.specs.Values.{val_of};
ghost use Rattle.dwarf_entries.specs.Lookups.{natural_in};
ghost use Rattle.dwarf_entries.specs.ClassRules.{class_rule, field_rule, is_below, is_wanted, kind_of};

use crate::constant::natural;
use crate::rule;
use dwarf_abbrev::Attr;

/// What an attribute must be, where it is looked at.
#[derive(Clone, Copy, Debug, PartialEq, Eq)]
pub enum Class {
    /// A string.
    Text,
    /// A reference to an entry.
    Link,
    /// A constant that fits 32 bits without a sign.
    Size,
    /// A constant that fits 64 bits without a sign.
    Count,
    /// A constant.
    Constant,
    /// A constant or a block.
    ConstantOrBlock,
    /// An address.
    Address,
    /// An address, or a constant that is added to one.
    AddressOrConstant,
    /// An offset in another section.
    Base,
    /// An expression or a location list.
    Location,
    /// A range list.
    Ranges,
    /// A flag.
    Flag,
}

/// The class of a value, where the forms of lists are told apart.
#[derive(Clone, Copy, Debug, PartialEq, Eq)]
pub(crate) enum Kind {
    Address,
    Constant,
    String,
    Reference,
    Block,
    Expression,
    SectionOffset,
    LocationIndex,
    RangeIndex,
    Flag,
}

/// The class of a value.
fn kind_of(value: Attr<'_>) -> Kind
    ensures { result ≡ kind_of (val_of value.entry) }
{
    match value {
        Attr::Addr(_) | Attr::AddrIndex(_) => Kind::Address,
        Attr::Unsigned(_) | Attr::Signed(_) | Attr::Wide(_) => Kind::Constant,
        Attr::Block(_) => Kind::Block,
        Attr::Expr(_) => Kind::Expression,
        Attr::Flag(_) => Kind::Flag,
        Attr::Inline(_) | Attr::StrAt(_) | Attr::LineStrAt(_) | Attr::StrIndex(_) => Kind::String,
        Attr::UnitRef(_) | Attr::InfoRef(_) => Kind::Reference,
        Attr::SecOffset(_) => Kind::SectionOffset,
        Attr::LocIndex(_) => Kind::LocationIndex,
        Attr::RangeIndex(_) => Kind::RangeIndex,
    }
}

/// Whether a value of this kind may be where the class is wanted.
fn is_wanted(class: Class, kind: Kind) -> bool
    ensures { result ≡ is_wanted class kind }
{
    match class {
        Class::Text => matches!(kind, Kind::String),
        Class::Link => matches!(kind, Kind::Reference),
        Class::Size | Class::Count | Class::Constant => matches!(kind, Kind::Constant),
        Class::ConstantOrBlock => matches!(kind, Kind::Constant | Kind::Block),
        Class::Address => matches!(kind, Kind::Address),
        Class::AddressOrConstant => matches!(kind, Kind::Address | Kind::Constant),
        Class::Base => matches!(kind, Kind::SectionOffset),
        Class::Location => matches!(
            kind,
            Kind::Expression | Kind::SectionOffset | Kind::LocationIndex
        ),
        Class::Ranges => matches!(kind, Kind::SectionOffset | Kind::RangeIndex),
        Class::Flag => matches!(kind, Kind::Flag),
    }
}

/// Whether a value is a constant of at least 0 and below this limit.
fn is_below(limit: u128, value: Attr<'_>) -> bool
    ensures { result ≡ is_below limit (natural_in (val_of value.entry)) }
{
    match natural(value) {
        Some(n) => n < limit,
        None => false,
    }
}

/// The rule that a value of the wanted class breaks as a number of its field.
fn field_rule(class: Class, value: Attr<'_>) -> Option<u8>
    ensures { result ≡ field_rule class (val_of value.entry) }
{
    let fits = match class {
        Class::Size => is_below(1 << 32, value),
        Class::Count => is_below(1 << 64, value),
        _ => true,
    };
    if fits { None } else { Some(rule::NO_FIT) }
}

/// The rule that a value breaks where this class is wanted: 33 where it is of another, 34 where it
/// is a number that doesn't fit its field. Takes no memory.
pub fn class_rule(class: Class, value: Attr<'_>) -> Option<u8>
    ensures { result ≡ class_rule class (val_of value.entry) }
{
    if is_wanted(class, kind_of(value)) {
        field_rule(class, value)
    } else {
        Some(rule::WRONG_CLASS)
    }
}
