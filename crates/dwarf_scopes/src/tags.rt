//! What tags stand for (DWARF 5, 7.5.3, table 7.3). Each test is false where there is no tag. None takes memory.
ghost use Rattle.std.specs.Prelude.{◌≡◌};
ghost use Rattle.dwarf_entries.specs.Counts.{is_enumeration};
ghost use Rattle.dwarf_entries.specs.Enums.{is_variant};
ghost use Rattle.dwarf_entries.specs.PassedOver.{is_function, is_structure, is_union, is_variable};
ghost use Rattle.dwarf_entries.specs.Structures.{is_member, is_param_tag, is_part};
ghost use Rattle.dwarf_entries.specs.Tags.{is_named_scope, is_numbered, is_type, passes};
ghost use Rattle.dwarf_entries.specs.Types.{is_enumerator, is_subrange};
ghost use Rattle.dwarf_scopes.specs.Tags.{is_base_type, is_pointer, is_subroutine, is_typedef, is_variable_tag};

use dwarf_entries::Tag;

/// Whether entries of the tag are functions.
pub fn is_function(what: Option<Tag>) -> bool
    ensures { result ≡ passes is_function what }
{
    matches!(what, Some(Tag::Subprogram))
}

/// Whether entries of the tag are unions.
pub fn is_union(what: Option<Tag>) -> bool
    ensures { result ≡ passes is_union what }
{
    matches!(what, Some(Tag::UnionType))
}

/// Whether entries of the tag are structures.
pub fn is_structure(what: Option<Tag>) -> bool
    ensures { result ≡ passes is_structure what }
{
    matches!(what, Some(Tag::StructureType))
}

/// Whether entries of the tag are enumerations.
pub fn is_enumeration(what: Option<Tag>) -> bool
    ensures { result ≡ passes is_enumeration what }
{
    matches!(what, Some(Tag::EnumerationType))
}

/// Whether entries of the tag are enumerators, the values of an enumeration.
pub fn is_enumerator(what: Option<Tag>) -> bool
    ensures { result ≡ passes is_enumerator what }
{
    matches!(what, Some(Tag::Enumerator))
}

/// Whether entries of the tag are members.
pub fn is_member(what: Option<Tag>) -> bool
    ensures { result ≡ passes is_member what }
{
    matches!(what, Some(Tag::Member))
}

/// Whether entries of the tag are variant parts.
pub fn is_part(what: Option<Tag>) -> bool
    ensures { result ≡ passes is_part what }
{
    matches!(what, Some(Tag::VariantPart))
}

/// Whether entries of the tag are variants, below a variant part.
pub fn is_variant(what: Option<Tag>) -> bool
    ensures { result ≡ passes is_variant what }
{
    matches!(what, Some(Tag::Variant))
}

/// Whether entries of the tag are template type parameters.
pub fn is_param_tag(what: Option<Tag>) -> bool
    ensures { result ≡ passes is_param_tag what }
{
    matches!(what, Some(Tag::TemplateTypeParameter))
}

/// Whether entries of the tag are variables that aren't formal parameters.
pub fn is_variable_tag(what: Option<Tag>) -> bool
    ensures { result ≡ passes is_variable_tag what }
{
    matches!(what, Some(Tag::Variable))
}

/// Whether entries of the tag are typedefs.
pub fn is_typedef(what: Option<Tag>) -> bool
    ensures { result ≡ passes is_typedef what }
{
    matches!(what, Some(Tag::Typedef))
}

/// Whether entries of the tag are subranges, the counts of an array.
pub fn is_subrange(what: Option<Tag>) -> bool
    ensures { result ≡ passes is_subrange what }
{
    matches!(what, Some(Tag::SubrangeType))
}

/// Whether entries of the tag are base types.
pub fn is_base_type(what: Option<Tag>) -> bool
    ensures { result ≡ passes is_base_type what }
{
    matches!(what, Some(Tag::BaseType))
}

/// Whether entries of the tag are pointer types.
pub fn is_pointer(what: Option<Tag>) -> bool
    ensures { result ≡ passes is_pointer what }
{
    matches!(what, Some(Tag::PointerType))
}

/// Whether entries of the tag are subroutine types, those of functions.
pub fn is_subroutine(what: Option<Tag>) -> bool
    ensures { result ≡ passes is_subroutine what }
{
    matches!(what, Some(Tag::SubroutineType))
}

/// Whether entries of the tag are variables or formal parameters.
pub fn is_variable(what: Option<Tag>) -> bool
    ensures { result ≡ passes is_variable what }
{
    matches!(what, Some(Tag::Variable | Tag::FormalParameter))
}

/// Whether entries of the tag describe types.
pub fn is_type(what: Option<Tag>) -> bool
    ensures { result ≡ passes is_type what }
{
    matches!(
        what,
        Some(
            Tag::ArrayType
                | Tag::EnumerationType
                | Tag::PointerType
                | Tag::StructureType
                | Tag::SubroutineType
                | Tag::Typedef
                | Tag::UnionType
                | Tag::BaseType
        )
    )
}

/// Whether entries of the tag are types of the set, but for the structures of variants.
pub fn is_numbered(what: Option<Tag>) -> bool
    ensures { result ≡ passes is_numbered what }
{
    matches!(
        what,
        Some(
            Tag::ArrayType
                | Tag::EnumerationType
                | Tag::PointerType
                | Tag::StructureType
                | Tag::UnionType
        )
    )
}

/// Whether the names of entries of the tag are part of those of the entries below.
pub fn is_named_scope(what: Option<Tag>) -> bool
    ensures { result ≡ passes is_named_scope what }
{
    matches!(
        what,
        Some(Tag::Namespace | Tag::StructureType | Tag::EnumerationType | Tag::UnionType)
    )
}
