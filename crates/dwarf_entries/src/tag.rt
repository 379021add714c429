//! What entries describe: the tags that are looked at (DWARF 5, 7.5.3, table 7.3).
ghost use Rattle.std.specs.Prelude.{◌≡◌};
ghost use Rattle.dwarf_entries.specs.Tags.{tag_of};

/// What an entry describes, where it is one of those that are looked at.
#[derive(Clone, Copy, Debug, PartialEq, Eq)]
pub enum Tag {
    ArrayType,
    EnumerationType,
    FormalParameter,
    LexicalBlock,
    Member,
    PointerType,
    CompileUnit,
    StructureType,
    SubroutineType,
    Typedef,
    UnionType,
    Variant,
    SubrangeType,
    BaseType,
    Enumerator,
    Subprogram,
    TemplateTypeParameter,
    VariantPart,
    Variable,
    Namespace,
}

/// What an entry of this code describes; None where entries of the code are passed over with all
/// below them. Takes no memory.
#[tactic(auto, unfolding(crate::specs::Tags::tag_of))]
pub fn tag_of(code: u64) -> Option<Tag>
    ensures { result ≡ tag_of code }
{
    let tag = match code {
        0x01 => Tag::ArrayType,
        0x04 => Tag::EnumerationType,
        0x05 => Tag::FormalParameter,
        0x0b => Tag::LexicalBlock,
        0x0d => Tag::Member,
        0x0f => Tag::PointerType,
        0x11 => Tag::CompileUnit,
        0x13 => Tag::StructureType,
        0x15 => Tag::SubroutineType,
        0x16 => Tag::Typedef,
        0x17 => Tag::UnionType,
        0x19 => Tag::Variant,
        0x21 => Tag::SubrangeType,
        0x24 => Tag::BaseType,
        0x28 => Tag::Enumerator,
        0x2e => Tag::Subprogram,
        0x2f => Tag::TemplateTypeParameter,
        0x33 => Tag::VariantPart,
        0x34 => Tag::Variable,
        0x39 => Tag::Namespace,
        _ => return None,
    };
    Some(tag)
}
