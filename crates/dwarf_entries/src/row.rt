//! The attributes that are looked at for each tag, and the class that each must have (DWARF 5,
//! 7.5.4 and 7.5.5).
ghost use Rattle.std.specs.Prelude.{◌≡◌};
ghost use Rattle.dwarf_entries.specs.Rows.{class_in, row_of, variable_row};

use crate::at;
use crate::class::Class;
use crate::tag::Tag;

/// The class of an attribute of a variable or a parameter.
fn variable_class(code: u64) -> Option<Class>
    ensures { result ≡ class_in code variable_row }
{
    match code {
        at::NAME => Some(Class::Text),
        at::TYPE | at::ABSTRACT_ORIGIN => Some(Class::Link),
        at::LOCATION => Some(Class::Location),
        at::CONST_VALUE => Some(Class::ConstantOrBlock),
        _ => None,
    }
}

/// The class of an attribute of the first entry of a unit.
fn unit_class(code: u64) -> Option<Class>
    ensures { result ≡ class_in code (row_of Tag.CompileUnit) }
{
    match code {
        at::LOW_PC => Some(Class::Address),
        at::STR_OFFSETS_BASE | at::ADDR_BASE | at::RNGLISTS_BASE | at::LOCLISTS_BASE => {
            Some(Class::Base)
        }
        _ => None,
    }
}

/// The class of an attribute of a function.
fn function_class(code: u64) -> Option<Class>
    ensures { result ≡ class_in code (row_of Tag.Subprogram) }
{
    match code {
        at::NAME => Some(Class::Text),
        at::LOW_PC => Some(Class::Address),
        at::HIGH_PC => Some(Class::AddressOrConstant),
        at::RANGES => Some(Class::Ranges),
        at::FRAME_BASE => Some(Class::Location),
        at::SPECIFICATION | at::ABSTRACT_ORIGIN => Some(Class::Link),
        at::DECLARATION => Some(Class::Flag),
        _ => None,
    }
}

/// The class that the attribute of this code must have in entries of this tag; None where it isn't
/// looked at. Takes no memory.
pub fn class_of(tag: Tag, code: u64) -> Option<Class>
    ensures { result ≡ class_in code (row_of tag) }
{
    match tag {
        Tag::CompileUnit => unit_class(code),
        Tag::Subprogram => function_class(code),
        Tag::Variable | Tag::FormalParameter => variable_class(code),
        Tag::SubroutineType => None,
        Tag::Namespace => match code {
            at::NAME => Some(Class::Text),
            _ => None,
        },
        Tag::BaseType => match code {
            at::NAME => Some(Class::Text),
            at::BYTE_SIZE => Some(Class::Size),
            at::ENCODING => Some(Class::Constant),
            _ => None,
        },
        Tag::StructureType | Tag::UnionType => match code {
            at::NAME => Some(Class::Text),
            at::BYTE_SIZE | at::ALIGNMENT => Some(Class::Size),
            _ => None,
        },
        Tag::Member => match code {
            at::NAME => Some(Class::Text),
            at::TYPE => Some(Class::Link),
            at::DATA_MEMBER_LOCATION => Some(Class::Size),
            _ => None,
        },
        Tag::TemplateTypeParameter | Tag::PointerType => match code {
            at::NAME => Some(Class::Text),
            at::TYPE => Some(Class::Link),
            _ => None,
        },
        Tag::VariantPart => match code {
            at::DISCR => Some(Class::Link),
            _ => None,
        },
        Tag::Variant => match code {
            at::DISCR_VALUE => Some(Class::ConstantOrBlock),
            _ => None,
        },
        Tag::ArrayType | Tag::Typedef => match code {
            at::TYPE => Some(Class::Link),
            _ => None,
        },
        Tag::SubrangeType => match code {
            at::COUNT => Some(Class::Count),
            _ => None,
        },
        Tag::EnumerationType => match code {
            at::NAME => Some(Class::Text),
            at::BYTE_SIZE => Some(Class::Size),
            at::TYPE => Some(Class::Link),
            _ => None,
        },
        Tag::Enumerator => match code {
            at::NAME => Some(Class::Text),
            at::CONST_VALUE => Some(Class::Constant),
            _ => None,
        },
        Tag::LexicalBlock => match code {
            at::LOW_PC => Some(Class::Address),
            at::HIGH_PC => Some(Class::AddressOrConstant),
            at::RANGES => Some(Class::Ranges),
            _ => None,
        },
    }
}
