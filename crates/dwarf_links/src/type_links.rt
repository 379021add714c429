//! The types to which links lead, and the rules that links break (DWARF 5, 5.3 and 7.5.5).
ghost use Rattle.std.specs.Prelude.{◌≡◌, IfOk, option_and_then};
ghost use Rattle.std.specs.Option.{option_copied};
ghost use Rattle.dwarf_entries.specs.Dies.{what};
ghost use Rattle.dwarf_entries.specs.Primitives.{err_of, ok_of};
ghost use Rattle.dwarf_entries.specs.TypeLinks.{place_in_set, type_at, type_of, type_rule, typed_rule};
ghost use Rattle.dwarf_links.specs.BaseTypes.{base_type_in};
ghost use Rattle.dwarf_links.specs.SetTypes.{numbers_of_types};

use crate::base_types::read_base_types;
use crate::ends::{End, type_end};
use crate::rules::rule_if;
use crate::set_types::{is_type_of_set, read_types};
use dwarf_dies::{Die, Dies};
use dwarf_entries::{Tag, at, rule};
use layout_set::{Primitive, TypeRef};
use rv_io::{List, Memory};
use std::alloc::Global;
use std::collections::BTreeMap;
use std::marker::Model;

/// What is needed to follow links to types: the types of the set, and the base types. Contracts see all
/// entries.
#[derive(Drop)]
pub struct TypeLinks<'a> {
    dies: &'a Dies<'a>,
    /// The numbers of the entries that are types of the set, rising.
    types: List<u32>,
    /// What each base type is, by the number of its entry.
    kinds: BTreeMap<u32, Result<Primitive, u8>>,
}

impl<'a> Model for TypeLinks<'a> {
    ghost use Rattle.dwarf_entries.specs.Dies.{Info};
    ghost use Rattle.dwarf_links.specs.Links.{AreTables};

    ghost Value = { Info };

    ghost view = { λ l. l.dies.now };

    ghost invariant = { λ l. AreTables l.dies.now l.types l.kinds };
}

impl<'a> TypeLinks<'a> {
    /// All entries. Takes no memory.
    pub fn dies(&self) -> &'a Dies<'a>
        ensures { result.now ≡ self.now }
    {
        self.dies
    }

    /// The types of the set in order, by the numbers of their entries. Takes no memory.
    pub fn types(&self) -> &[u32]
        ensures { result.now ≡ numbers_of_types self.now }
    {
        self.types.as_slice()
    }

    /// How many types of the set begin before an entry. Halves them until one is left. Takes no memory.
    pub fn place_in_set(&self, die: &Die<'_>) -> u32
        requires { die.now.info ≡ self.now }
        ensures { result ≡ place_in_set self.now die.now.die }
    {
        let number = die.number();
        let place = self
            .types
            .as_slice()
            .partition_point(|entry| *entry < number);
        place as u32
    }

    /// What an entry is as a base type: a primitive, or the rule that it breaks; None where it is none.
    fn kind(&self, die: &Die<'_>) -> Option<&Result<Primitive, u8>>
        requires { die.now.info ≡ self.now }
        ensures { option_copied result ≡ base_type_in self.now die.now.die }
    {
        self.kinds.get(&die.number())
    }

    /// The primitive that an entry is as a base type; None where it is no base type, or an invalid one.
    /// Takes no memory.
    pub fn primitive_of(&self, die: &Die<'_>) -> Option<Primitive>
        requires { die.now.info ≡ self.now }
        ensures { result ≡ option_and_then ok_of (base_type_in self.now die.now.die) }
    {
        match self.kind(die)? {
            Ok(prim) => Some(*prim),
            Err(_) => None,
        }
    }

    /// The rule that an entry breaks as a base type: 40 where its encoding or its size is missing, 42
    /// where there is no such primitive. Takes no memory.
    pub fn base_rule(&self, die: &Die<'_>) -> Option<u8>
        requires { die.now.info ≡ self.now }
        ensures { result ≡ option_and_then err_of (base_type_in self.now die.now.die) }
    {
        match self.kind(die)? {
            Ok(_) => None,
            Err(rule) => Some(*rule),
        }
    }

    /// The type that an entry is: one of the set, or a primitive. A base type that is none is the unit.
    /// Takes no memory.
    pub fn type_at(&self, die: &Die<'_>) -> Option<TypeRef>
        requires { die.now.info ≡ self.now }
        ensures { result ≡ type_at self.now die.now.die (what die.now.die) }
    {
        match die.what() {
            None => None,
            Some(Tag::BaseType) => {
                let prim = self.primitive_of(die).unwrap_or(Primitive::Unit);
                Some(TypeRef::Prim(prim))
            }
            Some(_) => {
                if is_type_of_set(die) {
                    Some(TypeRef::User(self.place_in_set(die)))
                } else {
                    None
                }
            }
        }
    }

    /// The type to which the link of an entry leads, through at most 64 typedefs. Takes no memory.
    pub fn type_of(&self, die: &Die<'_>) -> Option<TypeRef>
        requires { die.now.info ≡ self.now }
        ensures { result ≡ type_of self.now die.now.die }
    {
        match type_end(die) {
            End::Reached(entry) => self.type_at(&entry),
            End::Nowhere | End::Endless => None,
        }
    }

    /// The rule that the link of an entry breaks: 41 where it leads to no type, 46 where it leads through
    /// more than 64 typedefs. Takes no memory.
    pub fn type_rule(&self, die: &Die<'_>) -> Option<u8>
        requires { die.now.info ≡ self.now }
        ensures { result ≡ type_rule self.now die.now.die }
    {
        match type_end(die) {
            End::Reached(entry) => rule_if(self.type_at(&entry).is_none(), rule::NO_TYPE),
            End::Nowhere => Some(rule::NO_TYPE),
            End::Endless => Some(rule::TOO_LONG),
        }
    }

    /// The same, or rule 40 where the entry has no type. Takes no memory.
    pub fn typed_rule(&self, die: &Die<'_>) -> Option<u8>
        requires { die.now.info ≡ self.now }
        ensures { result ≡ typed_rule self.now die.now.die }
    {
        if die.has(at::TYPE) {
            self.type_rule(die)
        } else {
            Some(rule::MISSING)
        }
    }
}

/// Finds the types of the set and the base types. Takes memory for both, and for the names of base types.
pub fn read_type_links<'a>(alloc: Global, dies: &'a Dies<'a>) -> Result<TypeLinks<'a>, Memory>
    ensures { IfOk result (λ l. l ≡ dies.now) }
{
    let types = read_types(alloc, dies)?;
    let kinds = read_base_types(alloc, dies)?;
    Ok(TypeLinks { dies, types, kinds })
}
