//! The words of a line, taken one by one.
ghost use Rattle.std.specs.Prelude.{◌≡◌, ◌<◌, ◌≤◌, ◌^◌, Some, None, Ok, Err, IfSome};
ghost use Rattle.layout_words.specs.Kinds.{type_kind_of, selector_kind_of, pointer_of, primitive_of, entry_kind_of, piece_kind_of};
ghost use Rattle.snapshot_file.specs.Registers.{reg_of};
ghost use Rattle.readers.specs.Hex.{hex_of};
ghost use Rattle.layout_words.specs.Spellings.{number_of, the_next, number, address, address_of, reference, reference_of, pointer, primitive, type_kind, selector_kind, word, word_of, name};
ghost use Rattle.layout_words.specs.PlaceSpellings.{register, frame, frame_of, hex, signed, signed_of, digits, digits_of, entry_kind, piece_kind, zone, zone_of, operation, op_of};
ghost use Rattle.layout_words.specs.Forms.{cut, next_word, all_left, nothing_of, take_word, take_rest, many, each_of, left_words, operations, operations_of};
ghost use Rattle.layout_words.specs.Steps.{Took, Read, seen};

use crate::chars::name_of;
use crate::kinds::{
    PlaceKind, SelectorKind, TypeKind, pointer_of, primitive_of, selector_kind_of, type_kind_of,
};
use crate::numbers::{address_of, number_of, reference_of, u8_of, u32_of, u64_of, word_of};
use crate::place_words::{entry_kind_of, piece_kind_of};
use crate::places::{digits_of, frame_of, i32_of, op_of, zone_of};
use expr_eval::{Op, Ops};
use layout_set::{Primitive, TypeRef, Zone};
use names::{Name, PtrKind, Word};
use readers::{cut_word, read_hex};
use rv_io::{List, Memory, Text};
use snapshot_file::{Reg, reg_of};
use std::alloc::Global;
use std::marker::Model;

/// Why a line was not read.
#[derive(Clone, Copy, Debug, PartialEq, Eq)]
pub enum Stop {
    /// Some word is none of what must stand at its place, or is missing, or is one too many.
    Unfit,
    /// Memory has run out.
    Memory,
}

impl From<Memory> for Stop {
    ghost use Rattle.layout_words.specs.declared.cursor.Stop.{Stop};
    ghost use Rattle.std.specs.Prelude.{◌≡◌};

    ghost from_gives = { λ _ s. s ≡ Stop.Memory };

    fn from(_e: Memory) -> Stop {
        Stop::Memory
    }
}

/// What is left of a line behind the words that were taken: nothing, or what follows the space.
#[derive(Drop)]
pub struct Words<'a> {
    left: Option<&'a [u8]>,
}

impl<'a> Model for Words<'a> {
    ghost use Rattle.std.specs.Option.{option_map};
    ghost use Rattle.layout_words.specs.Forms.{Left};

    ghost Value = { Left };

    ghost view = { λ w. option_map (λ line. line.now) w.left };
}

impl<'a> Words<'a> {
    /// The words of a line.
    pub fn new(line: &'a [u8]) -> Words<'a>
        ensures { result ≡ Some line.now }
    {
        Words { left: Some(line) }
    }

    /// The next word.
    pub fn next_word(&mut self) -> Result<&'a [u8], Stop>
        ensures { Took (next_word self.old) (seen result) self.new }
    {
        let Some(line) = self.left else {
            return Err(Stop::Unfit);
        };
        let (word, left) = cut_word(line);
        self.left = left;
        Ok(word)
    }

    /// All that is left.
    fn all_left(&mut self) -> Result<&'a [u8], Stop>
        ensures { Took (all_left self.old) (seen result) self.new }
    {
        let Some(line) = self.left else {
            return Err(Stop::Unfit);
        };
        self.left = None;
        Ok(line)
    }

    /// The end of the line.
    pub fn end(self) -> Result<(), Stop>
        ensures { Read (nothing_of self.entry) result }
    {
        match self.left {
            None => Ok(()),
            Some(_) => Err(Stop::Unfit),
        }
    }

    /// The number of a type that is the next one.
    pub fn type_number(&mut self, next: u32) -> Result<(), Stop>
        ensures { Took (take_word (the_next next) self.old) result self.new }
    {
        if self.number_u32()? == next {
            Ok(())
        } else {
            Err(Stop::Unfit)
        }
    }

    /// A number of 8 bits.
    pub fn number_u8(&mut self) -> Result<u8, Stop>
        ensures { Took (take_word (number 8) self.old) result self.new }
    {
        let word = self.next_word()?;
        fitting(u8_of(word))
    }

    /// A number of 32 bits.
    pub fn number_u32(&mut self) -> Result<u32, Stop>
        ensures { Took (take_word (number 32) self.old) result self.new }
    {
        let word = self.next_word()?;
        fitting(u32_of(word))
    }

    pub fn number_u64(&mut self) -> Result<u64, Stop>
        ensures { Took (take_word (number 64) self.old) result self.new }
    {
        let word = self.next_word()?;
        fitting(u64_of(word))
    }

    pub fn number_u128(&mut self) -> Result<u128, Stop>
        ensures { Took (take_word (number 128) self.old) result self.new }
    {
        let word = self.next_word()?;
        fitting(number_of(word, 128))
    }

    pub fn address(&mut self) -> Result<Option<u64>, Stop>
        ensures { Took (take_word address self.old) result self.new }
    {
        let word = self.next_word()?;
        fitting(address_of(word))
    }

    pub fn reference(&mut self) -> Result<TypeRef, Stop>
        ensures { Took (take_word reference self.old) result self.new }
    {
        let word = self.next_word()?;
        fitting(reference_of(word))
    }

    pub fn pointer(&mut self) -> Result<PtrKind, Stop>
        ensures { Took (take_word pointer self.old) result self.new }
    {
        let word = self.next_word()?;
        fitting(pointer_of(word))
    }

    pub fn primitive(&mut self) -> Result<Primitive, Stop>
        ensures { Took (take_word primitive self.old) result self.new }
    {
        let word = self.next_word()?;
        fitting(primitive_of(word))
    }

    pub fn type_kind(&mut self) -> Result<TypeKind, Stop>
        ensures { Took (take_word type_kind self.old) result self.new }
    {
        let word = self.next_word()?;
        fitting(type_kind_of(word))
    }

    pub fn selector_kind(&mut self) -> Result<SelectorKind, Stop>
        ensures { Took (take_word selector_kind self.old) result self.new }
    {
        let word = self.next_word()?;
        fitting(selector_kind_of(word))
    }

    pub fn word(&mut self, alloc: Global) -> Result<Word, Stop>
        ensures { Took (take_word word self.old) result self.new }
    {
        let word = self.next_word()?;
        word_of(alloc, word)
    }

    /// A name, which is all that is left.
    pub fn name(self, alloc: Global) -> Result<Name, Stop>
        ensures { Read (take_rest name self.entry) result }
    {
        let Some(line) = self.left else {
            return Err(Stop::Unfit);
        };
        name_of(alloc, line)
    }
}

impl<'a> Words<'a> {
    pub fn register(&mut self) -> Result<Reg, Stop>
        ensures { Took (take_word register self.old) result self.new }
    {
        let word = self.next_word()?;
        fitting(reg_of(word))
    }

    /// A register, or `none`.
    pub fn frame(&mut self) -> Result<Option<Reg>, Stop>
        ensures { Took (take_word frame self.old) result self.new }
    {
        let word = self.next_word()?;
        fitting(frame_of(word))
    }

    /// An address.
    pub fn hex(&mut self) -> Result<u64, Stop>
        ensures { Took (take_word hex self.old) result self.new }
    {
        let word = self.next_word()?;
        fitting(read_hex(word))
    }

    pub fn signed(&mut self) -> Result<i32, Stop>
        ensures { Took (take_word signed self.old) result self.new }
    {
        let word = self.next_word()?;
        fitting(i32_of(word))
    }

    /// Bytes in pairs of digits, or `-` for none.
    pub fn digits(&mut self, alloc: Global) -> Result<Text, Stop>
        ensures { Took (take_word digits self.old) result self.new }
    {
        let word = self.next_word()?;
        digits_of(alloc, word)
    }

    pub fn entry_kind(&mut self) -> Result<PlaceKind, Stop>
        ensures { Took (take_word entry_kind self.old) result self.new }
    {
        let word = self.next_word()?;
        fitting(entry_kind_of(word))
    }

    pub fn piece_kind(&mut self) -> Result<PlaceKind, Stop>
        ensures { Took (take_word piece_kind self.old) result self.new }
    {
        let word = self.next_word()?;
        fitting(piece_kind_of(word))
    }

    /// Zones, which are all that is left.
    pub fn zones(self, alloc: Global) -> Result<List<Zone>, Stop>
        ensures { Read ((many zone).of self.entry) result }
    {
        let mut zones = List::new(alloc);
        let mut left = self.left;
        while let Some(line) = left {
            let (word, more) = cut_word(line);
            let Some(zone) = zone_of(word) else {
                return Err(Stop::Unfit);
            };
            zones.push(zone)?;
            left = more;
        }
        Ok(zones)
    }

    /// Operations one by one, which are all that is left.
    fn each_operation(self, alloc: Global) -> Result<List<Op>, Stop>
        ensures { Read (each_of operation (left_words self.entry)) result }
    {
        let mut ops = List::new(alloc);
        let mut left = self.left;
        while let Some(line) = left {
            let (word, more) = cut_word(line);
            let Some(op) = op_of(word) else {
                return Err(Stop::Unfit);
            };
            ops.push(op)?;
            left = more;
        }
        Ok(ops)
    }

    /// The operations of an expression, which are all that is left.
    pub fn operations(self, alloc: Global) -> Result<Ops, Stop>
        ensures { Read (operations.of self.entry) result }
    {
        let ops = self.each_operation(alloc)?;
        fitting(Ops::new(ops))
    }
}

/// The item, if there is one.
fn fitting<T>(item: Option<T>) -> Result<T, Stop>
    ensures { Read item result }
{
    match item {
        Some(item) => Ok(item),
        None => Err(Stop::Unfit),
    }
}
