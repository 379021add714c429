//! Numbers of a fixed size, the lowest byte first.
ghost use Rattle.std.specs.Prelude.{◌≡◌, ◌≤◌, length, IfOk, IfErr, OnErr};
ghost use Rattle.byteorder.specs.Endian.{little_number};
ghost use Rattle.rv_bytes.specs.Numbers.{number};
ghost use Rattle.rv_bytes.specs.NumberReaders.{read_number};
ghost use Rattle.rv_bytes.specs.Reads.{Takes, IsRefused};
ghost use Rattle.rv_bytes.specs.Results.{Gives};

use crate::cut::Cut;
use crate::err::CutErr;
use byteorder::{ByteOrder, LittleEndian};

impl<'a> Cut<'a> {
    /// Reads a number of one byte. Refused as `Short` where none is left. Takes no memory.
    pub fn u8(&mut self) -> Result<u8, CutErr>
        // What is read stands at the place, and the place is just past it.
        ensures taken { IfOk result (Takes (number 1) self.old self.new) }

        // A refusal has its cause, and leaves the place as it was.
        ensures refused { IfErr result (IsRefused (number 1) self.old) }
        ensures same { OnErr result (self.new ≡ self.old) }

        // The reader of the form gives the same, for the proofs of callers.
        ensures reads { Gives (read_number 1 self.old.at self.old.rest) result self.new }
    {
        let bytes = self.take(1)?;
        Ok(bytes[0])
    }

    /// Reads a number of two bytes, the lowest first. Refused as `Short` where fewer are left.
    /// Takes no memory.
    pub fn u16(&mut self) -> Result<u16, CutErr>
        // What is read stands at the place, and the place is just past it.
        ensures taken { IfOk result (Takes (number 2) self.old self.new) }

        // A refusal has its cause, and leaves the place as it was.
        ensures refused { IfErr result (IsRefused (number 2) self.old) }
        ensures same { OnErr result (self.new ≡ self.old) }

        // The reader of the form gives the same, for the proofs of callers.
        ensures reads { Gives (read_number 2 self.old.at self.old.rest) result self.new }
    {
        let bytes = self.take(2)?;
        Ok(LittleEndian::read_u16(bytes))
    }

    /// Reads a number of four bytes, the lowest first. Refused as `Short` where fewer are left.
    /// Takes no memory.
    pub fn u32(&mut self) -> Result<u32, CutErr>
        // What is read stands at the place, and the place is just past it.
        ensures taken { IfOk result (Takes (number 4) self.old self.new) }

        // A refusal has its cause, and leaves the place as it was.
        ensures refused { IfErr result (IsRefused (number 4) self.old) }
        ensures same { OnErr result (self.new ≡ self.old) }

        // The reader of the form gives the same, for the proofs of callers.
        ensures reads { Gives (read_number 4 self.old.at self.old.rest) result self.new }
    {
        let bytes = self.take(4)?;
        Ok(LittleEndian::read_u32(bytes))
    }

    /// Reads a number of eight bytes, the lowest first. Refused as `Short` where fewer are left.
    /// Takes no memory.
    pub fn u64(&mut self) -> Result<u64, CutErr>
        // What is read stands at the place, and the place is just past it.
        ensures taken { IfOk result (Takes (number 8) self.old self.new) }

        // A refusal has its cause, and leaves the place as it was.
        ensures refused { IfErr result (IsRefused (number 8) self.old) }
        ensures same { OnErr result (self.new ≡ self.old) }

        // The reader of the form gives the same, for the proofs of callers.
        ensures reads { Gives (read_number 8 self.old.at self.old.rest) result self.new }
    {
        let bytes = self.take(8)?;
        Ok(LittleEndian::read_u64(bytes))
    }

    /// Reads a number of 16 bytes, the lowest first. Refused as `Short` where fewer are left. Takes
    /// no memory.
    pub fn u128(&mut self) -> Result<u128, CutErr>
        // What is read stands at the place, and the place is just past it.
        ensures taken { IfOk result (Takes (number 16) self.old self.new) }

        // A refusal has its cause, and leaves the place as it was.
        ensures refused { IfErr result (IsRefused (number 16) self.old) }
        ensures same { OnErr result (self.new ≡ self.old) }

        // The reader of the form gives the same, for the proofs of callers.
        ensures reads { Gives (read_number 16 self.old.at self.old.rest) result self.new }
    {
        let bytes = self.take(16)?;
        Ok(LittleEndian::read_u128(bytes))
    }

    /// Reads a number of `width` bytes, the lowest first. Refused as `Short` where fewer are left.
    /// Takes no memory.
    pub fn number(&mut self, width: u8) -> Result<u64, CutErr>
        requires low { 1 ≤ width }
        requires high { width ≤ 8 }

        // What is read stands at the place, and the place is just past it.
        ensures taken { IfOk result (Takes (number width) self.old self.new) }

        // A refusal has its cause, and leaves the place as it was.
        ensures refused { IfErr result (IsRefused (number width) self.old) }
        ensures same { OnErr result (self.new ≡ self.old) }

        // The reader of the form gives the same, for the proofs of callers.
        ensures reads { Gives (read_number width self.old.at self.old.rest) result self.new }
    {
        let bytes = self.take(usize::from(width))?;
        Ok(little_number(bytes, width))
    }
}

/// The number of `width` bytes, the lowest first.
fn little_number(bytes: &[u8], width: u8) -> u64
    requires low { 1 ≤ width }
    requires high { width ≤ 8 }
    requires whole { length bytes.now ≡ width }
    ensures { result ≡ little_number width bytes.now }
{
    match width {
        1 => u64::from(bytes[0]),
        2 => u64::from(LittleEndian::read_u16(bytes)),
        4 => u64::from(LittleEndian::read_u32(bytes)),
        8 => LittleEndian::read_u64(bytes),
        _ => LittleEndian::read_uint(bytes, usize::from(width)),
    }
}
