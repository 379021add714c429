//! The registers of a paused program.
ghost use Rattle.std.specs.Prelude.{◌≡◌, ◌<◌, ◌^◌, ◌*◌};
ghost use Rattle.std.specs.Option.{option_copied};
ghost use Rattle.snapshot_file.specs.Registers.{width_of, register, no_registers, with_register};

use crate::registers::Reg;
use std::marker::Model;

/// The bytes of each register that is there, which contracts see as a list in the order of the registers.
#[derive(Debug, Drop)]
pub struct Regs {
    general: [Option<[u8; 8]>; 16],
    vector: [Option<[u8; 16]>; 16],
}

impl Model for Regs {
    ghost use Rattle.std.specs.Prelude.{ℕ, List, Option, ◌++◌};

    ghost Value = { List (Option (List ℕ)) };

    ghost view = { λ r. r.general ++ r.vector };
}

impl Regs {
    /// No register. Takes no memory.
    pub fn new() -> Regs
        ensures { result ≡ no_registers }
    {
        Regs {
            general: [None; 16],
            vector: [None; 16],
        }
    }

    /// The bytes of the register, low byte first; None exactly where it is not there. Takes no memory.
    pub fn bytes(&self, reg: Reg) -> Option<&[u8]>
        ensures { option_copied result ≡ register self.now reg }
    {
        let number = reg.number();
        if number < 16 {
            match &self.general[number] {
                Some(bytes) => Some(bytes.as_slice()),
                None => None,
            }
        } else {
            match &self.vector[number - 16] {
                Some(bytes) => Some(bytes.as_slice()),
                None => None,
            }
        }
    }

    /// Puts a number into the register.
    pub(crate) fn set(&mut self, reg: Reg, n: u128)
        requires { n < 2 ^ (8 * width_of reg) }
        ensures { self.new ≡ with_register self.old reg n }
    {
        let number = reg.number();
        if number < 16 {
            self.general[number] = Some((n as u64).to_le_bytes());
        } else {
            self.vector[number - 16] = Some(n.to_le_bytes());
        }
    }
}
