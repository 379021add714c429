//! The numbers of registers in DWARF, on x86-64.
ghost use Rattle.std.specs.Prelude.{◌≡◌, slice_get};
ghost use Rattle.expr_bytes.specs.Registers.{reg_at, number_of};

use snapshot_file::Reg;

// In the order of their numbers.
const ALL: [Reg; 32] = [
    Reg::Rax,
    Reg::Rdx,
    Reg::Rcx,
    Reg::Rbx,
    Reg::Rsi,
    Reg::Rdi,
    Reg::Rbp,
    Reg::Rsp,
    Reg::R8,
    Reg::R9,
    Reg::R10,
    Reg::R11,
    Reg::R12,
    Reg::R13,
    Reg::R14,
    Reg::R15,
    Reg::Xmm0,
    Reg::Xmm1,
    Reg::Xmm2,
    Reg::Xmm3,
    Reg::Xmm4,
    Reg::Xmm5,
    Reg::Xmm6,
    Reg::Xmm7,
    Reg::Xmm8,
    Reg::Xmm9,
    Reg::Xmm10,
    Reg::Xmm11,
    Reg::Xmm12,
    Reg::Xmm13,
    Reg::Xmm14,
    Reg::Xmm15,
];

/// The register of a number; None where no register that is read has it.
pub fn reg_at(number: u64) -> Option<Reg>
    ensures { result ≡ reg_at number }
{
    if number < 16 {
        reg_in(&ALL, number)
    } else if number == 16 {
        None
    } else {
        reg_in(&ALL, number - 1)
    }
}

/// The register at a place of these; None past their end.
fn reg_in(regs: &[Reg], place: u64) -> Option<Reg>
    ensures { result ≡ slice_get regs.now place }
{
    regs.get(place as usize).copied()
}

/// The number of a register.
pub fn number_of(reg: Reg) -> u8
    ensures { result ≡ number_of reg }
{
    match reg {
        Reg::Rax => 0,
        Reg::Rdx => 1,
        Reg::Rcx => 2,
        Reg::Rbx => 3,
        Reg::Rsi => 4,
        Reg::Rdi => 5,
        Reg::Rbp => 6,
        Reg::Rsp => 7,
        Reg::R8 => 8,
        Reg::R9 => 9,
        Reg::R10 => 10,
        Reg::R11 => 11,
        Reg::R12 => 12,
        Reg::R13 => 13,
        Reg::R14 => 14,
        Reg::R15 => 15,
        Reg::Xmm0 => 17,
        Reg::Xmm1 => 18,
        Reg::Xmm2 => 19,
        Reg::Xmm3 => 20,
        Reg::Xmm4 => 21,
        Reg::Xmm5 => 22,
        Reg::Xmm6 => 23,
        Reg::Xmm7 => 24,
        Reg::Xmm8 => 25,
        Reg::Xmm9 => 26,
        Reg::Xmm10 => 27,
        Reg::Xmm11 => 28,
        Reg::Xmm12 => 29,
        Reg::Xmm13 => 30,
        Reg::Xmm14 => 31,
        Reg::Xmm15 => 32,
    }
}
