//! Registers of x86-64, in the order of their numbers in DWARF.
ghost use Rattle.std.specs.Prelude.{◌≡◌, ◌<◌};
ghost use Rattle.snapshot_file.specs.Registers.{number_of, width_of, name_of, named_in, reg_of};

/// A register: the general ones are 8 bytes wide, the others 16.
#[derive(Clone, Copy, Debug, PartialEq, Eq)]
pub enum Reg {
    Rax,
    Rdx,
    Rcx,
    Rbx,
    Rsi,
    Rdi,
    Rbp,
    Rsp,
    R8,
    R9,
    R10,
    R11,
    R12,
    R13,
    R14,
    R15,
    Xmm0,
    Xmm1,
    Xmm2,
    Xmm3,
    Xmm4,
    Xmm5,
    Xmm6,
    Xmm7,
    Xmm8,
    Xmm9,
    Xmm10,
    Xmm11,
    Xmm12,
    Xmm13,
    Xmm14,
    Xmm15,
}

const ALL: [Reg; 32] = [
    Reg::Rax,
    Reg::Rdx,
    Reg::Rcx,
    Reg::Rbx,
    Reg::Rsi,
    Reg::Rdi,
    Reg::Rbp,
    Reg::Rsp,
    Reg::R8,
    Reg::R9,
    Reg::R10,
    Reg::R11,
    Reg::R12,
    Reg::R13,
    Reg::R14,
    Reg::R15,
    Reg::Xmm0,
    Reg::Xmm1,
    Reg::Xmm2,
    Reg::Xmm3,
    Reg::Xmm4,
    Reg::Xmm5,
    Reg::Xmm6,
    Reg::Xmm7,
    Reg::Xmm8,
    Reg::Xmm9,
    Reg::Xmm10,
    Reg::Xmm11,
    Reg::Xmm12,
    Reg::Xmm13,
    Reg::Xmm14,
    Reg::Xmm15,
];

impl Reg {
    /// The number of bytes of the register. Takes no memory.
    pub fn width(self) -> u32
        ensures { result ≡ width_of self }
    {
        if self.number() < 16 { 8 } else { 16 }
    }

    /// The place of the register among all.
    pub(crate) fn number(self) -> usize
        ensures { result ≡ number_of self }
    {
        match self {
            Reg::Rax => 0,
            Reg::Rdx => 1,
            Reg::Rcx => 2,
            Reg::Rbx => 3,
            Reg::Rsi => 4,
            Reg::Rdi => 5,
            Reg::Rbp => 6,
            Reg::Rsp => 7,
            Reg::R8 => 8,
            Reg::R9 => 9,
            Reg::R10 => 10,
            Reg::R11 => 11,
            Reg::R12 => 12,
            Reg::R13 => 13,
            Reg::R14 => 14,
            Reg::R15 => 15,
            Reg::Xmm0 => 16,
            Reg::Xmm1 => 17,
            Reg::Xmm2 => 18,
            Reg::Xmm3 => 19,
            Reg::Xmm4 => 20,
            Reg::Xmm5 => 21,
            Reg::Xmm6 => 22,
            Reg::Xmm7 => 23,
            Reg::Xmm8 => 24,
            Reg::Xmm9 => 25,
            Reg::Xmm10 => 26,
            Reg::Xmm11 => 27,
            Reg::Xmm12 => 28,
            Reg::Xmm13 => 29,
            Reg::Xmm14 => 30,
            Reg::Xmm15 => 31,
        }
    }

    /// The name of the register, in lower case. Takes no memory.
    pub fn name(self) -> &'static [u8]
        ensures { result.now ≡ name_of self }
    {
        match self {
            Reg::Rax => b"rax",
            Reg::Rdx => b"rdx",
            Reg::Rcx => b"rcx",
            Reg::Rbx => b"rbx",
            Reg::Rsi => b"rsi",
            Reg::Rdi => b"rdi",
            Reg::Rbp => b"rbp",
            Reg::Rsp => b"rsp",
            Reg::R8 => b"r8",
            Reg::R9 => b"r9",
            Reg::R10 => b"r10",
            Reg::R11 => b"r11",
            Reg::R12 => b"r12",
            Reg::R13 => b"r13",
            Reg::R14 => b"r14",
            Reg::R15 => b"r15",
            Reg::Xmm0 => b"xmm0",
            Reg::Xmm1 => b"xmm1",
            Reg::Xmm2 => b"xmm2",
            Reg::Xmm3 => b"xmm3",
            Reg::Xmm4 => b"xmm4",
            Reg::Xmm5 => b"xmm5",
            Reg::Xmm6 => b"xmm6",
            Reg::Xmm7 => b"xmm7",
            Reg::Xmm8 => b"xmm8",
            Reg::Xmm9 => b"xmm9",
            Reg::Xmm10 => b"xmm10",
            Reg::Xmm11 => b"xmm11",
            Reg::Xmm12 => b"xmm12",
            Reg::Xmm13 => b"xmm13",
            Reg::Xmm14 => b"xmm14",
            Reg::Xmm15 => b"xmm15",
        }
    }
}

/// The first of the registers whose name is the word.
#[tactic(auto, using(rv_io::proofs::Steps::drop_step))]
fn named_in(regs: &[Reg], word: &[u8]) -> Option<Reg>
    ensures { result ≡ named_in regs.now word.now }
{
    for reg in regs {
        if word == reg.name() {
            return Some(*reg);
        }
    }
    None
}

/// The register that the word names; None exactly where it names none. Takes no memory.
pub fn reg_of(word: &[u8]) -> Option<Reg>
    ensures { result ≡ reg_of word.now }
{
    named_in(&ALL, word)
}
