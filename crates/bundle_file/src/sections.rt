//! The sections of debug information, in either format.
use rv_io::Buf;

/// The sections of DWARF debug information. Offsets into one count from its first byte.
#[derive(Debug, Drop)]
pub struct DwarfSections {
    /// `.debug_abbrev`: the abbreviation tables (DWARF 5, 7.5.3).
    pub abbrev: Buf,
    /// `.debug_info`: the units with their entries (DWARF 5, 7.5.1).
    pub info: Buf,
    /// `.debug_str`: texts, each up to its zero byte (DWARF 5, 7.5.5).
    pub text: Buf,
    /// `.debug_line_str`: texts, each up to its zero byte (DWARF 5, 7.5.5).
    pub line_text: Buf,
    /// `.debug_str_offsets`: offsets into `.debug_str` (DWARF 5, 7.26).
    pub text_offsets: Buf,
    /// `.debug_addr`: addresses of the program (DWARF 5, 7.27).
    pub addrs: Buf,
    /// `.debug_loclists`: location lists (DWARF 5, 7.29).
    pub locs: Buf,
    /// `.debug_rnglists`: range lists (DWARF 5, 7.28).
    pub ranges: Buf,
}

/// The sections of CodeView debug information, and where the program's code and data begin.
#[derive(Debug, Drop)]
pub struct CvSections {
    /// The address of section 1, the code: addresses in section 1 count from it.
    pub code_base: u64,
    /// The address of section 2, the data: addresses in section 2 count from it.
    pub data_base: u64,
    /// `.debug$T`: the type records.
    pub types: Buf,
    /// `.debug$S`: the symbol records.
    pub symbols: Buf,
}

/// The sections of one format.
#[derive(Debug, Drop)]
pub enum Bundle {
    Dwarf(DwarfSections),
    Cv(CvSections),
}

/// The format of the sections.
#[derive(Clone, Copy, Debug, PartialEq, Eq)]
pub(crate) enum Format {
    Dwarf,
    CodeView,
}
