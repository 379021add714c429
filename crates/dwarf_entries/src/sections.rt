//! The sections of debug information.

/// The whole bytes of the sections: entries, and the texts, addresses and lists to which they lead.
#[derive(Clone, Copy, Debug)]
pub struct Sections<'a> {
    /// `.debug_info`
    pub info: &'a [u8],
    /// `.debug_str`
    pub text: &'a [u8],
    /// `.debug_line_str`
    pub line_text: &'a [u8],
    /// `.debug_str_offsets`
    pub text_offsets: &'a [u8],
    /// `.debug_addr`
    pub addrs: &'a [u8],
    /// `.debug_loclists`
    pub locs: &'a [u8],
    /// `.debug_rnglists`
    pub ranges: &'a [u8],
}

/// Where a unit's parts of `.debug_str_offsets` and `.debug_addr` begin, in bytes from the start of
/// these sections; None where the unit doesn't say so (DWARF 5, 3.1.1).
#[derive(Clone, Copy, Debug, PartialEq, Eq)]
pub struct Bases {
    pub text_offsets: Option<u64>,
    pub addrs: Option<u64>,
}
