//! Public calls that no command reaches.
mod abutting;

use crate::setting::Setting;
use crate::verdict::Verdict;
pub use abutting::refused_pairs;
use case_tables::{Mistake, tell_difference};
use dbg_command::lines;
use layout_file::LayoutErr;
use layout_model::check_sound;
use layout_set::{CheckErr, Item};
use rv_io::{Buf, Memory};
use snapshot_file::SnapErr;
use std::alloc::{AllocError, Global};

/// Why a call gives nothing.
#[derive(Drop)]
pub enum Stopped {
    /// The message that says why.
    Refused(&'static str),
    Memory,
}

impl From<Memory> for Stopped {
    fn from(_e: Memory) -> Stopped {
        Stopped::Memory
    }
}

impl From<LayoutErr> for Stopped {
    fn from(e: LayoutErr) -> Stopped {
        match e {
            LayoutErr::Memory => Stopped::Memory,
            _ => Stopped::Refused("not a layout\n"),
        }
    }
}

impl From<SnapErr> for Stopped {
    fn from(e: SnapErr) -> Stopped {
        match e {
            SnapErr::Memory => Stopped::Memory,
            _ => Stopped::Refused("not a snapshot\n"),
        }
    }
}

impl From<CheckErr> for Stopped {
    fn from(e: CheckErr) -> Stopped {
        match e {
            CheckErr::Memory => Stopped::Memory,
            CheckErr::Breach { .. } => Stopped::Refused("not sound\n"),
        }
    }
}

/// The file that is written of the layout in these bytes.
pub fn write_again(alloc: Global, layout: &[u8]) -> Result<Buf, Stopped> {
    let set = layout_file::read(alloc, layout)?;
    let mut out = Buf::new(alloc);
    layout_file::write(&set, &mut out)?;
    Ok(out)
}

/// `> `, and the lines that are printed of a sound layout over a snapshot, at depth 2 and width 32.
pub fn sound_lines(alloc: Global, layout: &[u8], snapshot: &[u8]) -> Result<Buf, Stopped> {
    let set = layout_file::read(alloc, layout)?;
    let snap = snapshot_file::read(alloc, snapshot)?;
    check_sound(alloc, &set)?;
    let mut out = Buf::new(alloc);
    out.put(b"> ")?;
    lines(alloc, &set, &snap, 2, 32, &mut out)?;
    Ok(out)
}

/// Adds how `check_sound` answers otherwise of the layout of a run of `check` than the verdict says of laws 1 to 6.
pub fn tell_soundness(
    alloc: Global,
    told: &mut String,
    setting: &Setting,
    verdict: &Verdict,
) -> Result<(), Mistake> {
    if setting.words.first().map(|word| word.as_slice()) != Some(b"check".as_slice()) {
        return Ok(());
    }
    let set = match layout_file::read(alloc, setting.file_at(1)) {
        Ok(set) => set,
        Err(LayoutErr::Memory) => return Err(Mistake::Memory),
        Err(_) => return Ok(()),
    };
    let came = match check_sound(alloc, &set) {
        Ok(()) => String::new(alloc),
        Err(CheckErr::Breach { law, at }) => breach_message(alloc, law, at)?,
        Err(CheckErr::Memory) => return Err(Mistake::Memory),
    };
    let wanted = of_sound_laws(verdict.message());
    Ok(tell_difference(told, "check_sound", wanted, came.as_bytes())?)
}

/// The message, if it is of a law that makes a layout sound, else nothing.
fn of_sound_laws(message: &[u8]) -> &[u8] {
    match message.strip_prefix(b"rdbg: breach law ") {
        Some([b'1'..=b'6', b' ', ..]) => message,
        _ => b"",
    }
}

/// The message of a law that fails, first at this item.
fn breach_message(alloc: Global, law: u8, at: Item) -> Result<String, AllocError> {
    match at {
        Item::Whole => format!(in alloc; "rdbg: breach law {law} at set\n"),
        Item::Def(place) => format!(in alloc; "rdbg: breach law {law} at type {place}\n"),
        Item::Static(place) => format!(in alloc; "rdbg: breach law {law} at static {place}\n"),
        Item::Func(place) => format!(in alloc; "rdbg: breach law {law} at fn {place}\n"),
    }
}
