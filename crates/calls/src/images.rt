//! Views of memory and of chunks.
use image_view::Image;
use layout_set::{Entry, Loc, Piece, Place};
use rv_io::{List, Text};
use snapshot_file::{Mem, Reg, read};
use std::alloc::Global;
use std::test::Fail;
use value_reader::locate;

#[test]
fn a_view_of_memory_ends_where_memory_does(rt: HostRuntime) -> Result<(), Fail> {
    let mut mem = Mem::new(rt.alloc());
    mem.add(0xffff_ffff_ffff_fffd, &[1, 2, 3])?;
    let image = Image::of_mem(&mem, 0xffff_ffff_ffff_fffd, 4);
    assert_eq!(rt; image.len(), 4);
    assert!(rt; image.whole().is_none());
    assert!(rt; image.number(0, 3) == Some(0x03_0201));
    assert!(rt; image.number(0, 4).is_none());
    let part = image.part(1, 2);
    assert!(rt; part.whole() == Some([2, 3].as_slice()));
    Ok(())
}

/// A pointer to 0x2000 in one register, and the length 3 in another.
const FILE: &[u8] = b"rdbg-snapshot 1\npc 0x1000\nreg rsi 0x2000\nreg rdi 0x3\n";

/// The one entry of a location, which tells of every program counter but the last.
fn entries(alloc: Global, loc: Loc) -> Result<List<Entry>, Fail> {
    let mut entries = List::new(alloc);
    entries.push(Entry {
        lo: 0,
        hi: u64::MAX,
        loc,
    })?;
    Ok(entries)
}

#[test]
fn a_value_of_64_or_65_bytes_is_borrowed_whole(rt: HostRuntime) -> Result<(), Fail> {
    let snap = read(rt.alloc(), FILE)?;
    for (bytes, size) in [([7u8; 64].as_slice(), 64), ([7u8; 65].as_slice(), 65)] {
        let loc = Loc::Whole(Place::Value(Text::from_bytes(rt.alloc(), bytes)?));
        let entries = entries(rt.alloc(), loc)?;
        let found = locate(rt.alloc(), &entries, size, &snap)?.expect(&rt, "an entry");
        assert!(rt; found.image().whole() == Some(bytes));
    }
    Ok(())
}

/// Eight bytes in each of two registers.
fn halves(alloc: Global) -> Result<Loc, Fail> {
    let mut pieces = List::new(alloc);
    for reg in [Reg::Rsi, Reg::Rdi] {
        let place = Some(Place::Reg(reg));
        pieces.push(Piece { size: 8, place })?;
    }
    Ok(Loc::Pieces(pieces))
}

#[test]
fn the_halves_of_a_slice_may_be_in_two_registers(rt: HostRuntime) -> Result<(), Fail> {
    let snap = read(rt.alloc(), FILE)?;
    let entries = entries(rt.alloc(), halves(rt.alloc())?)?;
    let found = locate(rt.alloc(), &entries, 16, &snap)?.expect(&rt, "an entry");
    let image = found.image();
    assert!(rt; image.whole().is_none());
    assert!(rt; image.part(0, 8).whole() == Some([0, 0x20, 0, 0, 0, 0, 0, 0].as_slice()));
    assert!(rt; image.number(0, 8) == Some(0x2000));
    assert!(rt; image.number(4, 8) == Some(0x3_0000_0000));
    Ok(())
}
