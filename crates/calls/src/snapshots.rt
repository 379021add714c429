//! Registers and memory of a snapshot.
use snapshot_file::{Mem, Reg, Snapshot, read};
use std::test::Fail;

#[test]
fn a_whole_file_is_read(rt: HostRuntime) -> Result<(), Fail> {
    let file =
        b"rdbg-snapshot 1\npc 0x401000\ncfa 0x7ff0\nreg rsi 0x2\nreg rdi 0x3000\nreg xmm1 0x100000000000000000000000000000ff\nmem 0x10 00aB\nmem 0x12 ff\nmem 0x20 01\nmem 0xffffffffffffffff 7f\n";
    let Snapshot { pc, cfa, regs, mem } = read(rt.alloc(), file)?;
    assert_eq!(rt; pc, 0x40_1000);
    assert!(rt; cfa == Some(0x7ff0));
    assert!(rt; regs.bytes(Reg::Rdi) == Some([0, 0x30, 0, 0, 0, 0, 0, 0].as_slice()));
    assert!(rt; regs.bytes(Reg::Rax).is_none());
    let wide = [0xff, 0, 0, 0, 0, 0, 0, 0, 0, 0, 0, 0, 0, 0, 0, 0x10];
    assert!(rt; regs.bytes(Reg::Xmm1) == Some(wide.as_slice()));
    assert_eq!(rt; Reg::Xmm1.width(), 16);
    assert!(rt; mem.bytes(0x10, 3) == Some([0, 0xab, 0xff].as_slice()));
    assert!(rt; mem.bytes(0x11, 3).is_none());
    assert!(rt; mem.bytes(0x13, 0) == Some([].as_slice()));
    assert!(rt; mem.byte(0x20) == Some(1));
    assert!(rt; mem.bytes(u64::MAX, 1) == Some([0x7f].as_slice()));
    assert!(rt; mem.bytes(u64::MAX, 2).is_none());
    Ok(())
}

#[test]
fn bytes_are_added_after_those_before(rt: HostRuntime) -> Result<(), Fail> {
    let mut mem = Mem::new(rt.alloc());
    mem.add(5, &[1, 2])?;
    assert!(rt; mem.bytes(5, 2) == Some([1, 2].as_slice()));
    assert!(rt; mem.byte(7).is_none());
    Ok(())
}
