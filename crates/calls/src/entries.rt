//! Trees of entries: two units of seven entries, worked by hand, and entries that are nested as deep as may be.
use entry_tree::{Node, Tree, TreeErr};
use std::alloc::Global;
use std::test::Fail;

/// An entry: the number of its parent, offset, unit, code and DW_TAG (DWARF 5, table 7.3).
type Row = (Option<u32>, u64, u32, u64, u64);

/// Two units: a function with a parameter and a variable, beside a type; and one variable.
const ROWS: [Row; 7] = [
    (None, 0x0c, 0, 1, 0x11),
    (Some(0), 0x2a, 0, 2, 0x2e),
    (Some(1), 0x43, 0, 3, 0x05),
    (Some(1), 0x4e, 0, 4, 0x34),
    (Some(0), 0x59, 0, 5, 0x24),
    (None, 0x6c, 1, 1, 0x11),
    (Some(5), 0x8a, 1, 4, 0x34),
];

/// The number of an entry more.
fn put(tree: &mut Tree, row: Row) -> Result<u32, Fail> {
    let (under, offset, unit, code, tag) = row;
    if !tree.may_push(under, offset) {
        return Err(Fail::new("no entry may come there"));
    }
    Ok(tree.push(under, offset, unit, code, tag)?)
}

/// Adds the entries of the two units.
fn put_rows(tree: &mut Tree) -> Result<(), Fail> {
    for row in ROWS {
        put(tree, row)?;
    }
    Ok(())
}

/// The first child and the next sibling of each entry, by hand.
const LINKS: [(Option<u32>, Option<u32>); 7] = [
    (Some(1), Some(5)),
    (Some(2), Some(4)),
    (None, Some(3)),
    (None, None),
    (None, None),
    (Some(6), None),
    (None, None),
];

/// Numbers, and the children that they have. There is no entry 7.
const CHILDREN: [(u32, &[u32]); 9] = [
    (0, &[1, 4]),
    (1, &[2, 3]),
    (2, &[]),
    (3, &[]),
    (4, &[]),
    (5, &[6]),
    (6, &[]),
    (7, &[]),
    (0xffff_ffff, &[]),
];

/// Offsets, and the entries that begin there.
const OFFSETS: [(u64, Option<u32>); 13] = [
    (0x0c, Some(0)),
    (0x2a, Some(1)),
    (0x43, Some(2)),
    (0x4e, Some(3)),
    (0x59, Some(4)),
    (0x6c, Some(5)),
    (0x8a, Some(6)),
    (0x00, None),
    (0x0b, None),
    (0x2b, None),
    (0x58, None),
    (0x8b, None),
    (0xffff_ffff_ffff_ffff, None),
];

/// Parents and offsets, and whether an entry may come there after the seven.
const PLACES: [(Option<u32>, u64, bool); 9] = [
    (None, 0x8b, true),
    (Some(5), 0x8b, true),
    (Some(6), 0x8b, true),
    (None, 0x8a, false),
    (Some(6), 0x89, false),
    (Some(0), 0x8b, false),
    (Some(4), 0x8b, false),
    (Some(7), 0x8b, false),
    (Some(0xffff_ffff), 0x8b, false),
];

#[test]
fn seven_entries_have_the_links_of_their_parents(rt: HostRuntime) -> Result<(), Fail> {
    let mut tree = Tree::new(rt.alloc());
    tree.reserve(7)?;
    assert!(rt; tree.is_empty());
    put_rows(&mut tree)?;
    assert!(rt; tree.len() == 7 && !tree.is_empty());
    for (number, ((up, offset, unit, code, tag), (first, next))) in (0..7).zip(
        ROWS.iter().zip(&LINKS),
    ) {
        let wanted = Node {
            offset: *offset,
            unit: *unit,
            code: *code,
            tag: *tag,
            first: *first,
            next: *next,
            up: *up,
        };
        assert!(rt; tree.entry(number).copied() == Some(wanted), "{number}");
    }
    assert!(rt; tree.entry(7).is_none());
    Ok(())
}

#[test]
fn children_come_in_order(rt: HostRuntime) -> Result<(), Fail> {
    let mut tree = Tree::new(rt.alloc());
    put_rows(&mut tree)?;
    for (number, wanted) in CHILDREN {
        let mut left = wanted.iter();
        for child in tree.children(number) {
            assert!(rt; left.next() == Some(&child), "{child} of {number}");
        }
        assert!(rt; left.next().is_none(), "{number}");
    }
    Ok(())
}

#[test]
fn an_entry_is_found_where_it_begins(rt: HostRuntime) -> Result<(), Fail> {
    let mut tree = Tree::new(rt.alloc());
    assert!(rt; tree.at_offset(0).is_none());
    put_rows(&mut tree)?;
    for (offset, wanted) in OFFSETS {
        assert!(rt; tree.at_offset(offset) == wanted, "{offset}");
    }
    Ok(())
}

#[test]
fn an_entry_may_come_on_the_way_from_the_last(rt: HostRuntime) -> Result<(), Fail> {
    let mut tree = Tree::new(rt.alloc());
    assert!(rt; tree.may_push(None, 0) && !tree.may_push(Some(0), 0));
    put_rows(&mut tree)?;
    for (under, offset, wanted) in PLACES {
        assert!(rt; tree.may_push(under, offset) == wanted, "{offset}");
    }
    Ok(())
}

/// Entries of which each is the child of the one before, and has its number as offset.
fn chain(alloc: Global, count: u32) -> Result<Tree, Fail> {
    let mut tree = Tree::new(alloc);
    for number in 0..count {
        put(
            &mut tree,
            (number.checked_sub(1), u64::from(number), 0, 1, 0x0b),
        )?;
    }
    Ok(tree)
}

#[test]
fn the_entry_of_depth_257_is_refused(rt: HostRuntime) -> Result<(), Fail> {
    let mut tree = chain(rt.alloc(), 256)?;
    assert!(rt; tree.may_push(Some(255), 256));
    assert!(rt; tree.push(Some(255), 256, 0, 1, 0x0b) == Err(TreeErr::Deep));
    assert!(rt; tree.len() == 256 && tree.children(255).next().is_none());
    assert!(rt; put(&mut tree, (Some(254), 256, 0, 1, 0x0b))? == 256);
    assert!(rt; put(&mut tree, (None, 257, 0, 1, 0x0b))? == 257);
    let mut children = tree.children(254);
    assert!(rt;
        children.next() == Some(255) && children.next() == Some(256) && children.next().is_none()
    );
    Ok(())
}
