//! The members of a field list.
ghost use Rattle.std.specs.Prelude.{◌≡◌, Some};
ghost use Rattle.rv_bytes.specs.Readers.{with_value};
ghost use Rattle.rv_bytes.specs.Results.{Reads};
ghost use Rattle.cv_parts.specs.RecordReaders.{read_all};
ghost use Rattle.cv_type_records.specs.Members.{kept};
ghost use Rattle.cv_type_records.specs.MemberReaders.{read_start, read_index, read_enumerate, read_field, read_static, read_nest, read_by_leaf, read_member};

use crate::kinds::Member;
use crate::leaves::{MemberLeaf, member_leaf_of};
use cv_parts::rule::UNKNOWN_MEMBER;
use cv_parts::{read_name, refused};
use rv_bytes::rule::SHORT;
use rv_bytes::{Cut, DwErr};
use rv_io::List;
use std::alloc::Global;

/// A pad byte is this number and the count of bytes of the pad, itself among them.
const PAD: u8 = 0xf0;

/// What a member begins with: its leaf, or None at a pad, which is passed over.
fn read_start(cut: &mut Cut<'_>) -> Result<Option<MemberLeaf>, DwErr>
    ensures { Reads (read_start cut.old.at cut.old.rest) result cut.new }
{
    let at = cut.at();
    let low = cut.u8()?;
    if low > PAD {
        let Ok(_) = cut.take(usize::from(low - PAD - 1)) else {
            return Err(refused(at, SHORT));
        };
        return Ok(None);
    }
    let Ok(high) = cut.u8() else {
        return Err(refused(at, SHORT));
    };
    match member_leaf_of(u16::from(low) + 256 * u16::from(high)) {
        Some(leaf) => Ok(Some(leaf)),
        None => Err(refused(at, UNKNOWN_MEMBER)),
    }
}

/// LF_INDEX after its leaf.
fn read_index(cut: &mut Cut<'_>) -> Result<Member, DwErr>
    ensures { Reads (read_index cut.old.at cut.old.rest) result cut.new }
{
    let zero = cut.u16()?;
    let fields = cut.u32()?;
    Ok(Member::Index { zero, fields })
}

/// LF_ENUMERATE after its leaf.
fn read_enumerate(alloc: Global, cut: &mut Cut<'_>) -> Result<Member, DwErr>
    ensures { Reads (read_enumerate cut.old.at cut.old.rest) result cut.new }
{
    let attributes = cut.u16()?;
    let number = cut.numeric()?;
    let name = read_name(alloc, cut)?;
    Ok(Member::Enumerate {
        attributes,
        number,
        name,
    })
}

/// LF_MEMBER after its leaf.
fn read_field(alloc: Global, cut: &mut Cut<'_>) -> Result<Member, DwErr>
    ensures { Reads (read_field cut.old.at cut.old.rest) result cut.new }
{
    let attributes = cut.u16()?;
    let ty = cut.u32()?;
    let offset = cut.numeric()?;
    let name = read_name(alloc, cut)?;
    Ok(Member::Field {
        attributes,
        ty,
        offset,
        name,
    })
}

/// LF_STMEMBER after its leaf.
fn read_static(alloc: Global, cut: &mut Cut<'_>) -> Result<Member, DwErr>
    ensures { Reads (read_static cut.old.at cut.old.rest) result cut.new }
{
    let attributes = cut.u16()?;
    let ty = cut.u32()?;
    let name = read_name(alloc, cut)?;
    Ok(Member::Static {
        attributes,
        ty,
        name,
    })
}

/// LF_NESTTYPE after its leaf.
fn read_nest(alloc: Global, cut: &mut Cut<'_>) -> Result<Member, DwErr>
    ensures { Reads (read_nest cut.old.at cut.old.rest) result cut.new }
{
    let zero = cut.u16()?;
    let ty = cut.u32()?;
    let name = read_name(alloc, cut)?;
    Ok(Member::Nest { zero, ty, name })
}

/// A member after its leaf.
fn read_by_leaf(alloc: Global, cut: &mut Cut<'_>, leaf: MemberLeaf) -> Result<Member, DwErr>
    ensures { Reads (read_by_leaf leaf cut.old.at cut.old.rest) result cut.new }
{
    match leaf {
        MemberLeaf::Index => read_index(cut),
        MemberLeaf::Enumerate => read_enumerate(alloc, cut),
        MemberLeaf::Field => read_field(alloc, cut),
        MemberLeaf::Static => read_static(alloc, cut),
        MemberLeaf::Nest => read_nest(alloc, cut),
    }
}

/// The next member; None at a pad.
fn read_member(alloc: Global, cut: &mut Cut<'_>) -> Result<Option<Member>, DwErr>
    ensures { Reads (read_member cut.old.at cut.old.rest) result cut.new }
{
    match read_start(cut)? {
        Some(leaf) => Ok(Some(read_by_leaf(alloc, cut, leaf)?)),
        None => Ok(None),
    }
}

/// The members up to the end of the bytes, without the pads.
pub(crate) fn read_members(alloc: Global, cut: &mut Cut<'_>) -> Result<List<Member>, DwErr>
    ensures { Reads (with_value kept (read_all (λ _. read_member) cut.old.at cut.old.rest)) result cut.new }
{
    let mut members = List::new(alloc);
    while cut.left() > 0 {
        let Some(member) = read_member(alloc, cut)? else {
            continue;
        };
        members.push(member)?;
    }
    Ok(members)
}
