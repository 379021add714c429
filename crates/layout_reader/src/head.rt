//! The first two lines of a layout file.
ghost use Rattle.std.specs.Prelude.{◌≡◌, ◌++◌, Some};
ghost use Rattle.std.specs.Option.{option_map};
ghost use Rattle.layout_reader.specs.Heads.{HeadRead, VersionRead, TargetRead, version_of, target_of};
ghost use Rattle.layout_words.specs.Steps.{Read};

use crate::layout_err::LayoutErr;
use crate::reader::Reading;
use crate::refusal::{refuse, refuse_end};
use layout_rules::Front;
use layout_set::{Set, Target};
use layout_words::{Stop, Words};
use readers::cut_line;
use rv_io::List;
use std::alloc::Global;

/// The empty set for the target of the first two lines, and what follows these.
pub(crate) fn read_head(alloc: Global, bytes: &[u8]) -> Result<(Reading, &[u8]), LayoutErr>
    ensures { HeadRead bytes.now result }
{
    let rest = read_version(alloc, bytes)?;
    let (ptr, rest) = read_target(alloc, rest)?;
    let set = Set {
        target: Target { ptr },
        types: List::new(alloc),
        statics: List::new(alloc),
        funcs: List::new(alloc),
    };
    let reading = Reading {
        set,
        open_entry: None,
        parts: 0,
        variables: 0,
        lines: 2,
    };
    Ok((reading, rest))
}

/// What follows the first line.
fn read_version(alloc: Global, bytes: &[u8]) -> Result<&[u8], LayoutErr>
    ensures { VersionRead bytes.now result }
{
    let Some((line, rest)) = cut_line(bytes) else {
        return Err(refuse_end(0, bytes));
    };
    match version_of(line) {
        Ok(()) => Ok(rest),
        Err(Stop::Unfit) => Err(refuse(alloc, Front::First, 0, line)),
        Err(Stop::Memory) => Err(LayoutErr::Memory),
    }
}

/// The size of a pointer in the second line, and what follows the line.
fn read_target(alloc: Global, bytes: &[u8]) -> Result<(u8, &[u8]), LayoutErr>
    ensures { TargetRead bytes.now result }
{
    let Some((line, rest)) = cut_line(bytes) else {
        return Err(refuse_end(1, bytes));
    };
    match target_of(line) {
        Ok(ptr) => Ok((ptr, rest)),
        Err(Stop::Unfit) => Err(refuse(alloc, Front::Second, 1, line)),
        Err(Stop::Memory) => Err(LayoutErr::Memory),
    }
}

/// `rdbg-layout 1`
#[tactic(auto, unfolding(crate::specs::Heads::version_of))]
fn version_of(line: &[u8]) -> Result<(), Stop>
    ensures { Read (version_of line.now) result }
{
    let mut words = Words::new(line);
    if words.next_word()? != b"rdbg-layout".as_slice() {
        return Err(Stop::Unfit);
    }
    if words.next_word()? != b"1".as_slice() {
        return Err(Stop::Unfit);
    }
    words.end()
}

/// `target N`
#[tactic(auto, unfolding(crate::specs::Heads::target_of))]
fn target_of(line: &[u8]) -> Result<u8, Stop>
    ensures { Read (target_of line.now) result }
{
    let mut words = Words::new(line);
    if words.next_word()? != b"target".as_slice() {
        return Err(Stop::Unfit);
    }
    let ptr = words.number_u8()?;
    words.end()?;
    Ok(ptr)
}
