//! Whole layout files, read line by line.
ghost use Rattle.std.specs.Prelude.{◌≡◌, ◌≢◌, true, length, Some, None, IfOk};
ghost use Rattle.layout_reader.specs.Claims.{IsReading};
ghost use Rattle.layout_set.specs.IsSet.{IsSet};
ghost use Rattle.layout_rules.specs.Faults.{behind};
ghost use Rattle.layout_rules.specs.LineRules.{rule_of};
ghost use Rattle.layout_lines.specs.Lines.{kind_of_line, IsLine};
ghost use Rattle.layout_lines.specs.ReadLines.{line_of};
ghost use Rattle.layout_lines.specs.Sets.{may_follow};
ghost use Rattle.layout_reader.specs.Progress.{IsState, GoesOn, Adds, IsExceeded, Refuses, Ends};

use crate::head::read_head;
use crate::layout_err::{Count, LayoutErr};
use crate::refusal::{refuse, refuse_end};
use layout_builder::{added, parts_in, types_in, variables_in};
use layout_lines::{Line, OpenEntry, kind_of, line_of, may_follow};
use layout_rules::Front;
use layout_set::Set;
use layout_words::Stop;
use readers::cut_line;
use std::alloc::Global;

/// How many types a set may have.
const MOST_TYPES: usize = 20_000;

/// How many params, fields, cases, variants, scopes, zones, entries, pieces and operations a set may have together.
const MOST_PARTS: usize = 40_000;

/// How many statics and variables of functions a set may have together.
const MOST_VARIABLES: usize = 20_000;

/// A set and the entry that stands open behind it, whose text was read, how many parts and variables they have, and how
/// many lines their text has.
#[derive(Drop)]
pub(crate) struct Reading {
    pub(crate) set: Set,
    pub(crate) open_entry: Option<OpenEntry>,
    pub(crate) parts: usize,
    pub(crate) variables: usize,
    pub(crate) lines: u32,
}

/// The set that the file spells, or its first fault.
pub fn read(alloc: Global, bytes: &[u8]) -> Result<Set, LayoutErr>
    ensures reading { IsReading bytes.now result }

    // The names of the set are names of Rust or raw texts.
    ensures set { IfOk result IsSet }
{
    let (mut reading, mut rest) = read_head(alloc, bytes)?;
    while let Some((line, more)) = cut_line(rest) {
        reading = read_line(alloc, reading, line)?;
        rest = more;
    }
    if is_over(&reading, rest) {
        Ok(reading.set)
    } else {
        Err(refuse_end(reading.lines, rest))
    }
}

/// Whether the file may end there, before these bytes.
fn is_over(reading: &Reading, rest: &[u8]) -> bool
    ensures { Ends reading.now rest.now result }
{
    rest.is_empty() && reading.open_entry.is_none()
}

/// The set and the entry that stands open with the line behind their text.
fn read_line(alloc: Global, reading: Reading, line: &[u8]) -> Result<Reading, LayoutErr>
    requires { IsState reading }
    ensures { GoesOn reading line.now result }
{
    let next = reading.set.types.as_slice().len() as u32;
    match line_of(alloc, next, line) {
        Ok(read) => add_read(alloc, reading, read, line),
        Err(Stop::Unfit) => Err(refuse_behind(alloc, &reading, line)),
        Err(Stop::Memory) => Err(LayoutErr::Memory),
    }
}

/// The set and the entry that stands open with the line, if it may follow.
fn add_read(alloc: Global, reading: Reading, read: Line, line: &[u8]) -> Result<Reading, LayoutErr>
    requires state { IsState reading }
    requires read { line_of (length reading.set.types) line.now ≡ Some read }
    ensures { GoesOn reading line.now result }
{
    if follows(&reading, &read) {
        add(alloc, reading, read)
    } else {
        Err(refuse_behind(alloc, &reading, line))
    }
}

/// Whether the line may follow.
fn follows(reading: &Reading, line: &Line) -> bool
    ensures { result ≡ may_follow reading.now.set reading.now.open_entry (kind_of_line line.now) }
{
    may_follow(&reading.set, reading.open_entry.as_ref(), kind_of(line))
}

/// Why the line is refused that follows their text.
fn refuse_behind(alloc: Global, reading: &Reading, line: &[u8]) -> LayoutErr
    requires { rule_of (behind reading.now.set reading.now.open_entry) line.now ≢ None }
    ensures { Refuses (behind reading.now.set reading.now.open_entry) reading.now.lines line.now result }
{
    let front = Front::Behind(&reading.set, reading.open_entry.as_ref());
    refuse(alloc, front, reading.lines, line)
}

/// The set and the entry that stands open with the line, if there are not too many of anything then.
fn add(alloc: Global, reading: Reading, line: Line) -> Result<Reading, LayoutErr>
    requires state { IsState reading }
    requires follows { may_follow reading.set reading.open_entry (kind_of_line line) ≡ true }
    requires line { IsLine line }
    ensures { Adds reading line result }
{
    match exceeded(&reading, &line) {
        Some(which) => return Err(LayoutErr::Limit { which }),
        None => {}
    }
    let parts = reading.parts + parts_in(&line);
    let variables = reading.variables + variables_in(&line);
    let lines = reading.lines.saturating_add(1);
    let (set, open_entry) = added(alloc, reading.set, reading.open_entry, line)?;
    Ok(Reading {
        set,
        open_entry,
        parts,
        variables,
        lines,
    })
}

/// What there would be too many of with the line.
fn exceeded(reading: &Reading, line: &Line) -> Option<Count>
    ensures { IsExceeded reading.now line.now result }
{
    let types = reading.set.types.as_slice().len();
    if types.saturating_add(types_in(line)) > MOST_TYPES {
        return Some(Count::Types);
    }
    if reading.parts.saturating_add(parts_in(line)) > MOST_PARTS {
        return Some(Count::Parts);
    }
    if reading.variables.saturating_add(variables_in(line)) > MOST_VARIABLES {
        return Some(Count::Variables);
    }
    None
}
