//! Why a run ends without an answer, and how it says so.
ghost use Rattle.std.specs.Prelude.{◌≡◌, ◌++◌, ◌∷◌, [], decimal};
ghost use Rattle.dbg_command.specs.Stops.{status_of, message, count_word, breach_line, outside_line, section_word};
ghost use Rattle.dbg_command.specs.Runs.{Says, joined};

use itoa::Buffer;
use layout_file::Count;
use layout_set::{Item, Refusal, Section};
use rv_io::{Memory, Sink};

/// Why a run ends without an answer.
#[derive(Clone, Copy)]
pub enum Stop<'a> {
    /// The words are none of the forms.
    Usage,
    /// A line of the layout, counted from 1, breaks a rule.
    LayoutLine { line: u32, rule: u8 },
    /// The layout has too many of these.
    LayoutLimit(Count),
    /// The set of the layout breaks a law, first at this item.
    Breach { law: u8, at: Item },
    /// The bundle, or a section of it, breaks a rule.
    Outside(Refusal),
    /// A line of the snapshot, counted from 1, breaks a rule.
    SnapshotLine { line: u32, rule: u8 },
    /// The memory on this line of the snapshot begins below the end of the memory before.
    SnapshotOverlap(u32),
    /// There is no file of this name.
    CannotOpen(&'a str),
    /// The file of this name is longer than its limit.
    TooManyBytes(&'a str),
    /// The set has functions, of which no sections are written yet.
    NotYet,
    /// A read failed.
    ReadFault,
    /// A write failed.
    WriteFault,
    /// Memory has run out.
    Memory,
}

impl<'a> From<Memory> for Stop<'a> {
    ghost use Rattle.dbg_command.specs.declared.stop.Stop.TheVariants.{Memory as OutOfMemory};

    ghost from_gives = { λ _ e. e ≡ OutOfMemory };

    fn from(_e: Memory) -> Stop<'a> {
        Stop::Memory
    }
}

/// The status of a run that ends so.
pub fn status(stop: Stop<'_>) -> u8
    ensures { result ≡ status_of stop.entry }
{
    match stop {
        Stop::Usage => 2,
        Stop::LayoutLine { .. }
        | Stop::LayoutLimit(_)
        | Stop::Breach { .. }
        | Stop::Outside(_)
        | Stop::SnapshotLine { .. }
        | Stop::SnapshotOverlap(_)
        | Stop::CannotOpen(_)
        | Stop::TooManyBytes(_)
        | Stop::NotYet => 1,
        Stop::ReadFault => 3,
        Stop::WriteFault => 4,
        Stop::Memory => 5,
    }
}

/// Puts the message, or a front of it where a put fails. Takes no memory.
pub fn tell<E: Sink>(err: &mut E, stop: Stop<'_>)
    ensures { Says (E.written err.old) (E.written err.new) (E.faults err.old) (E.faults err.new) (message stop.entry) }
{
    match stop {
        Stop::Usage => tell_text(err, b"rdbg: usage", b""),
        Stop::LayoutLine { line, rule } => tell_numbers(
            err,
            b"rdbg: layout line ",
            line,
            b" rule ",
            u32::from(rule),
        ),
        Stop::LayoutLimit(which) => tell_text(err, b"rdbg: layout limit ", count_word(which)),
        Stop::Breach { law, at } => tell_breach(err, u32::from(law), at),
        Stop::Outside(refusal) => tell_outside(err, refusal),
        Stop::SnapshotLine { line, rule } => tell_numbers(
            err,
            b"rdbg: snapshot line ",
            line,
            b" rule ",
            u32::from(rule),
        ),
        Stop::SnapshotOverlap(line) => tell_number(err, b"rdbg: snapshot overlap ", line, b""),
        Stop::CannotOpen(name) => tell_text(err, b"rdbg: cannot open ", name.as_bytes()),
        Stop::TooManyBytes(name) => tell_text(err, b"rdbg: too many bytes ", name.as_bytes()),
        Stop::NotYet => tell_text(err, b"rdbg: not yet", b""),
        Stop::ReadFault => tell_text(err, b"rdbg: read fault", b""),
        Stop::WriteFault => tell_text(err, b"rdbg: write fault", b""),
        Stop::Memory => tell_text(err, b"rdbg: out of memory", b""),
    }
}

/// What a layout has too many of.
fn count_word(which: Count) -> &'static [u8]
    ensures { result.now ≡ count_word which }
{
    match which {
        Count::Types => b"types",
        Count::Parts => b"parts",
        Count::Variables => b"variables",
    }
}

/// Puts the line of a law that fails, first at this item.
fn tell_breach<E: Sink>(err: &mut E, law: u32, at: Item)
    ensures { Says (E.written err.old) (E.written err.new) (E.faults err.old) (E.faults err.new) (breach_line law at) }
{
    let front = b"rdbg: breach law ";
    match at {
        Item::Whole => tell_number(err, front, law, b" at set"),
        Item::Def(place) => tell_numbers(err, front, law, b" at type ", place),
        Item::Static(place) => tell_numbers(err, front, law, b" at static ", place),
        Item::Func(place) => tell_numbers(err, front, law, b" at fn ", place),
    }
}

/// The name of a section in an object file, or the word for the bundle.
fn section_word(section: Section) -> &'static [u8]
    ensures { result.now ≡ section_word section }
{
    match section {
        Section::Abbrev => b".debug_abbrev",
        Section::Info => b".debug_info",
        Section::Str => b".debug_str",
        Section::LineStr => b".debug_line_str",
        Section::StrOffsets => b".debug_str_offsets",
        Section::Addr => b".debug_addr",
        Section::LocLists => b".debug_loclists",
        Section::RngLists => b".debug_rnglists",
        Section::DebugT => b".debug$T",
        Section::DebugS => b".debug$S",
        Section::Bundle => b"bundle",
    }
}

/// Puts the line of a rule that a section breaks.
fn tell_outside<E: Sink>(err: &mut E, refusal: Refusal)
    ensures { Says (E.written err.old) (E.written err.new) (E.faults err.old) (E.faults err.new) (outside_line refusal) }
{
    let mut digits = Buffer::new();
    let mut others = Buffer::new();
    let section = section_word(refusal.section);
    let offset = digits.format(refusal.offset).as_bytes();
    let rule = others.format(refusal.rule).as_bytes();
    put_parts(
        err,
        &[
            b"rdbg: outside ",
            section,
            b" ",
            offset,
            b" rule ",
            rule,
            b"\n",
        ],
    );
}

/// Puts a line of two texts.
fn tell_text<E: Sink>(err: &mut E, front: &[u8], text: &[u8])
    ensures { Says (E.written err.old) (E.written err.new) (E.faults err.old) (E.faults err.new) (front.now ++ text.now ++ 10 ∷ []) }
{
    put_parts(err, &[front, text, b"\n"]);
}

/// Puts a line of a text, a number and a text.
fn tell_number<E: Sink>(err: &mut E, front: &[u8], number: u32, back: &[u8])
    ensures { Says (E.written err.old) (E.written err.new) (E.faults err.old) (E.faults err.new) (front.now ++ decimal number ++ back.now ++ 10 ∷ []) }
{
    let mut digits = Buffer::new();
    let number = digits.format(number).as_bytes();
    put_parts(err, &[front, number, back, b"\n"]);
}

/// Puts a line of a text, a number, a text and a number.
fn tell_numbers<E: Sink>(err: &mut E, front: &[u8], first: u32, between: &[u8], second: u32)
    ensures { Says (E.written err.old) (E.written err.new) (E.faults err.old) (E.faults err.new) (front.now ++ decimal first ++ between.now ++ decimal second ++ 10 ∷ []) }
{
    let mut digits = Buffer::new();
    let mut others = Buffer::new();
    let first = digits.format(first).as_bytes();
    let second = others.format(second).as_bytes();
    put_parts(err, &[front, first, between, second, b"\n"]);
}

/// Puts texts one after the other, up to the first of which a put fails.
fn put_parts<E: Sink>(err: &mut E, parts: &[&[u8]])
    ensures { Says (E.written err.old) (E.written err.new) (E.faults err.old) (E.faults err.new) (joined parts.now) }
{
    for part in parts {
        let Ok(()) = err.put(part) else {
            return;
        };
    }
}
