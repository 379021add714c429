//! Memory: bytes at addresses, in one buffer.
ghost use Rattle.std.specs.Prelude.{◌≡◌, ℕ, ◌+◌, ◌-◌, ◌^◌, ◌≤◌, ◌<◌, [], ◌∷◌, ◌++◌, length, slice_index_or, OnOk, OnErr, None, true, false};
ghost use Rattle.std.specs.Option.{option_copied};
ghost use Rattle.std.specs.List.Sorted.{IsNonDecreasingBy, IsPartitionPoint};
ghost use Rattle.snapshot_file.specs.Memory.{byte_at, bytes_of, items_at, AreApart};
ghost use Rattle.snapshot_file.specs.Spans.{run_of, runs_of, abuts, longer, Fill, IsRest, with_run, with_bytes, last_end};

use rv_io::Memory;
use std::alloc::Global;
use std::marker::Model;

/// A run of bytes from the address `at` on, as `len` bytes of the buffer from `start` on.
#[derive(Clone, Copy, Debug)]
struct Span {
    at: u64,
    start: usize,
    len: usize,
}

/// Bytes at addresses, which contracts see as runs that rise and don't abut.
#[derive(Debug, Drop)]
pub struct Mem {
    buffer: Vec<u8>,
    spans: Vec<Span>,
}

impl Model for Mem {
    ghost use Rattle.std.specs.Prelude.{List, length};
    ghost use Rattle.snapshot_file.specs.Memory.{Run, AreApart};

    ghost Value = { List Run };

    ghost use Rattle.snapshot_file.specs.Spans.{runs_of, Fill};

    ghost view = { λ m. runs_of m.buffer.items m.spans.items };

    ghost invariant = { λ m. AreApart (runs_of m.buffer.items m.spans.items) × Fill 0 m.spans.items (length m.buffer.items) };
}

/// How many spans begin at or below the address, where they rise.
fn begun(spans: &[Span], at: u64) -> usize
    requires { IsNonDecreasingBy (λ s. s.at) spans.now }
    ensures parted { IsPartitionPoint (λ s. s.at ≤ at) (λ s. at < s.at) spans.now result }
    ensures count { result ≤ length spans.now }
{
    spans.partition_point(|span| span.at <= at)
}

/// The bytes of a span.
fn part(buffer: &[u8], span: Span) -> &[u8]
    requires { span.start + span.len ≤ length buffer.now }
    ensures { result.now ≡ (run_of buffer.now span).bytes }
{
    &buffer[span.start..span.start + span.len]
}

/// What stands from the address on to the end of its run.
fn rest_of<'a>(buffer: &'a [u8], spans: &[Span], at: u64) -> &'a [u8]
    requires apart { AreApart (runs_of buffer.now spans.now) }
    requires filled { Fill 0 spans.now (length buffer.now) }
    ensures { IsRest (runs_of buffer.now spans.now) at result.now }
{
    let place = begun(spans, at);
    if place == 0 {
        return &[];
    }
    let span = spans[place - 1];
    let run = part(buffer, span);
    let off = at - span.at;
    if off < run.len() as u64 {
        &run[off as usize..]
    } else {
        &[]
    }
}

/// The end of the last run, or 0 where there is none.
fn end_of(buffer: &[u8], spans: &[Span]) -> u128
    requires apart { AreApart (runs_of buffer.now spans.now) }
    requires filled { Fill 0 spans.now (length buffer.now) }
    ensures last { result ≡ last_end (runs_of buffer.now spans.now) }
    ensures none { (a : ℕ) → result ≤ a → byte_at (runs_of buffer.now spans.now) a ≡ None }
{
    match spans.last() {
        Some(span) => u128::from(span.at) + part(buffer, *span).len() as u128,
        None => 0,
    }
}

/// Whether the last run ends at the address.
fn abuts(spans: &[Span], at: u64) -> bool
    ensures { result ≡ abuts spans.now at }
{
    match spans.last() {
        Some(span) => at.checked_sub(span.at) == Some(span.len as u64),
        None => false,
    }
}

/// Puts the bytes after those of the last run.
fn extend_run(buffer: &mut Vec<u8>, spans: &mut Vec<Span>, bytes: &[u8]) -> Result<(), Memory>
    requires some { 0 < length spans.old.items }
    requires filled { Fill 0 spans.old.items (length buffer.old.items) }
    ensures run { OnOk result ((at : ℕ) → abuts spans.old.items at ≡ true → runs_of buffer.new.items spans.new.items ≡ with_run (runs_of buffer.old.items spans.old.items) (record { at = at; bytes = bytes.now })) }
    ensures filled { Fill 0 spans.new.items (length buffer.new.items) }
    ensures same { OnErr result ((buffer.new.items ≡ buffer.old.items) × (spans.new.items ≡ spans.old.items)) }
{
    buffer.extend_from_slice(bytes)?;
    let last = spans.len() - 1;
    spans[last].len += bytes.len();
    Ok(())
}

/// Puts the bytes as a run of their own.
fn push_run(
    buffer: &mut Vec<u8>,
    spans: &mut Vec<Span>,
    at: u64,
    bytes: &[u8],
) -> Result<(), Memory>
    requires filled { Fill 0 spans.old.items (length buffer.old.items) }
    requires apart { abuts spans.old.items at ≡ false }
    ensures run { OnOk result (runs_of buffer.new.items spans.new.items ≡ with_run (runs_of buffer.old.items spans.old.items) (record { at = at; bytes = bytes.now })) }
    ensures filled { Fill 0 spans.new.items (length buffer.new.items) }
    ensures same { OnErr result ((buffer.new.items ≡ buffer.old.items) × (spans.new.items ≡ spans.old.items)) }
{
    let start = buffer.len();
    let span = Span {
        at,
        start,
        len: bytes.len(),
    };
    buffer.extend_from_slice(bytes)?;
    match spans.push(span) {
        Ok(()) => Ok(()),
        Err(_) => {
            buffer.truncate(start);
            Err(Memory)
        }
    }
}

/// Puts the bytes after those that are there, joined to the last run where they abut.
fn put_run(buffer: &mut Vec<u8>, spans: &mut Vec<Span>, at: u64, bytes: &[u8]) -> Result<(), Memory>
    requires filled { Fill 0 spans.old.items (length buffer.old.items) }
    ensures run { OnOk result (runs_of buffer.new.items spans.new.items ≡ with_run (runs_of buffer.old.items spans.old.items) (record { at = at; bytes = bytes.now })) }
    ensures filled { Fill 0 spans.new.items (length buffer.new.items) }
    ensures same { OnErr result ((buffer.new.items ≡ buffer.old.items) × (spans.new.items ≡ spans.old.items)) }
{
    if abuts(spans, at) {
        extend_run(buffer, spans, bytes)
    } else {
        push_run(buffer, spans, at, bytes)
    }
}

impl Mem {
    /// Memory without a byte. Takes no memory.
    pub fn new(alloc: Global) -> Mem
        ensures { result ≡ [] }
    {
        Mem {
            buffer: Vec::new(alloc),
            spans: Vec::new(alloc),
        }
    }

    /// Adds the bytes from the address on. Every address that is there is below it.
    pub fn add(&mut self, at: u64, bytes: &[u8]) -> Result<(), Memory>
        requires fits { at + length bytes.now ≤ 2 ^ 64 }
        requires behind { (a : ℕ) → at ≤ a → byte_at self.old a ≡ None }
        ensures added { OnOk result ((a : ℕ) → byte_at self.new a ≡ byte_at (record { at = at; bytes = bytes.now } ∷ self.old) a) }
        ensures exact { OnOk result (self.new ≡ with_bytes self.old at bytes.now) }
        ensures apart { AreApart self.new }
        ensures same { OnErr result (self.new ≡ self.old) }
    {
        let _ = &self.buffer;
        if bytes.is_empty() {
            return Ok(());
        }
        put_run(&mut self.buffer, &mut self.spans, at, bytes)?;
        Ok(())
    }

    /// The end of the last run, or 0 where there is none: no byte stands from there on.
    pub(crate) fn end(&self) -> u128
        ensures last { result ≡ last_end self.now }
        ensures none { (a : ℕ) → result ≤ a → byte_at self.now a ≡ None }
    {
        end_of(self.buffer.as_slice(), self.spans.as_slice())
    }

    /// What stands from the address on to the end of its run.
    fn rest(&self, at: u64) -> &[u8]
        ensures { IsRest self.now at result.now }
    {
        rest_of(self.buffer.as_slice(), self.spans.as_slice(), at)
    }

    /// The byte at the address. Takes no memory.
    pub fn byte(&self, at: u64) -> Option<u8>
        ensures { result ≡ byte_at self.now at }
    {
        self.rest(at).first().copied()
    }

    /// The `len` bytes from the address on; None exactly where one of them is missing or `at + len` is above 2^64.
    /// Takes no memory.
    pub fn bytes(&self, at: u64, len: u64) -> Option<&[u8]>
        ensures { option_copied result ≡ bytes_of (items_at self.now at len) }
    {
        let rest = self.rest(at);
        if len <= rest.len() as u64 {
            Some(&rest[..len as usize])
        } else {
            None
        }
    }
}
