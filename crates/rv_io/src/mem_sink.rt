//! A sink in memory.
ghost use Rattle.std.specs.Prelude.{◌≤◌, vec_len, vec_capacity};

mod room;

use crate::list::List;
use crate::memory::Memory;
use crate::sink::{Failed, Sink};
use room::{append, planned};
use std::alloc::Global;

/// Put number `call`, counted from 0 over the puts of at least one byte, takes its first `taken`
/// bytes, and fails.
#[derive(Clone, Copy, Debug, PartialEq, Eq)]
pub struct Fail {
    pub call: u32,
    pub taken: u32,
}

/// A sink over memory that was taken when it was made. It tells its bytes.
#[derive(Debug, Drop)]
pub struct MemSink {
    bytes: Vec<u8>,
    room: usize,
    failing: List<Fail>,
    calls: u64,
    faults: u64,
    ghost has_room: { room ≤ vec_capacity bytes },
    ghost within: { vec_len bytes ≤ room },
}

impl MemSink {
    ghost use Rattle.std.specs.Prelude.{◌≡◌, IfOk};
    ghost use Rattle.rv_io.specs.MemSink.{written_of, Begins};

    /// A sink that takes `room` bytes. Takes all its memory here.
    pub fn with_room(alloc: Global, room: usize, failing: List<Fail>) -> Result<MemSink, Memory>
        ensures { IfOk result (Begins room failing) }
    {
        let bytes = Vec::with_capacity(alloc, room)?;
        Ok(MemSink {
            bytes,
            room,
            failing,
            calls: 0,
            faults: 0,
        })
    }

    /// The bytes that were taken. Takes no memory.
    pub fn written(&self) -> &[u8]
        ensures { result.now ≡ written_of self.now }
    {
        self.bytes.as_slice()
    }
}

impl Sink for MemSink {
    ghost use Rattle.std.specs.Prelude.{◌≡◌, ◌≤◌, Some, [], OnErr};
    ghost use Rattle.rv_io.specs.Faults.{Rose};
    ghost use Rattle.rv_io.specs.Puts.{Puts};
    ghost use Rattle.rv_io.specs.MemSink.{written_of, faults_of, MemPuts};

    ghost written = { λ s. Some (written_of s) };

    ghost faults = { λ s. faults_of s };

    fn put(&mut self, bytes: &[u8]) -> Result<(), Failed>
        ensures bytes { Puts (Some (written_of self.old)) (Some (written_of self.new)) result bytes.now }
        ensures cause { OnErr result (Rose (faults_of self.old) (faults_of self.new)) }
        ensures later { faults_of self.old ≤ faults_of self.new }
        ensures nothing { bytes.now ≡ [] → result ≡ Ok tt }

        // Beyond the trait: how many bytes are taken, and when it fails.
        ensures exact { MemPuts self.old self.new bytes.now result }
    {
        if bytes.is_empty() {
            return Ok(());
        }
        let call = self.calls;
        self.calls = self.calls.saturating_add(1);
        let free = self.room - self.bytes.len();
        let fit = bytes.len().min(free);
        match planned(self.failing.as_slice(), call) {
            None if fit == bytes.len() => {
                append(&mut self.bytes, bytes);
                Ok(())
            }
            None => {
                append(&mut self.bytes, &bytes[..fit]);
                self.faults = self.faults.saturating_add(1);
                Err(Failed)
            }
            Some(taken) => {
                append(&mut self.bytes, &bytes[..fit.min(taken as usize)]);
                self.faults = self.faults.saturating_add(1);
                Err(Failed)
            }
        }
    }
}
