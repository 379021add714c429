//! The files and the streams of the system: the trusted edge. Neither tells bytes.
ghost use Rattle.std.specs.Prelude.{◌≡◌, ◌≢◌, IfErr, None, length, take, [], true};
ghost use Rattle.rv_io.specs.declared.inputs.FetchErr.TheVariants.{NoFile};

use crate::buf::Buf;
use crate::inputs::{FetchErr, Inputs};
use crate::sink::{Failed, Sink};
use std::fs;
use std::io::{ErrorKind, Read, Write};
use std::rt::Files;

/// Files of the system, by their paths.
#[derive(Drop)]
pub struct RealInputs<R> {
    rt: R,
    faults: u64,
}

impl<R: Files> RealInputs<R> {
    /// Over the files that the runtime opens. Takes no memory.
    pub fn new(rt: R) -> RealInputs<R>
        ensures { result.faults ≡ 0 }
    {
        RealInputs { rt, faults: 0 }
    }
}

impl<R: Files> Inputs for RealInputs<R> {
    ghost files = { λ _. None };

    ghost faults = { λ s. s.faults };

    fn fetch(&mut self, name: &str, most: usize, into: &mut Buf) -> Result<(), FetchErr> {
        let file = match fs::open(&self.rt, name) {
            Ok(file) => file,
            Err(e) if e.kind() == ErrorKind::OutOfMemory => return Err(FetchErr::Memory),
            Err(_) => return Err(FetchErr::NoFile),
        };
        let start = into.as_bytes().len();
        match read_front(file, most, into) {
            Ok(()) => Ok(()),
            Err(e) => {
                into.truncate(start);
                if e == FetchErr::Failed {
                    self.faults = self.faults.saturating_add(1);
                }
                Err(e)
            }
        }
    }
}

/// Appends the first `most` bytes that the reader gives, or all where it ends before.
fn read_front<F: Read + Drop>(file: F, most: usize, into: &mut Buf) -> Result<(), FetchErr>
    ensures kept { take (length into.old) into.new ≡ into.old }
    ensures causes { IfErr result (λ e. e ≢ NoFile) }
{
    match file.take(most as u64).read_to_end(&mut into.bytes) {
        Ok(_) => Ok(()),
        Err(e) if e.kind() == ErrorKind::OutOfMemory => Err(FetchErr::Memory),
        Err(_) => Err(FetchErr::Failed),
    }
}

/// A writer of the system, as standard output.
#[derive(Drop)]
pub struct RealSink<W> {
    writer: W,
    faults: u64,
}

impl<W: Write> RealSink<W> {
    /// Over the writer. Takes no memory.
    pub fn new(writer: W) -> RealSink<W>
        ensures { result.faults ≡ 0 }
    {
        RealSink { writer, faults: 0 }
    }
}

impl<W: Write> Sink for RealSink<W> {
    ghost written = { λ _. None };

    ghost faults = { λ s. s.faults };

    fn put(&mut self, bytes: &[u8]) -> Result<(), Failed> {
        if write_whole(&mut self.writer, bytes) {
            Ok(())
        } else {
            self.faults = self.faults.saturating_add(1);
            Err(Failed)
        }
    }
}

/// Whether all of the bytes were taken.
fn write_whole<W: Write>(writer: &mut W, bytes: &[u8]) -> bool
    ensures { bytes.now ≡ [] → result ≡ true }
{
    let mut rest = bytes;
    while !rest.is_empty() {
        match writer.write(rest) {
            Ok(0) => return false,
            Ok(count) => rest = &rest[count..],
            Err(_) => return false,
        }
    }
    true
}
