//! Buffers, to which bytes are appended.
ghost use Rattle.std.specs.Prelude.{◌≡◌, [], ◌++◌, take, OnOk, OnErr};

use crate::memory::Memory;
use std::alloc::Global;
use std::marker::Model;

/// A buffer of bytes that grows at its end, and that contracts see as the list of its bytes.
#[derive(Debug, Drop)]
pub struct Buf {
    pub(crate) bytes: Vec<u8>,
}

impl Model for Buf {
    ghost use Rattle.std.specs.Prelude.{List, ℕ};

    ghost Value = { List ℕ };

    ghost view = { λ it. it.bytes.items };
}

impl Buf {
    /// The empty buffer. Takes no memory.
    pub fn new(alloc: Global) -> Buf
        ensures { result ≡ [] }
    {
        Buf {
            bytes: Vec::new(alloc),
        }
    }

    /// The bytes of the vector. Takes no memory.
    pub fn from_vec(bytes: Vec<u8>) -> Buf
        ensures { result ≡ bytes.items }
    {
        Buf { bytes }
    }

    /// The vector of the bytes. Takes no memory.
    pub fn into_vec(self) -> Vec<u8>
        ensures { result.items ≡ self }
    {
        let Buf { bytes } = self;
        bytes
    }

    /// The allocator that the buffer grows by.
    pub fn alloc(&self) -> Global {
        *self.bytes.allocator()
    }

    /// Adds the bytes at the end.
    pub fn put(&mut self, bytes: &[u8]) -> Result<(), Memory>
        ensures appended { OnOk result (self.new ≡ self.old ++ bytes.now) }
        ensures same { OnErr result (self.new ≡ self.old) }
    {
        self.bytes.extend_from_slice(bytes)?;
        Ok(())
    }

    /// The bytes. Takes no memory.
    pub fn as_bytes(&self) -> &[u8]
        ensures { result.now ≡ self.now }
    {
        self.bytes.as_slice()
    }

    /// Keeps the first `len` bytes, or all where there are fewer. Takes no memory.
    pub fn truncate(&mut self, len: usize)
        ensures { self.new ≡ take len self.old }
    {
        self.bytes.truncate(len);
    }
}
