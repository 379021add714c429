//! What takes the bytes that a program writes.
ghost use Rattle.std.specs.Prelude.{◌≡◌, ◌≤◌, ℕ, List, [], Option, OnErr};
ghost use Rattle.rv_io.specs.Faults.{Rose};
ghost use Rattle.rv_io.specs.Puts.{Puts};

use thiserror::Error;

/// A write failed, and was counted.
#[derive(Clone, Copy, Debug, PartialEq, Eq, Error)]
#[error("a write failed")]
pub struct Failed;

/// Takes bytes, and counts the puts that failed.
pub trait Sink {
    /// The bytes that were taken, where they are told.
    ghost written: { Self → Option (List ℕ) };
    /// How often a put has failed. It begins at 0, and saturates at 2^64 - 1.
    ghost faults: { Self → ℕ };

    /// Appends the bytes, or fails after a front of them.
    fn put(&mut self, bytes: &[u8]) -> Result<(), Failed>
        // All bytes were taken, or, where the put failed, a front of them.
        ensures bytes { Puts (written self.old) (written self.new) result bytes.now }

        // A failure is counted, and the count never falls.
        ensures cause { OnErr result (Rose (faults self.old) (faults self.new)) }
        ensures later { faults self.old ≤ faults self.new }

        // A put of no bytes succeeds.
        ensures nothing { bytes.now ≡ [] → result ≡ Ok tt };
}
