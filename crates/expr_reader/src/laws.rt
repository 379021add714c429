//! Theorems on the reading of places, each the contract of a call that does nothing.
ghost use Rattle.rv_bytes.specs.Places.{Place};
ghost use Rattle.expr_eval.specs.Addresses.{Addresses};
ghost use Rattle.expr_bytes.specs.declared.place.Frame.{Frame};
ghost use Rattle.expr_reader.specs.OneReading.{HasOneReading};
ghost use Rattle.expr_reader.specs.ReadBack.{AreReadBack};

/// Bytes from a place on say at most one place, which ends in one way, or have one first fault, and never both.
pub fn bytes_have_one_reading()
    ensures { (frame : Frame) (addrs : Addresses) (old : Place) → HasOneReading frame addrs old }
{}

/// What `put_ops` appended is read by `read_ops` as the place as which its operations are read, if memory suffices.
pub fn what_was_put_is_read_back()
    ensures { AreReadBack }
{}
