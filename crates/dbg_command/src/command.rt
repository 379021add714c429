//! The top call.
ghost use Rattle.std.specs.Prelude.{◌≡◌, ℕ, List, IsSome};
ghost use Rattle.std.specs.Io.KnownBytes.{Appends};
ghost use Rattle.dbg_command.specs.Answers.{Answers};
ghost use Rattle.dbg_command.specs.Forms.{form_of};
ghost use Rattle.dbg_command.specs.Runs.{Ends, Says};

use crate::answer::answer;
use crate::stop::{Stop, status, tell};
use rv_io::{Inputs, List, Sink, Text};
use std::alloc::Global;

/// The words of a command line, without the program's own name.
pub type Words = List<Text>;

/// Does all that the program does, and gives its status: 0 with the answer on `out`; 1, 2, 3 and 5
/// with nothing on `out`; 4 with a front of the answer on `out`. Where the status is not 0, a
/// message goes to `err`. That a failure of `err` changes no status is only tested.
pub fn run<I: Inputs, O: Sink, E: Sink>(
    alloc: Global,
    words: &Words,
    inputs: &mut I,
    out: &mut O,
    err: &mut E,
) -> u8
    // One output and one message belong to the words, the files and the status.
    ensures { (output : List ℕ) × (message : List ℕ)
        × Ends (IsSome (form_of words.now)) (I.files inputs.old) (Answers words.now) (I.faults inputs.old) (I.faults inputs.new) (O.faults out.old) (O.faults out.new) result output message
        × Appends (O.written out.old) (O.written out.new) output
        × Says (E.written err.old) (E.written err.new) (E.faults err.old) (E.faults err.new) message }
{
    match answer(alloc, words.as_slice(), inputs) {
        Ok(text) => match out.put(text.as_bytes()) {
            Ok(()) => 0,
            Err(_) => {
                tell(err, Stop::WriteFault);
                4
            }
        },
        Err(stop) => {
            tell(err, stop);
            status(stop)
        }
    }
}
