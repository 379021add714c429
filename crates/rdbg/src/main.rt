//! rdbg prints the variables of a paused program.
#![tactic(auto)]

ghost use Rattle.std.specs.Prelude.{◌≡◌, ◌⊎◌, IfErr};

use dbg_command::{Words, run};
use rv_io::{List, RealInputs, RealSink, Text};
use std::env;
use std::io::ErrorKind;
use std::process::ExitCode;
use std::rt::Env;

/// The status where there is no memory to copy the words with.
const NO_MEMORY: u8 = 5;

/// The status where the words can't be read.
const NO_WORDS: u8 = 6;

fn main(rt: HostRuntime) -> ExitCode {
    match words_of(&rt) {
        Ok(words) => {
            let mut inputs = RealInputs::new(&rt);
            let mut out = RealSink::new(rt.stdout());
            let mut err = RealSink::new(rt.stderr());
            ExitCode::from(run(rt.alloc(), &words, &mut inputs, &mut out, &mut err))
        }
        Err(status) => ExitCode::from(status),
    }
}

/// The words without the program's own name, or the status of a run that has none.
fn words_of<R: Env + AllocGlobal>(rt: &R) -> Result<Words, u8>
    // The status tells of want of memory, or of words that can't be read.
    ensures { IfErr result (λ status. (status ≡ 5) ⊎ (status ≡ 6)) }
{
    let args = match env::args(rt) {
        Ok(args) => args,
        Err(e) if e.kind() == ErrorKind::OutOfMemory => return Err(NO_MEMORY),
        Err(_) => return Err(NO_WORDS),
    };
    let mut words = List::new(rt.alloc());
    for arg in args.skip(1) {
        let word = Text::from_bytes(rt.alloc(), arg.as_str().as_bytes()).map_err(|_| NO_MEMORY)?;
        words.push(word).map_err(|_| NO_MEMORY)?;
    }
    Ok(words)
}
