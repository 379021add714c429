//! One case: the program over files and sinks in memory, or a public call; and how it ends otherwise than wanted.
use crate::calls::{self, Stopped, refused_pairs};
use crate::setting::{Call, Faults, Setting};
use crate::verdict::{Output, Verdict};
use case_tables::{Mistake, Named, tell_difference};
use dbg_command::{Words, run};
use rv_io::{Buf, File, List, MemInputs, MemSink, Memory, Text};
use std::alloc::{AllocError, Global};

/// How many bytes a run may print.
const OUT_ROOM: usize = 0x20000;

/// How many bytes a message may have.
const ERR_ROOM: usize = 0x1000;

/// How a case ends.
#[derive(Drop)]
struct Ended {
    status: u8,
    out: Text,
    err: Text,
}

/// How the case ends otherwise than its verdict says; nothing where it ends so.
pub fn complaint(
    alloc: Global,
    setting: &Setting,
    faults: Faults,
    verdict: &Verdict,
) -> Result<String, Mistake> {
    let ended = match setting.call {
        Call::Run => run_program(alloc, setting, faults)?,
        call => run_call(alloc, setting, call)?,
    };
    let mut told = String::new(alloc);
    tell_status(&mut told, verdict.status, ended.status)?;
    tell_out(&mut told, &verdict.out, setting, ended.out.as_bytes())?;
    tell_difference(&mut told, "err", verdict.message(), ended.err.as_bytes())?;
    if matches!(setting.call, Call::Run) {
        calls::tell_soundness(alloc, &mut told, setting, verdict)?;
    }
    Ok(told)
}

/// Runs the program over the words and files.
fn run_program(alloc: Global, setting: &Setting, faults: Faults) -> Result<Ended, Memory> {
    let words = words_of(alloc, setting.words.as_slice())?;
    let mut inputs = MemInputs::new(files_of(alloc, setting.files.as_slice())?, faults.reads);
    let mut out = MemSink::with_room(alloc, OUT_ROOM, faults.outs)?;
    let mut err = MemSink::with_room(alloc, ERR_ROOM, faults.errs)?;
    let status = run(alloc, &words, &mut inputs, &mut out, &mut err);
    Ok(Ended {
        status,
        out: Text::from_bytes(alloc, out.written())?,
        err: Text::from_bytes(alloc, err.written())?,
    })
}

/// Makes the call over the files that the words name.
fn run_call(alloc: Global, setting: &Setting, call: Call) -> Result<Ended, Mistake> {
    let first = setting.file_at(0);
    let second = setting.file_at(1);
    let given = match call {
        Call::Run => Err(Stopped::Refused("not a call\n")),
        Call::Write => calls::write_again(alloc, first),
        Call::Lines => calls::sound_lines(alloc, first, second),
        Call::Abutting => refused_pairs(alloc, first, second),
    };
    outcome(alloc, given)
}

/// A call ends with status 0 and what it gives, or with status 1 and why it gives nothing.
fn outcome(alloc: Global, given: Result<Buf, Stopped>) -> Result<Ended, Mistake> {
    let (status, out, err) = match &given {
        Ok(bytes) => (0, bytes.as_bytes(), b"".as_slice()),
        Err(Stopped::Refused(message)) => (1, b"".as_slice(), message.as_bytes()),
        Err(Stopped::Memory) => return Err(Mistake::Memory),
    };
    Ok(Ended {
        status,
        out: Text::from_bytes(alloc, out)?,
        err: Text::from_bytes(alloc, err)?,
    })
}

/// Adds that the status is not what was wanted.
fn tell_status(told: &mut String, wanted: u8, came: u8) -> Result<(), AllocError> {
    if wanted != came {
        write!(told, "  status {came}, wanted {wanted}\n")?;
    }
    Ok(())
}

/// Adds how the output differs from what is wanted.
fn tell_out(
    told: &mut String,
    wanted: &Output,
    setting: &Setting,
    came: &[u8],
) -> Result<(), AllocError> {
    match wanted {
        Output::Unsaid => tell_difference(told, "out", b"", came),
        Output::Whole(bytes) => tell_difference(told, "out", bytes.as_slice(), came),
        Output::Same => tell_difference(told, "out", setting.file_at(0), came),
        Output::Prefix(bytes) => {
            let came = prefix(came, bytes.len());
            tell_difference(told, "out", bytes.as_slice(), came)
        }
    }
}

/// So many bytes, or all where there are fewer.
fn prefix(bytes: &[u8], len: usize) -> &[u8] {
    match bytes.split_at_checked(len) {
        Some((prefix, _)) => prefix,
        None => bytes,
    }
}

/// The words of the command line.
fn words_of(alloc: Global, words: &[Vec<u8>]) -> Result<Words, Memory> {
    let mut list = List::new(alloc);
    for word in words {
        list.push(Text::from_bytes(alloc, word.as_slice())?)?;
    }
    Ok(list)
}

/// The files in memory.
fn files_of(alloc: Global, files: &[Named]) -> Result<List<File>, Memory> {
    let mut list = List::new(alloc);
    for file in files {
        let name = Text::from_bytes(alloc, file.name.as_bytes())?;
        let bytes = Text::from_bytes(alloc, file.bytes.as_slice())?;
        list.push(File { name, bytes })?;
    }
    Ok(list)
}
