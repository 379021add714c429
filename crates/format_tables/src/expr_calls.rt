//! Small calls on expressions in bytes.
use crate::shown::refusal;
use crate::wanted::code_in;
use case_words::lines::number;
use case_words::mistake::Mistake;
use case_words::words::{bytes_of, first, hex_of};
use expr_bytes::{
    Addrs, Frame, Operation, OpsErr, address, based, constant, counted, ends, frame_based,
    layout_of, number_of, register, sized,
};
use expr_reader::read_ops;
use rv_bytes::{Cut, DwErr};
use snapshot_file::{Reg, reg_of};
use std::alloc::Global;

/// Of `CALL WORD ..` what the call gives.
pub fn answer(alloc: Global, row: &str) -> Result<String, Mistake> {
    let (call, words) = first(row)?;
    match call {
        "layout" => layout(alloc, words),
        "number" => register_number(alloc, words),
        "ends" => is_end(alloc, words),
        "place" => place(alloc, words),
        "counted" => value(alloc, words),
        "constant" => {
            let found = constant(number::<u64>(words)?);
            Ok(format!(in alloc; "{found:?}")?)
        }
        _ => of_operand(alloc, call, words),
    }
}

/// The calls that tell an operation by its operands.
fn of_operand(alloc: Global, call: &str, words: &str) -> Result<String, Mistake> {
    let cut = Cut::new(b"");
    match call {
        "address" => shown(alloc, address(&cut, number_or_none(words)?)),
        "register" => shown(alloc, register(&cut, register_or_none(words))),
        "sized" => shown(alloc, sized(&cut, number::<u8>(words)?)),
        "based" => {
            let (reg, n) = first(words)?;
            shown(alloc, based(&cut, register_or_none(reg), number::<i64>(n)?))
        }
        "frame-based" => {
            let (frame, n) = first(words)?;
            shown(
                alloc,
                frame_based(&cut, frame_in(frame)?, number::<i64>(n)?),
            )
        }
        _ => Err(Mistake::NotOfTheForm),
    }
}

/// Of `CODE` what follows it.
fn layout(alloc: Global, code: &str) -> Result<String, Mistake> {
    let Ok(code) = u8::try_from(code_in(code)?) else {
        return Err(Mistake::NotOfTheForm);
    };
    let found = layout_of(code);
    Ok(format!(in alloc; "{found:?}")?)
}

/// Of a register its number.
fn register_number(alloc: Global, word: &str) -> Result<String, Mistake> {
    let reg = reg_of(word.as_bytes()).ok_or(Mistake::NotOfTheForm)?;
    let found = number_of(reg);
    Ok(format!(in alloc; "{found}")?)
}

/// Of `BYTES` whether a place's operations end before them.
fn is_end(alloc: Global, bytes: &str) -> Result<String, Mistake> {
    let bytes = bytes_of(alloc, &[], bytes)?;
    let found = ends(&Cut::new(bytes.as_slice()));
    Ok(format!(in alloc; "{found}")?)
}

/// Of `FRAME ADDRESSES BYTES` the place that the operations say, and how many bytes are left.
fn place(alloc: Global, words: &str) -> Result<String, Mistake> {
    let (frame, words) = first(words)?;
    let (section, bytes) = first(words)?;
    let section = bytes_of(alloc, &[], section)?;
    let bytes = bytes_of(alloc, &[], bytes)?;
    let addrs = Addrs {
        section: section.as_slice(),
        base: Some(0),
    };
    let mut cut = Cut::new(bytes.as_slice());
    match read_ops(alloc, &mut cut, frame_in(frame)?, &addrs) {
        Ok(place) => {
            let left = cut.left();
            Ok(format!(in alloc; "{place:?}, {left} left")?)
        }
        Err(OpsErr::Memory) => Err(Mistake::Memory),
        Err(e) => Ok(format!(in alloc; "{e}")?),
    }
}

/// Of `BYTES` those that the length before them counts, and how many are left.
fn value(alloc: Global, bytes: &str) -> Result<String, Mistake> {
    let bytes = bytes_of(alloc, &[], bytes)?;
    let mut cut = Cut::new(bytes.as_slice());
    let mut text = match counted(&mut cut) {
        Ok(found) => hex_of(alloc, found)?,
        Err(e) => refusal(alloc, e)?,
    };
    let left = cut.left();
    if left > 0 {
        write!(text, ", {left} left")?;
    }
    Ok(text)
}

/// A number, or none of `-`.
fn number_or_none(word: &str) -> Result<Option<u64>, Mistake> {
    if word == "-" {
        return Ok(None);
    }
    Ok(Some(number::<u64>(word)?))
}

/// The register of this name, if there is one.
fn register_or_none(word: &str) -> Option<Reg> {
    reg_of(word.as_bytes())
}

/// A register, `cfa`, or `-` where nothing is known.
fn frame_in(word: &str) -> Result<Frame, Mistake> {
    match word {
        "-" => Ok(Frame::Unknown),
        "cfa" => Ok(Frame::Cfa),
        word => match reg_of(word.as_bytes()) {
            Some(reg) => Ok(Frame::Reg(reg)),
            None => Err(Mistake::NotOfTheForm),
        },
    }
}

/// The operation, or the text of the error.
fn shown(alloc: Global, found: Result<Option<Operation<'_>>, DwErr>) -> Result<String, Mistake> {
    match found {
        Ok(Some(operation)) => Ok(format!(in alloc; "{operation:?}")?),
        Ok(None) => Ok(String::from_str(alloc, "nothing")?),
        Err(e) => refusal(alloc, e),
    }
}
