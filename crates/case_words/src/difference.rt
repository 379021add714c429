//! How what came differs from what was wanted.
use memchr::memchr;
use std::alloc::{AllocError, Global};

/// Adds the first line in which the bytes differ, if they do.
pub fn tell_difference(
    complaint: &mut String,
    what: &str,
    wanted: &[u8],
    came: &[u8],
) -> Result<(), AllocError> {
    if wanted == came {
        return Ok(());
    }
    let mut rest = (wanted, came);
    for number in 1..u32::MAX {
        let (wanted, wanted_rest) = first_line(rest.0);
        let (came, came_rest) = first_line(rest.1);
        if wanted != came {
            write!(complaint, "  {what} line {number}\n")?;
            return tell_lines(complaint, wanted, came);
        }
        rest = (wanted_rest, came_rest);
    }
    write!(complaint, "  {what} differs\n")
}

/// The first line with its LF, and what is after it.
fn first_line(bytes: &[u8]) -> (&[u8], &[u8]) {
    let len = match memchr(b'\n', bytes) {
        Some(at) => at.saturating_add(1),
        None => bytes.len(),
    };
    match bytes.split_at_checked(len) {
        Some(parts) => parts,
        None => (bytes, b"".as_slice()),
    }
}

/// Adds both lines.
fn tell_lines(complaint: &mut String, wanted: &[u8], came: &[u8]) -> Result<(), AllocError> {
    complaint.push_str("    wanted ")?;
    put_quoted(complaint, wanted)?;
    complaint.push_str("\n    came   ")?;
    put_quoted(complaint, came)?;
    complaint.push_str("\n")
}

/// Adds the bytes in quotes: printable ASCII as it is, and each other byte by its two hexadecimal digits.
fn put_quoted(complaint: &mut String, bytes: &[u8]) -> Result<(), AllocError> {
    complaint.push_str("\"")?;
    for byte in bytes {
        match *byte {
            b'\\' => complaint.push_str("\\\\")?,
            b'\n' => complaint.push_str("\\n")?,
            32..=126 => complaint.push(char::from(*byte))?,
            other => write!(complaint, "\\x{other:02x}")?,
        }
    }
    complaint.push_str("\"")
}

/// The complaint about a row of a table: nothing where what came is what was wanted.
pub fn of_texts(alloc: Global, wanted: &str, came: &str) -> Result<String, AllocError> {
    let mut complaint = String::new(alloc);
    if wanted != came {
        tell_lines(&mut complaint, wanted.as_bytes(), came.as_bytes())?;
    }
    Ok(complaint)
}
