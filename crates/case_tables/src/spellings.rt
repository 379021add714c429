//! Names: a text of one spelling, and the other spelling of its name, or `at N`, the number of bytes of the longest prefix
//! that some name's text has.
use crate::lines::bytes_of_hex;
use crate::mistake::Mistake;
use rv_io::Buf;
use std::alloc::Global;
use type_names::{NameErr, cv_spelling, read_cv, read_rust, rust_spelling};

/// The CodeView spelling of a Rust text.
pub fn codeview_of_rust(alloc: Global, text: &[u8]) -> Result<String, Mistake> {
    match read_rust(alloc, text) {
        Ok(name) => {
            let mut out = Buf::new(alloc);
            cv_spelling(&name, &mut out)?;
            Ok(String::from_utf8_lossy(alloc, out.as_bytes())?)
        }
        Err(e) => place(alloc, e),
    }
}

/// The Rust spelling of a CodeView text.
pub fn rust_of_codeview(alloc: Global, text: &[u8]) -> Result<String, Mistake> {
    match read_cv(alloc, text) {
        Ok(name) => {
            let mut out = Buf::new(alloc);
            rust_spelling(&name, &mut out)?;
            Ok(String::from_utf8_lossy(alloc, out.as_bytes())?)
        }
        Err(e) => place(alloc, e),
    }
}

/// The CodeView spelling of a Rust text in hexadecimal digits.
pub fn codeview_of_rust_hex(alloc: Global, digits: &str) -> Result<String, Mistake> {
    codeview_of_rust(alloc, bytes_of_hex(alloc, digits)?.as_slice())
}

/// The Rust spelling of a CodeView text in hexadecimal digits.
pub fn rust_of_codeview_hex(alloc: Global, digits: &str) -> Result<String, Mistake> {
    rust_of_codeview(alloc, bytes_of_hex(alloc, digits)?.as_slice())
}

/// Where a text stops being a name.
fn place(alloc: Global, e: NameErr) -> Result<String, Mistake> {
    match e {
        NameErr::BadName { at } => Ok(format!(in alloc; "at {at}")?),
        NameErr::Memory => Err(Mistake::Memory),
    }
}
