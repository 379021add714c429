//! How answers are shown.
use case_words::mistake::Mistake;
use rv_bytes::DwErr;
use rv_io::Text;
use std::alloc::Global;

/// The text of an error.
pub fn refusal(alloc: Global, e: DwErr) -> Result<String, Mistake> {
    match e {
        DwErr::Memory => Err(Mistake::Memory),
        e => Ok(format!(in alloc; "{e}")?),
    }
}

/// Adds `; ` after an earlier item.
pub fn part(text: &mut String) -> Result<(), Mistake> {
    if !text.is_empty() {
        text.push_str("; ")?;
    }
    Ok(())
}

/// Adds ` "NAME"`.
pub fn put_name(text: &mut String, alloc: Global, name: &Text) -> Result<(), Mistake> {
    let name = String::from_utf8_lossy(alloc, name.as_bytes())?;
    write!(text, " \"{name}\"")?;
    Ok(())
}

/// The items, or `none`.
pub fn or_none(alloc: Global, text: String) -> Result<String, Mistake> {
    if text.is_empty() {
        return Ok(String::from_str(alloc, "none")?);
    }
    Ok(text)
}
