//! Names that no text spells, and copies of words.
use rv_io::{Boxed, Buf, List, Memory, Text};
use std::alloc::Global;
use type_names::{Name, PtrKind, Word, cv_spelling, rust_spelling};

/// Raw texts, one of them in a box.
fn raw_names(alloc: Global) -> Result<Name, Memory> {
    let boxed = Name::Raw(Text::from_bytes(alloc, b"<a as b>::c")?);
    let mut parts = List::new(alloc);
    parts.push(Name::Pointer(PtrKind::Boxed, Boxed::new(alloc, boxed)?))?;
    parts.push(Name::Raw(Text::from_bytes(alloc, b"")?))?;
    Ok(Name::Tuple(parts))
}

/// Whether the name has these spellings.
fn is_written(alloc: Global, name: &Name, rust: &[u8], cv: &[u8]) -> Result<bool, Memory> {
    let mut rust_out = Buf::new(alloc);
    rust_spelling(name, &mut rust_out)?;
    let mut cv_out = Buf::new(alloc);
    cv_spelling(name, &mut cv_out)?;
    Ok(rust_out.as_bytes() == rust && cv_out.as_bytes() == cv)
}

#[test]
fn raw_texts_and_boxes_are_copied(rt: HostRuntime) {
    let alloc = rt.alloc();
    let name = raw_names(alloc).expect(&rt, "ample memory");
    let copy = name.copy(alloc).expect(&rt, "ample memory");
    let rust: &[u8] = b"(box <a as b>::c, )";
    let cv: &[u8] = b"tuple$<box$<<a as b>::c>,>";
    assert!(rt; is_written(alloc, &copy, rust, cv) == Ok(true));
    assert!(rt; is_written(alloc, &name, rust, cv) == Ok(true));
}

#[test]
fn a_word_is_copied_byte_by_byte(rt: HostRuntime) {
    let alloc = rt.alloc();
    let word = Word::new(alloc, b"\xc3\xa9_9").expect(&rt, "ample memory");
    let copy = word.copy(alloc).expect(&rt, "ample memory");
    let bytes: &[u8] = b"\xc3\xa9_9";
    assert!(rt; copy.as_bytes() == bytes);
    assert!(rt; word.as_bytes() == bytes);
}
