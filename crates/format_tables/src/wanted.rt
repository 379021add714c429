//! What the words of rows of small calls stand for.
use case_words::mistake::Mistake;
use dwarf_abbrev::{Attr, Spec, read_attr};
use layout_set::Primitive;
use readers::read_hex;
use rv_bytes::Cut;

/// The number of an implicit_const.
const IMPLICIT: i64 = -5;

/// The primitives by their names.
const PRIMITIVES: [(&str, Primitive); 17] = [
    ("()", Primitive::Unit),
    ("bool", Primitive::Bool),
    ("char", Primitive::Char),
    ("i8", Primitive::I8),
    ("i16", Primitive::I16),
    ("i32", Primitive::I32),
    ("i64", Primitive::I64),
    ("i128", Primitive::I128),
    ("isize", Primitive::Isize),
    ("u8", Primitive::U8),
    ("u16", Primitive::U16),
    ("u32", Primitive::U32),
    ("u64", Primitive::U64),
    ("u128", Primitive::U128),
    ("usize", Primitive::Usize),
    ("f32", Primitive::F32),
    ("f64", Primitive::F64),
];

/// The primitive of this name.
pub fn primitive_of(word: &str) -> Result<Primitive, Mistake> {
    for (name, prim) in PRIMITIVES {
        if name == word {
            return Ok(prim);
        }
    }
    Err(Mistake::NotOfTheForm)
}

/// The number of `0x` and hexadecimal digits.
pub fn code_in(word: &str) -> Result<u64, Mistake> {
    read_hex(word.as_bytes()).ok_or(Mistake::NotOfTheForm)
}

/// The value that the bytes are in this form.
pub fn value_in(bytes: &[u8], form: u64) -> Result<Attr<'_>, Mistake> {
    let mut cut = Cut::new(bytes);
    let spec = Spec {
        attr: 3,
        form,
        fixed: IMPLICIT,
    };
    match read_attr(&mut cut, &spec) {
        Ok(value) => Ok(value),
        Err(_) => Err(Mistake::NotOfTheForm),
    }
}
