//! Types that share a name, which shows in their Rust texts.
ghost use Rattle.std.specs.Prelude.{◌≡◌, IfOk, length, map, IsTrue, ◌++◌, option_to_list};
ghost use Rattle.layout_set.specs.Found.{IsFirst};
ghost use Rattle.layout_name_laws.specs.RustTexts.{rust_text_of, texts_of, is_new, IsNewText};

use crate::spelled::{name_of, rust_bytes};
use indexmap::IndexSet;
use layout_set::{TypeDef, is_raw};
use rv_io::{Memory, Text};
use std::alloc::{AllocError, Global};

/// The Rust text of a type's name, if it has one that is no raw text.
fn rust_text_of(alloc: Global, def: &TypeDef) -> Result<Option<Text>, Memory>
    ensures { IfOk result (λ text. text ≡ rust_text_of def.now) }
{
    match name_of(def) {
        None => Ok(None),
        Some(name) if is_raw(name) => Ok(None),
        Some(name) => Ok(Some(Text::from_vec(rust_bytes(alloc, name)?))),
    }
}

/// The Rust texts of the types' names.
pub(crate) fn rust_texts(alloc: Global, types: &[TypeDef]) -> Result<Vec<Option<Text>>, Memory>
    ensures { IfOk result (λ v. v.items ≡ map rust_text_of types.now) }
{
    let mut texts = Vec::with_capacity(alloc, types.len())?;
    for def in types {
        texts.push(rust_text_of(alloc, def)?)?;
    }
    Ok(texts)
}

/// Whether the text is none of the set's; it is in the set from then on.
fn add<'a>(texts: &mut IndexSet<&'a [u8]>, text: &'a Option<Text>) -> Result<bool, AllocError>
    ensures added { IfOk result (λ new. new ≡ is_new (texts_of texts.old) text.now) }
    ensures kept { IfOk result (λ new. IsTrue new → texts_of texts.new ≡ texts_of texts.old ++ option_to_list text.now) }
{
    match text {
        None => Ok(true),
        Some(text) => match texts.insert(text.as_bytes()) {
            Ok(new) => Ok(new),
            Err(_) => Err(AllocError),
        },
    }
}

/// The first text that is an earlier one.
pub(crate) fn first_repeated(
    alloc: Global,
    texts: &[Option<Text>],
) -> Result<Option<usize>, AllocError>
    ensures { IfOk result (IsFirst (IsNewText texts.now) (length texts.now)) }
{
    let mut seen = IndexSet::new(alloc);
    for (i, text) in texts.iter().enumerate() {
        if !add(&mut seen, text)? {
            return Ok(Some(i));
        }
    }
    Ok(None)
}
