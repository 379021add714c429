//! What the readers of both spellings share.
ghost use Rattle.std.specs.Prelude.{◌≡◌, [], ◌∷◌, IfOk};
ghost use Rattle.names.specs.Plain.{has_some, is_word, is_plain_str};

use crate::name::Seg;
use crate::word::Word;
use rv_io::{List, Memory};
use std::alloc::Global;

/// Whether there is a level of names below.
pub fn has_some(inner: u32) -> bool
    ensures { result ≡ has_some inner }
{
    inner > 0
}

/// Whether the word has these bytes.
pub fn is_word(word: &Word, other: &[u8]) -> bool
    ensures { result ≡ is_word word.now other.now }
{
    word.as_bytes() == other
}

/// Whether the segment is `str` without a number and without args.
pub fn is_plain_str(seg: &Seg) -> bool
    ensures { result ≡ is_plain_str seg.now }
{
    is_word(&seg.word, b"str") && seg.number.is_none() && seg.args.as_slice().is_empty()
}

/// An empty list with room for so many items, where there is memory for them. Without this a list of one item has room for
/// four, and most lists of names have one.
pub fn with_room<T>(alloc: Global, count: usize) -> List<T>
    ensures { result ≡ [] }
{
    match Vec::with_capacity(alloc, count) {
        Ok(items) => List::from_vec(items),
        Err(_) => List::new(alloc),
    }
}

/// A list of one item, without room for more.
pub fn one<T: Drop>(alloc: Global, item: T) -> Result<List<T>, Memory>
    ensures { IfOk result (λ xs. xs ≡ item ∷ []) }
{
    let mut items = with_room(alloc, 1);
    items.push(item)?;
    Ok(items)
}

/// The item, and then the rest.
pub fn with_first<T: Drop>(item: T, rest: List<T>) -> Result<List<T>, Memory>
    ensures { IfOk result (λ xs. xs ≡ item ∷ rest) }
{
    let mut items = rest.into_vec();
    items.insert(0, item)?;
    Ok(List::from_vec(items))
}
