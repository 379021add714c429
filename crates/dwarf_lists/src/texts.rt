//! Texts by their indexes (DWARF 5, 7.26).
ghost use Rattle.std.specs.Prelude.{◌≢◌, IfOk, IfErr};
ghost use Rattle.rv_bytes.specs.NumberReaders.{read_text};
ghost use Rattle.rv_bytes.specs.Results.{ReadsBy};
ghost use Rattle.rv_bytes.specs.declared.err.DwErr.{DwErr};
ghost use Rattle.dwarf_lists.specs.Texts.{HasText, HasNoText};

use crate::offsets::{offset_at, offset_place};
use rv_bytes::{Cut, DwErr, rule};

/// Reads a text, and moves past its zero byte.
fn read_text<'a>(cut: &mut Cut<'a>) -> Result<&'a [u8], DwErr>
    ensures reads { ReadsBy (λ v. v.now) (read_text cut.old.at cut.old.rest) result cut.new }
    ensures never_memory { IfErr result (λ e. e ≢ DwErr.Memory) }
{
    Ok(cut.text()?)
}

/// The text at an index. `offsets` is the whole of `.debug_str_offsets`, `base` the unit's
/// str_offsets_base in bytes from the section's start, and `texts` the whole of `.debug_str`
/// (DWARF 5, 7.26). At `base` + 4 * `index` stands a text's offset in `texts`, of 4 bytes. The text
/// is the bytes up to the next zero byte, without it.
///
/// Refused by rule 31 where the offset isn't there whole, or is at the end of `texts` or after it:
/// the refusal's `offset` is then `base` + 4 * `index`, in bytes from the start of
/// `.debug_str_offsets`, and 2^64 - 1 where that would pass it. Refused by rule 12 where no zero byte
/// follows, and by rule 14 where the text isn't UTF-8 or has more than 65,535 bytes: the refusal's
/// `offset` is then where the text begins, in bytes from the start of `.debug_str`. Takes no memory.
pub fn indexed_text<'a>(
    offsets: &[u8],
    base: u64,
    index: u64,
    texts: &'a [u8],
) -> Result<&'a [u8], DwErr>
    // The index leads to the text.
    ensures text { IfOk result (λ t. HasText offsets.now base index texts.now t.now) }

    // Where the index leads nowhere or to no text, the refusal says why.
    ensures refused { IfErr result (HasNoText offsets.now base index texts.now) }
    ensures never_memory { IfErr result (λ e. e ≢ DwErr.Memory) }
{
    let outside = DwErr::Refused {
        offset: offset_place(base, index),
        rule: rule::OUTSIDE,
    };
    let Some(offset) = offset_at(offsets, base, index) else {
        return Err(outside);
    };
    let place = offset as usize;
    if place >= texts.len() {
        return Err(outside);
    }
    let mut cut = Cut::from_place(texts, place);
    read_text(&mut cut)
}
