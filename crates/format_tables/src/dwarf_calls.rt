//! Small calls on entries of DWARF.
use crate::wanted::{code_in, primitive_of, value_in};
use case_words::lines::number;
use case_words::mistake::Mistake;
use case_words::words::{bytes_of, first};
use dwarf_abbrev::Attr;
use dwarf_entries::{
    Bases, Member, Sections, TextErr, address_of, address_op, base_type, case_number, class_of,
    class_rule, fat_pair, kind_of_name, listed_number, name_of_text, natural, proper_name,
    stands_alone, tag_of, text_of, word_in,
};
use std::alloc::Global;

/// Of `CALL WORD ..` what the call gives.
pub fn answer(alloc: Global, row: &str) -> Result<String, Mistake> {
    let (call, words) = first(row)?;
    match call {
        "tag" => tag(alloc, words),
        "class" => class(alloc, words),
        "rule" => rule(alloc, words),
        "natural" => whole(alloc, words),
        "base-type" => base(alloc, words),
        "pointer" => pointer(alloc, words),
        "fat" => fat(alloc, words),
        "listed" => listed(alloc, words),
        "case" => case(alloc, words),
        _ => of_text(alloc, call, words),
    }
}

/// The calls on texts and addresses.
fn of_text(alloc: Global, call: &str, words: &str) -> Result<String, Mistake> {
    match call {
        "operation" => operation(alloc, words),
        "text" => text(alloc, words),
        "address" => address(alloc, words),
        "name" => name(alloc, words),
        "word" => word(alloc, words),
        _ => Err(Mistake::NotOfTheForm),
    }
}

/// Of `TAG` what an entry of this code describes.
fn tag(alloc: Global, code: &str) -> Result<String, Mistake> {
    let tag = tag_of(code_in(code)?);
    Ok(format!(in alloc; "{tag:?}")?)
}

/// Of `TAG ATTRIBUTE` the class that is wanted.
fn class(alloc: Global, words: &str) -> Result<String, Mistake> {
    let (tag, attribute) = first(words)?;
    let tag = tag_of(code_in(tag)?).ok_or(Mistake::NotOfTheForm)?;
    let class = class_of(tag, code_in(attribute)?);
    Ok(format!(in alloc; "{class:?}")?)
}

/// Of `TAG ATTRIBUTE FORM BYTES` the rule that the value breaks as this attribute.
fn rule(alloc: Global, words: &str) -> Result<String, Mistake> {
    let (tag, words) = first(words)?;
    let (attribute, words) = first(words)?;
    let (form, bytes) = first(words)?;
    let tag = tag_of(code_in(tag)?).ok_or(Mistake::NotOfTheForm)?;
    let class = class_of(tag, code_in(attribute)?).ok_or(Mistake::NotOfTheForm)?;
    let bytes = bytes_of(alloc, &[], bytes)?;
    let broken = class_rule(class, value_in(bytes.as_slice(), code_in(form)?)?);
    Ok(format!(in alloc; "{broken:?}")?)
}

/// Of `FORM BYTES` the whole number.
fn whole(alloc: Global, words: &str) -> Result<String, Mistake> {
    let (form, bytes) = first(words)?;
    let bytes = bytes_of(alloc, &[], bytes)?;
    let found = natural(value_in(bytes.as_slice(), code_in(form)?)?);
    Ok(format!(in alloc; "{found:?}")?)
}

/// The value, or none of the form `-`.
fn value_or_none<'a>(bytes: &'a [u8], form: &str) -> Result<Option<Attr<'a>>, Mistake> {
    if form == "-" {
        return Ok(None);
    }
    match value_in(bytes, code_in(form)?) {
        Ok(value) => Ok(Some(value)),
        Err(e) => Err(e),
    }
}

/// Of `FORM BYTES FORM BYTES NAME` the primitive that has this encoding and this size, or the rule.
fn base(alloc: Global, words: &str) -> Result<String, Mistake> {
    let (encoding_form, words) = first(words)?;
    let (encoding, words) = first(words)?;
    let (size_form, words) = first(words)?;
    let (size, name) = first(words)?;
    let encoding = bytes_of(alloc, &[], encoding)?;
    let size = bytes_of(alloc, &[], size)?;
    let encoding = value_or_none(encoding.as_slice(), encoding_form)?;
    let size = value_or_none(size.as_slice(), size_form)?;
    match base_type(encoding, size, name.as_bytes()) {
        Ok(prim) => Ok(format!(in alloc; "{prim:?}")?),
        Err(rule) => Ok(format!(in alloc; "rule {rule}")?),
    }
}

/// Of a name the kind of the pointer.
fn pointer(alloc: Global, name: &str) -> Result<String, Mistake> {
    let kind = kind_of_name(name.as_bytes());
    Ok(format!(in alloc; "{kind:?}")?)
}

/// Of `NAME OFFSET NAME OFFSET` what stands in the fat pointer that has these members.
fn fat(alloc: Global, words: &str) -> Result<String, Mistake> {
    let (first_name, words) = first(words)?;
    let (first_offset, words) = first(words)?;
    let (second_name, second_offset) = first(words)?;
    let one = Member {
        name: first_name.as_bytes(),
        offset: number::<u64>(first_offset)?,
    };
    let other = Member {
        name: second_name.as_bytes(),
        offset: number::<u64>(second_offset)?,
    };
    let pair = fat_pair(one, other);
    Ok(format!(in alloc; "{pair:?}")?)
}

/// Of `TYPE FORM BYTES` the number that chooses a variant.
fn listed(alloc: Global, words: &str) -> Result<String, Mistake> {
    let (prim, words) = first(words)?;
    let (form, bytes) = first(words)?;
    let bytes = bytes_of(alloc, &[], bytes)?;
    let form = code_in(form)?;
    let found = listed_number(primitive_of(prim)?, form, value_in(bytes.as_slice(), form)?);
    Ok(format!(in alloc; "{found:?}")?)
}

/// Of `TYPE FORM BYTES` the number of a case.
fn case(alloc: Global, words: &str) -> Result<String, Mistake> {
    let (prim, words) = first(words)?;
    let (form, bytes) = first(words)?;
    let bytes = bytes_of(alloc, &[], bytes)?;
    let found = case_number(
        primitive_of(prim)?,
        value_in(bytes.as_slice(), code_in(form)?)?,
    );
    Ok(format!(in alloc; "{found}")?)
}

/// Of `BYTES` the one operation of an address in the expression.
fn operation(alloc: Global, bytes: &str) -> Result<String, Mistake> {
    let bytes = bytes_of(alloc, &[], bytes)?;
    match address_op(bytes.as_slice()) {
        Some(found) => {
            let place = found.place;
            let address = found.address;
            Ok(format!(in alloc; "{address:?} at {place}")?)
        }
        None => Ok(String::from_str(alloc, "none")?),
    }
}

/// A number, or none of `-`.
fn base_in(word: &str) -> Result<Option<u64>, Mistake> {
    if word == "-" {
        return Ok(None);
    }
    Ok(Some(number::<u64>(word)?))
}

/// Of `PLACE FORM BYTES BASE OFFSETS TEXTS LINES` the text of an attribute in quotes, or why it has none.
fn text(alloc: Global, words: &str) -> Result<String, Mistake> {
    let (place, words) = first(words)?;
    let (form, words) = first(words)?;
    let (bytes, words) = first(words)?;
    let (base, words) = first(words)?;
    let (offsets, words) = first(words)?;
    let (texts, lines) = first(words)?;
    let bytes = bytes_of(alloc, &[], bytes)?;
    let offsets = bytes_of(alloc, &[], offsets)?;
    let texts = bytes_of(alloc, &[], texts)?;
    let lines = bytes_of(alloc, &[], lines)?;
    let sections = Sections {
        info: b"",
        text: texts.as_slice(),
        line_text: lines.as_slice(),
        text_offsets: offsets.as_slice(),
        addrs: b"",
        locs: b"",
        ranges: b"",
    };
    let bases = Bases {
        text_offsets: base_in(base)?,
        addrs: None,
    };
    let value = value_in(bytes.as_slice(), code_in(form)?)?;
    match text_of(&sections, bases, number::<u64>(place)?, value) {
        Ok(found) => {
            let found = String::from_utf8_lossy(alloc, found)?;
            Ok(format!(in alloc; "\"{found}\"")?)
        }
        Err(TextErr::Outside) => Ok(String::from_str(alloc, "outside")?),
        Err(TextErr::Broken(e)) => {
            let section = e.section;
            let offset = e.offset;
            let rule = e.rule;
            Ok(format!(in alloc; "{section:?} offset {offset} breaks rule {rule}")?)
        }
    }
}

/// Of `FORM BYTES BASE ADDRESSES` the address.
fn address(alloc: Global, words: &str) -> Result<String, Mistake> {
    let (form, words) = first(words)?;
    let (bytes, words) = first(words)?;
    let (base, addrs) = first(words)?;
    let bytes = bytes_of(alloc, &[], bytes)?;
    let addrs = bytes_of(alloc, &[], addrs)?;
    let sections = Sections {
        info: b"",
        text: b"",
        line_text: b"",
        text_offsets: b"",
        addrs: addrs.as_slice(),
        locs: b"",
        ranges: b"",
    };
    let bases = Bases {
        text_offsets: None,
        addrs: base_in(base)?,
    };
    let value = value_in(bytes.as_slice(), code_in(form)?)?;
    let found = address_of(&sections, bases, value);
    Ok(format!(in alloc; "{found:?}")?)
}

/// Of a text whether it has a proper name, and whether that stands alone.
fn name(alloc: Global, text: &str) -> Result<String, Mistake> {
    let kept = match name_of_text(alloc, text.as_bytes())? {
        names::Name::Raw(_) => "raw",
        _ => "proper",
    };
    match proper_name(alloc, text.as_bytes())? {
        Some(name) if stands_alone(&name) => Ok(format!(in alloc; "{kept}, alone")?),
        Some(_) => Ok(format!(in alloc; "{kept}, joined")?),
        None => Ok(format!(in alloc; "{kept}, no name")?),
    }
}

/// Of a text whether it is a word.
fn word(alloc: Global, text: &str) -> Result<String, Mistake> {
    let found = word_in(alloc, text.as_bytes())?.is_some();
    Ok(format!(in alloc; "{found}")?)
}
