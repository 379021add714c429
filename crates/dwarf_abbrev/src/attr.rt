//! Attributes and their values.
ghost use Rattle.std.specs.Prelude.{◌≡◌, ◌≢◌, Some, IfOk, IfErr, OnErr};
ghost use Rattle.rv_bytes.specs.Reads.{Takes, IsRefusedBy};
ghost use Rattle.rv_bytes.specs.Results.{ReadsBy};
ghost use Rattle.rv_bytes.specs.declared.err.DwErr.{DwErr};
ghost use Rattle.dwarf_abbrev.specs.Encodings.{WidthFits};
ghost use Rattle.dwarf_abbrev.specs.Values.{val_of};
ghost use Rattle.dwarf_abbrev.specs.Attrs.{attr_form};
ghost use Rattle.dwarf_abbrev.specs.AttrReaders.{read_laid, read_attr};

use crate::encoding::{Encoding, encoding_of};
use crate::items::{of_bytes, of_number, read_counted, read_leb_counted};
use crate::refusal::refused;
use crate::rule;
use rv_bytes::{Cut, DwErr};

/// An attribute that a declaration gives its entries (DWARF 5, 7.5.3).
#[derive(Clone, Copy, Debug, PartialEq, Eq)]
pub struct Spec {
    /// The code of the attribute (DWARF 5, 7.5.4).
    pub attr: u64,
    /// The code of its form (DWARF 5, 7.5.6).
    pub form: u64,
    /// The number that an implicit_const has in the declaration; in a table 0 with every other
    /// form.
    pub fixed: i64,
}

/// The value of an attribute (DWARF 5, 7.5.5). Offsets and lengths are in bytes.
#[derive(Clone, Copy, Debug, PartialEq, Eq)]
pub enum Attr<'a> {
    /// An address of the program.
    Addr(u64),
    /// The index of an address in the unit's part of `.debug_addr`.
    AddrIndex(u64),
    /// A constant.
    Unsigned(u64),
    /// A constant with a sign.
    Signed(i64),
    /// A constant of 16 bytes.
    Wide(u128),
    /// Bytes without their length.
    Block(&'a [u8]),
    /// The bytes of an expression, without their length.
    Expr(&'a [u8]),
    Flag(bool),
    /// A text in the entry itself, without its zero byte.
    Inline(&'a [u8]),
    /// The offset of a text in `.debug_str`.
    StrAt(u64),
    /// The offset of a text in `.debug_line_str`.
    LineStrAt(u64),
    /// The index of a text in the unit's part of `.debug_str_offsets`.
    StrIndex(u64),
    /// The offset of an entry from the beginning of its unit.
    UnitRef(u64),
    /// The offset of an entry from the beginning of `.debug_info`.
    InfoRef(u64),
    /// An offset in another section, which the attribute names.
    SecOffset(u64),
    /// The index of a location list of the unit.
    LocIndex(u64),
    /// The index of a range list of the unit.
    RangeIndex(u64),
}

/// The value of an attribute whose bytes lie so. An implicit_const has the number `fixed`.
fn read_laid<'a>(cut: &mut Cut<'a>, fixed: i64, encoding: Encoding) -> Result<Attr<'a>, DwErr>
    requires { WidthFits encoding }
    ensures reads { ReadsBy val_of (read_laid fixed (Some encoding) cut.old.at cut.old.rest) result cut.new }
    ensures same { OnErr result (cut.new ≡ cut.old) }
    ensures never_memory { IfErr result (λ e. e ≢ DwErr.Memory) }
{
    match encoding {
        Encoding::Number(kind, width) => Ok(of_number(kind, cut.number(width)?)),
        Encoding::Leb(kind) => Ok(of_number(kind, cut.uleb()?)),
        Encoding::SignedLeb => Ok(Attr::Signed(cut.sleb()?)),
        Encoding::Wide => Ok(Attr::Wide(cut.u128()?)),
        Encoding::Counted(kind, width) => Ok(of_bytes(kind, read_counted(cut, width)?)),
        Encoding::LebCounted(kind) => Ok(of_bytes(kind, read_leb_counted(cut)?)),
        Encoding::Text => Ok(Attr::Inline(cut.zero_text()?)),
        Encoding::FlagByte => Ok(Attr::Flag(cut.number(1)? != 0)),
        Encoding::Present => Ok(Attr::Flag(true)),
        Encoding::Implicit => Ok(Attr::Signed(fixed)),
    }
}

/// Reads the value of one attribute, and moves `cut` past it (DWARF 5, 7.5.5 and 7.5.6).
///
/// The value is one item, so the `offset` of a refusal is the place of its first byte. Its rules: 10
/// where the bytes end inside it, 11 where a LEB128 number is too wide, 12 where a text has no zero
/// byte, 28 where the form is none of the constants of [`form`](crate::form). Takes no memory.
pub fn read_attr<'a>(cut: &mut Cut<'a>, spec: &Spec) -> Result<Attr<'a>, DwErr>
    // What is read stands at the place, and the place moves past it.
    ensures taken { IfOk result (λ v. Takes (attr_form spec.now) cut.old cut.new (val_of v)) }

    // What is refused has no value there, and the place stays.
    ensures refused { IfErr result (IsRefusedBy (attr_form spec.now) cut.old) }
    ensures never_memory { IfErr result (λ e. e ≢ DwErr.Memory) }
    ensures same { OnErr result (cut.new ≡ cut.old) }

    // The same in the words of readers, for the proofs of callers.
    ensures reads { ReadsBy val_of (read_attr spec.now cut.old.at cut.old.rest) result cut.new }
{
    match encoding_of(spec.form) {
        Some(encoding) => read_laid(cut, spec.fixed, encoding),
        None => Err(refused(cut.at(), rule::UNKNOWN_FORM)),
    }
}
