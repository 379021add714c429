//! The theorem on written sections, the contract of a call that does nothing.
ghost use Rattle.std.specs.Prelude.{ℕ, List};
ghost use Rattle.byteorder.specs.Endian.{little_bytes};
ghost use Rattle.cv_type_records.specs.declared.kinds.TypeKind.{TypeKind};
ghost use Rattle.cv_type_writer.specs.Sections.{records_from, PutsTypes, IsReadAs};

/// What [`put_type`](crate::put_type) appends for records, one after the other, to the number 4 in four bytes is a section of these
/// records, each with its place, and of no other list; no item of it is invalid.
pub fn written_types_are_read()
    ensures { (kinds : List TypeKind) (section : List ℕ) → PutsTypes kinds (little_bytes 4 4) section → IsReadAs section (records_from 4 kinds) }
{}
