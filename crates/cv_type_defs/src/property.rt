//! The properties of LF_STRUCTURE, LF_UNION and LF_ENUM.
ghost use Rattle.std.specs.Prelude.{◌≡◌};
ghost use Rattle.cv_type_defs.specs.Records.{is_forward_property};

const FORWARD_REFERENCE: u16 = 0x80;

/// Whether a record with this property stands for a complete one. Takes no memory.
pub fn is_forward(property: u16) -> bool
    ensures { result ≡ is_forward_property property }
{
    property & FORWARD_REFERENCE != 0
}
