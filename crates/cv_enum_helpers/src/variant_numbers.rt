//! The numbers of the members of an enum's LF_UNION that are variants.
ghost use Rattle.std.specs.Prelude.{◌≡◌, ◌^◌, ◌-◌};
ghost use Rattle.cv_type_defs.specs.EnumNames.{variant_number};
ghost use Rattle.names.specs.Steps.{grown};
ghost use Rattle.cv_enum_helpers.specs.Digits.{grown_by, whole_after, whole_number};

/// The number with one more digit, if it is one and the number fits 32 bits.
fn grown(number: u32, c: u8) -> Option<u32>
    ensures { result ≡ grown_by (2 ^ 32 - 1) number c }
{
    if c.is_ascii_digit() {
        number.checked_mul(10)?.checked_add(u32::from(c - b'0'))
    } else {
        None
    }
}

/// The number with all these digits behind it.
fn with_digits(number: u32, digits: &[u8]) -> Option<u32>
    ensures { result ≡ whole_after (2 ^ 32 - 1) number digits.now }
{
    let mut number = number;
    for c in digits {
        number = grown(number, *c)?;
    }
    Some(number)
}

/// The number of 32 bits that a text is, without needless zeros.
fn whole_number(text: &[u8]) -> Option<u32>
    ensures { result ≡ whole_number text.now }
{
    let (first, digits) = text.split_first()?;
    if *first == b'0' {
        return if digits.is_empty() { Some(0) } else { None };
    }
    let number = grown(0, *first)?;
    with_digits(number, digits)
}

/// The number N of a text `variantN`, which has 32 bits and no needless zeros. Takes no memory.
#[tactic(auto, unfolding(cv_type_defs::specs::EnumNames::variant_number))]
pub fn variant_number(text: &[u8]) -> Option<u32>
    ensures { result ≡ variant_number text.now }
{
    let digits = text.strip_prefix(b"variant")?;
    whole_number(digits)
}
