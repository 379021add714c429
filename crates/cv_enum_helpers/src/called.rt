//! Whether a name is that of a helper.
ghost use Rattle.std.specs.Prelude.{◌≡◌, ◌++◌, bytes_eq};
ghost use Rattle.cv_type_defs.specs.EnumNames.{helper_name, variants_name};

use itoa::Buffer;

/// Whether a text is a front with something behind it, which is compared first.
fn is_front_with(text: &[u8], front: &[u8], back: &[u8]) -> bool
    ensures { result ≡ bytes_eq text.now (front.now ++ back.now) }
{
    match text.strip_suffix(back) {
        Some(rest) => rest == front,
        None => false,
    }
}

/// Whether a text is a front with a middle and something else behind it, which are compared first.
fn is_front_with_two(text: &[u8], front: &[u8], middle: &[u8], back: &[u8]) -> bool
    ensures { result ≡ bytes_eq text.now (front.now ++ middle.now ++ back.now) }
{
    match text.strip_suffix(back) {
        Some(rest) => is_front_with(rest, front, middle),
        None => false,
    }
}

/// Whether a text is the name of the helper of the variant of this number, of the enum that has this name:
/// `enum2$<X>::VariantN`. Takes no memory.
pub fn is_helper_of(text: &[u8], name: &[u8], number: u32) -> bool
    ensures { result ≡ bytes_eq text.now (helper_name name.now number) }
{
    let mut digits = Buffer::new();
    is_front_with_two(text, name, b"::Variant", digits.format(number).as_bytes())
}

/// Whether a text is the name of the LF_ENUM of the variants' names, of the enum that has this name:
/// `enum2$<X>::VariantNames`. Takes no memory.
pub fn is_names_of(text: &[u8], name: &[u8]) -> bool
    ensures { result ≡ bytes_eq text.now (variants_name name.now) }
{
    is_front_with(text, name, b"::VariantNames")
}
