//! How deep the names in a name nest.
ghost use Rattle.std.specs.Prelude.{◌≡◌};
ghost use Rattle.rust_names.specs.RustGrammar.{rust, fits, all_fit, segs_fit};

use names::{Name, Seg};

/// Whether a member may stand alone in a `Dyn` of the level.
pub(crate) fn holds(inner: u32, member: &Name) -> bool
    ensures { result ≡ (rust inner).holds member.now }
{
    inner > 0 && is_within(member, inner - 1)
}

/// Whether the names in a name nest at most `depth` deep.
#[cycle(fitting)]
fn is_within(name: &Name, depth: u32) -> bool
    ensures { result ≡ fits depth name.now }
{
    if depth == 0 {
        return false;
    }
    let inner = depth - 1;
    match name {
        Name::Path(segs) => are_segs_within(segs.as_slice(), inner),
        Name::Pointer(_, to) => is_within(to.get(), inner),
        Name::Slice(item) => is_within(item.get(), inner),
        Name::Array(item, _) => is_within(item.get(), inner),
        Name::Tuple(parts) => are_within(parts.as_slice(), inner),
        Name::Str => true,
        Name::Dyn(members) => are_within(members.as_slice(), inner),
        Name::Fn(params, to) => are_within(params.as_slice(), inner) && is_within(to.get(), inner),
        Name::Number(_, _) => true,
        Name::Bind(_, to) => is_within(to.get(), inner),
        Name::Raw(_) => true,
    }
}

/// Whether the names in each of the names nest at most `depth` deep.
#[cycle(fitting)]
fn are_within(names: &[Name], depth: u32) -> bool
    ensures { result ≡ all_fit (fits depth) names.now }
{
    for name in names {
        if !is_within(name, depth) {
            return false;
        }
    }
    true
}

/// Whether the names in each of the segments nest at most `depth` deep.
#[cycle(fitting)]
fn are_segs_within(segs: &[Seg], depth: u32) -> bool
    ensures { result ≡ segs_fit (fits depth) segs.now }
{
    for seg in segs {
        if !are_within(seg.args.as_slice(), depth) {
            return false;
        }
    }
    true
}
